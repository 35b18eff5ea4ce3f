#![tactic(auto)]
// The project's tables and the state, by value, and what the Rust says of one node, one link and one pattern.
// Files carry the names of the Rust's. Entries past the counts are blank.
mod control;
mod link;
mod node;
mod options;
mod pattern;
mod project;
mod rule;
mod state;

pub use control::{Control, ControlCondition};
pub use link::{CLOSED, FIXED_CLOSED, Link, LinkType, TEMP_CLOSED};
pub use node::{Demand, Demands, Junction, Node, NodeType, Reservoir};
pub use options::Options;
pub use pattern::{multiplier_at, period};
pub use project::{
    Counts, Project, blank_control, blank_link, blank_node, blank_options, blank_premise, no_counts,
};
pub use rule::{
    ConditionValue, LinkAttribute, NodeAttribute, Premise, RuleConditionOperator,
    RuleConditionTarget, SystemAttribute, TankAttribute,
};
pub use state::{LinkState, NodeState, State};
