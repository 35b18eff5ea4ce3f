#![tactic(auto)]
// Premise truth: `RuleCondition::is_active` of rule.rs, for one premise with the node or the link that it looks at.
ghost use Rattle.std.specs.Prelude.{◌≡◌};
ghost use Rattle.rule.specs.Premises.{number_truth, time_truth, compare_status, status_truth, node_value, tank_value, tank_truth, link_truth, system_value, premise_truth};

use model::*;
use number::constants::PSI_PER_FT;
use number::{ComparisonOperator, abs, u64_to_f64};
use tank::{CubicFeetPerSecond, Feet, Tank};

// What a premise may ask of the whole system: the demand of all nodes, the instant and the clock time.
#[derive(Clone, Copy)]
pub struct System {
    pub demand: f64,
    pub time: u32,
    pub clock: u64,
}

// Against a number only.
fn number_truth(c: ComparisonOperator, x: f64, v: ConditionValue) -> bool
    ensures { result ≡ number_truth c x v }
{
    match v {
        ConditionValue::Number(y) => c.compare_f64(x, y),
        _ => false,
    }
}

// Against a number or a time.
fn time_truth(c: ComparisonOperator, x: f64, v: ConditionValue) -> bool
    ensures { result ≡ time_truth c x v }
{
    match v {
        ConditionValue::Number(y) => c.compare_f64(x, y),
        ConditionValue::Time(t) => c.compare_f64(x, u64_to_f64(u64::from(t))),
        ConditionValue::Status(_) => false,
    }
}

fn compare_status(c: ComparisonOperator, lhs: u32, rhs: u32) -> bool
    ensures { result ≡ compare_status c lhs rhs }
{
    match c {
        ComparisonOperator::Eq => lhs == rhs,
        ComparisonOperator::Ne => lhs != rhs,
        _ => false,
    }
}

// Against a status only.
fn status_truth(c: ComparisonOperator, x: u32, v: ConditionValue) -> bool
    ensures { result ≡ status_truth c x v }
{
    match v {
        ConditionValue::Status(y) => compare_status(c, x, y),
        _ => false,
    }
}

fn node_value(a: NodeAttribute, n: Node, s: NodeState) -> f64
    ensures { result ≡ node_value a n s }
{
    match a {
        NodeAttribute::Demand => s.demand,
        NodeAttribute::Head => s.head,
        NodeAttribute::Pressure => (s.head - n.elevation()) * PSI_PER_FT,
    }
}

// A tank's level in feet, or its time to fill or to drain in hours.
fn tank_value(a: TankAttribute, t: Tank, s: NodeState) -> f64
    ensures { result ≡ tank_value a t s }
{
    let level = Feet(s.head - t.elevation.0);
    let flow = CubicFeetPerSecond(s.demand);
    match a {
        TankAttribute::Level => level.0,
        TankAttribute::FillTime => {
            u64_to_f64(t.time_to_reach_level(level, t.max_level, flow)) / 3600.0
        }
        TankAttribute::DrainTime => {
            u64_to_f64(t.time_to_reach_level(level, t.min_level, flow)) / 3600.0
        }
    }
}

fn tank_truth(
    a: TankAttribute,
    n: Node,
    s: NodeState,
    c: ComparisonOperator,
    v: ConditionValue,
) -> bool
    ensures { result ≡ tank_truth a n.kind s c v }
{
    match n.kind {
        NodeType::Tank(t) => number_truth(c, tank_value(a, t, s), v),
        _ => false,
    }
}

fn link_truth(a: LinkAttribute, s: LinkState, c: ComparisonOperator, v: ConditionValue) -> bool
    ensures { result ≡ link_truth a s c v }
{
    match a {
        LinkAttribute::Flow => number_truth(c, abs(s.flow), v),
        LinkAttribute::Status => status_truth(c, s.status, v),
        LinkAttribute::Setting => number_truth(c, s.setting, v),
    }
}

fn system_value(a: SystemAttribute, y: System) -> f64
    ensures { result ≡ system_value a y }
{
    match a {
        SystemAttribute::Demand => y.demand,
        SystemAttribute::Time => u64_to_f64(u64::from(y.time)),
        SystemAttribute::ClockTime => u64_to_f64(y.clock),
    }
}

// Whether a premise holds. It looks at the node, at the link or at the system, by its target.
pub fn premise_truth(
    premise: Premise,
    node: Node,
    node_state: NodeState,
    link_state: LinkState,
    system: System,
) -> bool
    ensures { result ≡ premise_truth premise node node_state link_state system }
{
    let c = premise.comparison;
    let v = premise.value;
    match premise.target {
        RuleConditionTarget::Node(_, a) => number_truth(c, node_value(a, node, node_state), v),
        RuleConditionTarget::Tank(_, a) => tank_truth(a, node, node_state, c, v),
        RuleConditionTarget::Link(_, a) => link_truth(a, link_state, c, v),
        RuleConditionTarget::System(a) => time_truth(c, system_value(a, system), v),
    }
}
