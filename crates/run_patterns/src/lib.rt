#![tactic(auto)]
// The passes that the patterns of an instant make over a run's tables.
mod filling;

pub use filling::{copy_demands, fill_demands, fill_heads, fill_multipliers};
