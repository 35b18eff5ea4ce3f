#![tactic(auto)]
// When the controls next call for a step to end: the smallest candidate over the list of each kind.
mod next;

pub use next::{control_time, next_clock, next_level, next_time};
