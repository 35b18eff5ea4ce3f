#![tactic(auto)]
// `state.rs`: the state at the start, patterns, controls and tanks, each over the whole state. They stand behind the public calls, which
// judge the tables first; what each demands of them is that they fit (`TablesFit`).
mod controls;
mod patterns;
mod start;
mod tanks;

pub use controls::apply_controls;
pub use patterns::apply_patterns;
pub use start::{new_with_initial_values, start_from};
pub use tanks::update_tanks;
