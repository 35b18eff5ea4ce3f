#![tactic(auto)]
// The arithmetic of a step, with no tables and no floats: `calculate_time_step` and `next_hydraulic_timestep` of simulation.rs
// once the tanks' and the controls' candidates are known, and the clock that a step moves.
mod candidates;
mod hand;
mod length;

pub use candidates::{clock_candidate, clock_time, smaller_positive, time_candidate};
pub use hand::Clock;
pub use length::Times;
