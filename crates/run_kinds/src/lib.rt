#![tactic(auto)]
// What the controls of each kind wait for, laid out once: their times, clock times and levels, each kind in a list of its own.
mod calls;
mod levels;
mod times;

pub use calls::{Calls, calls_of};
pub use levels::{Levels, level_calls};
pub use times::{Seconds, clock_calls, clock_of, time_calls, time_of};
