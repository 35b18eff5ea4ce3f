#![tactic(auto)]
// A cylindrical tank of `tank.rs`, with a level, a volume and a flow kept apart.
mod tank;
mod units;

pub use tank::{Tank, gap_time};
pub use units::{CubicFeet, CubicFeetPerSecond, Feet};
