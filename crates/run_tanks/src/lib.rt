#![tactic(auto)]
// What else a run makes of the tanks, over its tables: their demands back to 0, the smallest candidate, the heads moved. Only tanks are visited.
mod emptying;
mod moving;

pub use emptying::empty_tanks;
pub use moving::{move_tanks, tank_time};
