// The lists of the three kinds together.
ghost use Rattle.std.specs.Prelude.{◌≤◌};
ghost use Rattle.run_kinds.specs.Calls.{times_in, clocks_in, Laid};
ghost use Rattle.run_kinds.specs.Levels.{LevelsLaid};
ghost use Rattle.run_kinds.specs.Triggers.{triggers_in};

use crate::levels::{Levels, level_calls};
use crate::times::{Seconds, clock_calls, time_calls};
use model::*;
use run_tables::NodeList;

// What the controls call for a step to end at.
#[repr(C)]
#[derive(Clone, Copy)]
pub struct Calls {
    pub levels: Levels,
    pub times: Seconds,
    pub clocks: Seconds,
}

// Those of the first n controls; the levels are those of tanks.
pub fn calls_of(controls: &[Control; 64], n: usize, tanks: &NodeList) -> Calls
    requires { n ≤ 64 }
    ensures times { Laid result.times.seconds result.times.count (times_in (triggers_in controls.now n)) }
    ensures clocks { Laid result.clocks.seconds result.clocks.count (clocks_in (triggers_in controls.now n)) }
    ensures levels { LevelsLaid controls.now n tanks.now.nodes tanks.now.count result.levels.tanks result.levels.targets result.levels.count }
{
    Calls {
        levels: level_calls(controls, n, tanks),
        times: time_calls(controls, n),
        clocks: clock_calls(controls, n),
    }
}
