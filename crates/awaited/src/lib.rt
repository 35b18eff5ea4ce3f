#![tactic(auto)]
// What the controls of a table wait for, read into two lists: whoever asks often is lent these, where a table of controls would be copied every time.
ghost use Rattle.std.specs.Prelude.{◌≡◌, ◌≤◌};
ghost use Rattle.awaited.specs.Awaited.{awaited_by};

use model::*;
use run_kinds::{clock_of, time_of};

// What each control waits for, by its number: an instant, and a clock time.
#[derive(Clone, Copy)]
pub struct Awaited {
    pub times: [Option<u32>; 64],
    pub clocks: [Option<u32>; 64],
}

// What the first controls wait for.
pub fn awaited_by(controls: &[Control; 64], count: usize) -> Awaited
    requires { count ≤ 64 }
    ensures { result ≡ awaited_by controls.now count }
{
    let mut times = [None; 64];
    let mut clocks = [None; 64];
    for i in 0..count {
        let condition = controls[i].condition;
        times[i] = time_of(condition);
        clocks[i] = clock_of(condition);
    }
    Awaited { times, clocks }
}
