// The call: where it serves, and the state after it.
ghost use Rattle.std.specs.Prelude.{◌≡◌, ◌+◌, ◌<◌, ◌^◌};
ghost use Rattle.tables.specs.Fit.{TablesFit};
ghost use Rattle.second_clock.specs.SecondClock.{daily, second_applies, moved_on, second};

use crate::walk::{DAY, walk};
use calls::StepCalled;
use clock::{Clock, Times};
use judge::in_order;
use model::*;
use simulation::{no_tanks, times_of};

// Whether one of the timesteps is at most a day.
fn daily(o: Times) -> bool
    ensures { result ≡ daily o }
{
    (o.report <= DAY) | ((o.pattern <= DAY) | (o.hydraulic <= DAY))
}

// Whether the project is one that the second clock serves.
pub fn second_applies(p: Project) -> bool
    requires { TablesFit p }
    ensures { result ≡ second_applies p }
{
    let o = times_of(p);
    no_tanks(p) & (!o.fast & daily(o))
}

// The clock moved on by some seconds.
fn moved_on(s: State, seconds: u32) -> State
    requires { (s.clock.instant + seconds < 2 ^ 32) × (s.clock.count + 1 < 2 ^ 32) }
    ensures { result ≡ moved_on s seconds }
{
    if seconds == 0 {
        return s;
    }
    State {
        clock: Clock {
            instant: s.clock.instant + seconds,
            count: s.clock.count + 1,
        },
        ..s
    }
}

// A step by the second clock: the number, its length in seconds, and the state after it.
pub fn step_by_seconds(p: Project, s: State) -> StepCalled
    ensures { result ≡ second p s }
{
    if !in_order(p, s) {
        return StepCalled {
            number: 10,
            length: 0,
            state: s,
        };
    }
    if !second_applies(p) {
        return StepCalled {
            number: 14,
            length: 0,
            state: s,
        };
    }
    let length = walk(times_of(p), &p.controls, p.counts.controls, s.clock.instant);
    StepCalled {
        number: 0,
        length,
        state: moved_on(s, length),
    }
}
