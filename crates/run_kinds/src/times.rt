// The times and the clock times of a table's controls, in image order.
ghost use Rattle.std.specs.Prelude.{ℕ, ◌≡◌, ◌≤◌, Option, filter_map};
ghost use Rattle.clock.specs.Triggers.{Trigger};
ghost use Rattle.control.specs.Controls.{Level, trigger_of};
ghost use Rattle.model.specs.declared.control.ControlCondition.{ControlCondition};
ghost use Rattle.run_kinds.specs.Calls.{time_of, clock_of, times_in, clocks_in, Laid};
ghost use Rattle.run_kinds.specs.Triggers.{triggers_in};

use model::*;

// What stands past the count is free.
#[repr(C)]
#[derive(Clone, Copy)]
pub struct Seconds {
    pub count: usize,
    pub seconds: [u32; 64],
    pub ghost few: { count ≤ 64 },
}

// The instant that a control waits for.
pub fn time_of(condition: ControlCondition) -> Option<u32>
    ensures { result ≡ time_of (trigger_of condition) }
{
    match condition {
        ControlCondition::Time { seconds } => Some(seconds),
        _ => None,
    }
}

// The clock time that one waits for.
pub fn clock_of(condition: ControlCondition) -> Option<u32>
    ensures { result ≡ clock_of (trigger_of condition) }
{
    match condition {
        ControlCondition::ClockTime { seconds } => Some(seconds),
        _ => None,
    }
}

// The seconds that a pick finds in the first n controls.
pub fn seconds_where<F: Fn(ControlCondition) -> Option<u32>>(
    controls: &[Control; 64],
    n: usize,
    pick: F,
) -> Seconds
    ghost of: { Trigger Level → Option ℕ }
    requires few { n ≤ 64 }
    requires callable { F.IsAlwaysCallable pick }
    requires picks { (c : ControlCondition) (r : Option ℕ) → F.post pick c r → r ≡ of (trigger_of c) }
    ensures { Laid result.seconds result.count (filter_map of (triggers_in controls.now n)) }
{
    let mut seconds = [0; 64];
    let mut count = 0;
    for i in 0..n {
        if let Some(s) = pick(controls[i].condition) {
            seconds[count] = s;
            count += 1;
        }
    }
    Seconds { count, seconds }
}

// The times of the first n controls.
pub fn time_calls(controls: &[Control; 64], n: usize) -> Seconds
    requires { n ≤ 64 }
    ensures { Laid result.seconds result.count (times_in (triggers_in controls.now n)) }
{
    seconds_where(controls, n, time_of)
}

// The clock times of the first n controls.
pub fn clock_calls(controls: &[Control; 64], n: usize) -> Seconds
    requires { n ≤ 64 }
    ensures { Laid result.seconds result.count (clocks_in (triggers_in controls.now n)) }
{
    seconds_where(controls, n, clock_of)
}
