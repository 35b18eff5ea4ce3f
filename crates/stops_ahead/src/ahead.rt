// The stops ahead, one after the other, by what the controls wait for.
ghost use Rattle.std.specs.Prelude.{◌≡◌, ◌≤◌, ◌<◌, length, take};
ghost use Rattle.awaited.specs.Awaited.{triggers_in};
ghost use Rattle.stops.specs.Stops.{stops_above};
ghost use Rattle.stops_ahead.specs.Ahead.{awaited_candidate, awaited_time, next_after, Timely};
ghost use Rattle.stops_ahead.specs.Foreseen.{fronted};

use awaited::{Awaited, awaited_by};
use clock::{Times, clock_candidate, clock_time, smaller_positive, time_candidate};
use model::*;
use number::constants::MAX;

// The candidate of a control that waits for an instant, a clock time or neither.
fn awaited_candidate(seconds: Option<u32>, of_day: Option<u32>, time: u32, clock: u64) -> u64
    ensures { result ≡ awaited_candidate seconds of_day time clock }
{
    if let Some(at) = seconds {
        return time_candidate(at, time);
    }
    if let Some(at) = of_day {
        return clock_candidate(at, clock);
    }
    MAX
}

// The smallest of the controls' candidates that is not 0.
fn awaited_time(awaited: &Awaited, count: usize, time: u32, clock: u64) -> u64
    requires { count ≤ 64 }
    ensures { result ≡ awaited_time awaited.now.times awaited.now.clocks count time clock }
{
    let mut smallest = MAX;
    for i in 0..count {
        smallest = smaller_positive(
            awaited_candidate(awaited.times[i], awaited.clocks[i], time, clock),
            smallest,
        );
    }
    smallest
}

// The next stop after an instant before the duration.
fn next_after(o: Times, awaited: &Awaited, count: usize, time: u32) -> u32
    requires duration_bound { (o.duration ≤ 315360000) × (time < o.duration) }
    requires count_bound { count ≤ 64 }
    ensures { result ≡ next_after o awaited.now.times awaited.now.clocks count time }
{
    let clock = clock_time(o.start_clock, time);
    let controls = awaited_time(awaited, count, time, clock);
    time + o.step_length(MAX, controls, time)
}

// Fills a list with the stops after an instant, as far as it has room, and answers how many they are.
pub fn fill(o: Times, controls: &[Control; 64], count: usize, from: u32, out: &mut [u32]) -> usize
    requires { Timely o controls.now count }
    ensures value { result ≡ length (take (length out.old) (stops_above o (triggers_in controls.now count) from)) }
    ensures out_after { out.new ≡ fronted (take (length out.old) (stops_above o (triggers_in controls.now count) from)) out.old }
{
    let awaited = awaited_by(controls, count);
    let mut time = from;
    let mut n = 0;
    while (time < o.duration) & (n < out.len()) {
        time = next_after(o, &awaited, count, time);
        out[n] = time;
        n += 1;
    }
    n
}
