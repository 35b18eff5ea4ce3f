// The walk, second by second. What the controls wait for is read into two lists of words first.
ghost use Rattle.std.specs.Prelude.{◌≡◌, ◌≤◌, ◌<◌};
ghost use Rattle.awaited.specs.Awaited.{triggers_in};
ghost use Rattle.stops.specs.Walk as stops;
ghost use Rattle.second_clock.specs.Walks.{or_never, words_of, any_calls, stops_then, TimesFit};

use awaited::awaited_by;
use clock::Times;
use model::*;

// The seconds of a day.
// kept: its own, since document 02, R-10, has the second clock share no arithmetic with the driver.
pub const DAY: u32 = 86400;

// No instant of a walk, and no clock time.
const NEVER: u32 = 4294967295;

// What a control waits for as a word.
fn or_never(seconds: Option<u32>) -> u32
    ensures { result ≡ or_never seconds }
{
    match seconds {
        Some(at) => at,
        None => NEVER,
    }
}

// What the controls wait for as words.
// kept: words, not `Option`, in the test of a second: a walk of 64 controls takes a quarter of the instructions (docs/MEASUREMENTS.md, "The second clock").
fn words_of(seconds: &[Option<u32>; 64]) -> [u32; 64]
    ensures { result ≡ words_of seconds.now }
{
    let mut words = [NEVER; 64];
    for i in 0..64 {
        words[i] = or_never(seconds[i]);
    }
    words
}

// Whether one of the first controls calls for a stop at an instant of this clock time.
fn any_calls(times: &[u32; 64], clocks: &[u32; 64], count: usize, instant: u32, clock: u32) -> bool
    requires { count ≤ 64 }
    ensures { result ≡ any_calls times.now clocks.now count instant clock }
{
    let mut called = false;
    for i in 0..count {
        called |= (instant == times[i]) | (clock == clocks[i]);
    }
    called
}

// Whether the walk stops at an instant, so many seconds after it began.
fn stops_then(o: Times, called: bool, instant: u32, seconds: u32) -> bool
    requires { (0 < o.report) × (0 < o.pattern) }
    ensures { result ≡ stops_then o called instant seconds }
{
    ((instant % o.report == 0) | ((instant % o.pattern == 0) | (called | (instant == o.duration))))
        | (seconds == o.hydraulic)
}

// The seconds to the next stop after an instant.
pub fn walk(o: Times, controls: &[Control; 64], count: usize, from: u32) -> u32
    requires times_fit { TimesFit o }
    requires count_bound { count ≤ 64 }
    ensures { result ≡ stops.walk o (triggers_in controls.now count) from }
{
    let awaited = awaited_by(controls, count);
    let times = words_of(&awaited.times);
    let clocks = words_of(&awaited.clocks);
    let mut instant = from;
    let mut seconds = 0;
    while instant < o.duration {
        instant += 1;
        seconds += 1;
        let clock = (instant + o.start_clock) % DAY;
        let called = any_calls(&times, &clocks, count, instant, clock);
        if stops_then(o, called, instant, seconds) {
            return seconds;
        }
    }
    seconds
}
