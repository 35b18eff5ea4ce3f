// The clock time, and the seconds until something next calls for a step to end.
ghost use Rattle.std.specs.Prelude.{◌≡◌};
ghost use Rattle.clock.specs.Steps.{clock_time, time_candidate, clock_candidate, smaller_positive, to_next};

use number::constants::MAX;

// The seconds of a day.
pub const DAY: u64 = 86400;

// The seconds of the day at an instant.
pub fn clock_time(start_clock: u32, time: u32) -> u64
    ensures { result ≡ clock_time start_clock time }
{
    (u64::from(time) + u64::from(start_clock)) % DAY
}

// A time control's candidate.
#[tactic(auto, unfolding(crate::specs::Steps::time_candidate))]
pub fn time_candidate(seconds: u32, time: u32) -> u64
    ensures { result ≡ time_candidate seconds time }
{
    seconds.checked_sub(time).map_or(MAX, u64::from)
}

// A clock control's candidate.
#[tactic(auto, unfolding(crate::specs::Steps::clock_candidate))]
pub fn clock_candidate(seconds: u32, clock: u64) -> u64
    ensures { result ≡ clock_candidate seconds clock }
{
    let due = u64::from(seconds);
    if clock <= due {
        return due - clock;
    }
    (due + DAY).saturating_sub(clock)
}

// The smaller of a candidate and the smallest so far; a candidate of 0 drops out.
pub fn smaller_positive(candidate: u64, smallest: u64) -> u64
    ensures { result ≡ smaller_positive candidate smallest }
{
    if candidate == 0 {
        return smallest;
    }
    candidate.min(smallest)
}

// The seconds to the next multiple of a timestep; 0 where there is no timestep.
pub fn time_to_next(timestep: u32, time: u32) -> u64
    ensures { result ≡ to_next timestep time }
{
    if timestep == 0 {
        return 0;
    }
    u64::from(timestep - time % timestep)
}
