// The smallest candidate over a list that is not 0: one list goes on from where another ended.
ghost use Rattle.std.specs.Prelude.{ℕ, ◌≡◌};
ghost use Rattle.model.specs.Loops.{through};
ghost use Rattle.number.specs.Constants.{MAX};
ghost use Rattle.run_kinds.specs.Levels.{LevelsInside};
ghost use Rattle.run_candidates.specs.Next.{or_smaller, next_time, next_clock, next_level};

use clock::{clock_candidate, smaller_positive, time_candidate};
use number::constants::MAX;
use run_kinds::{Calls, Levels, Seconds};
use run_tables::{TankTable, tank_at};
use tank::{CubicFeetPerSecond, Feet};

// Over the seconds of one kind, from a first value.
fn smallest<F: Fn(u32) -> u64>(s: &Seconds, from: u64, candidate: F) -> u64
    ghost of: { ℕ → ℕ }
    requires callable { F.IsAlwaysCallable candidate }
    requires candidates { (x r : ℕ) → F.post candidate x r → r ≡ of x }
    ensures { result ≡ through s.now.count (or_smaller of s.now.seconds) from }
{
    let mut smallest = from;
    for i in 0..s.count {
        smallest = smaller_positive(candidate(s.seconds[i]), smallest);
    }
    smallest
}

// Time controls.
#[tactic(auto, unfolding(crate::specs::Next::next_time))]
pub fn next_time(s: &Seconds, time: u32, from: u64) -> u64
    ensures { result ≡ next_time s.now.seconds s.now.count time from }
{
    smallest(s, from, |at| time_candidate(at, time))
}

// Clock controls.
#[tactic(auto, unfolding(crate::specs::Next::next_clock))]
pub fn next_clock(s: &Seconds, clock: u64, from: u64) -> u64
    ensures { result ≡ next_clock s.now.seconds s.now.count clock from }
{
    smallest(s, from, |at| clock_candidate(at, clock))
}

// Level controls: a call waits for tank tanks[i], which stands at node nodes[tanks[i]], to be at targets[i].
pub fn next_level(
    l: &Levels,
    nodes: &[u32; 256],
    numbers: &[f64; 1280],
    overflows: &[u32; 256],
    heads: &[f64; 256],
    demands: &[f64; 256],
    from: u64,
) -> u64
    requires { LevelsInside l.now.tanks l.now.count nodes.now }
    ensures { result ≡ next_level l.now.tanks l.now.targets l.now.count nodes.now numbers.now overflows.now heads.now demands.now from }
{
    let mut smallest = from;
    for i in 0..l.count {
        let k = l.tanks[i] as usize;
        let j = nodes[k] as usize;
        let tank = tank_at(numbers, overflows, k);
        let wait = tank.time_to_reach_level(
            Feet(heads[j] - tank.elevation.0),
            Feet(l.targets[i]),
            CubicFeetPerSecond(demands[j]),
        );
        smallest = smaller_positive(wait, smallest);
    }
    smallest
}

// All of them: levels, times, clock times.
pub fn control_time(
    calls: &Calls,
    t: &TankTable,
    heads: &[f64; 256],
    demands: &[f64; 256],
    time: u32,
    clock: u64,
) -> u64
    requires { LevelsInside calls.now.levels.tanks calls.now.levels.count t.now.at.nodes }
    ensures { result ≡ next_clock calls.now.clocks.seconds calls.now.clocks.count clock
        (next_time calls.now.times.seconds calls.now.times.count time
        (next_level calls.now.levels.tanks calls.now.levels.targets calls.now.levels.count t.now.at.nodes t.now.numbers t.now.overflows heads.now demands.now MAX)) }
{
    let by_level = next_level(
        &calls.levels,
        &t.at.nodes,
        &t.numbers,
        &t.overflows,
        heads,
        demands,
        MAX,
    );
    next_clock(
        &calls.clocks,
        clock,
        next_time(&calls.times, time, by_level),
    )
}
