#![tactic(auto)]
// The driver's run in chunks: each takes some bytes of the input and fills a buffer with lines, as many turns as the input and the room allow.
// A chunk unpacks the state into lists of numbers, lends them to the passes of every turn, and packs the state again. What it demands is that tables and
// state are those of a project in order: whoever makes chunks lays the tables out once, and by soundness every turn leaves a state in order.
ghost use Rattle.std.specs.Prelude.{◌≡◌, false, ◌&&◌, ltb};
ghost use Rattle.driver_chunk.specs.Chunks.{wants_input, can_turn, RunOf, Advanced};

use clock::clock_time;
use driver_load::load_left;
use driver_tables::Tables;
use driver_turn::step;
use model::*;
use number::constants::MAX;
use run_controls::apply_controls;
use run_periods::apply_patterns;
use run_state::*;

// The state after the turns; how many bytes of the input they took and of the buffer they filled; whether the run is over; and how many bytes the
// next turn waits for, 0 where it waits for none.
#[derive(Clone, Copy)]
pub struct Chunk {
    pub state: State,
    pub used: usize,
    pub written: usize,
    pub over: bool,
    pub wants: usize,
}

// How many bytes the next turn waits for.
fn wants_input(duration: u32, instant: u32, whole: bool, left: usize, size: usize) -> usize
    ensures { result ≡ wants_input duration instant whole left size }
{
    if whole {
        return 0;
    }
    if duration <= instant {
        return 0;
    }
    if left < size {
        return size;
    }
    0
}

// Whether there is room for a line, and input for a turn.
fn can_turn(over: bool, wants: usize, room: usize) -> bool
    ensures { result ≡ can_turn over wants room }
{
    if over {
        return false;
    }
    if wants == 0 {
        return 22 <= room;
    }
    false
}

// The same, and it is a step: before the duration.
fn can_step(wants: usize, room: usize, instant: u32, duration: u32) -> bool
    ensures { result ≡ can_turn false wants room && ltb instant duration }
{
    can_turn(false, wants, room) & (instant < duration)
}

// `whole` says that no input comes after this. Before the first turn no period's patterns are in force: MAX is none.
pub fn advance(
    t: &Tables,
    multipliers: &[f64; 5376],
    s: State,
    input: &[u8],
    whole: bool,
    out: &mut [u8],
) -> Chunk
    requires { RunOf t.now multipliers.now s }
    ensures { Advanced t.now multipliers.now s input.now whole out.old out.new result }
{
    let mut lists = Lists::of(&s);
    let mut table = [1.0; 33];
    let mut in_force = MAX;
    let duration = t.options.duration;
    let numbers = t.load.count();
    let size = (1 + 2 * numbers) * 4;
    let mut used = 0;
    let mut written = 0;
    let mut wants = wants_input(duration, lists.clock.instant, whole, input.len(), size);
    while can_step(wants, out.len() - written, lists.clock.instant, duration) {
        let time = lists.clock.instant;
        let hour = clock_time(t.times.start_clock, time);
        in_force = apply_patterns(
            &t.patterns,
            multipliers,
            &t.tanks.at,
            in_force,
            time,
            &mut table,
            &mut lists,
        );
        apply_controls(&t.controls, &lists.heads, time, hour, &mut lists.links);
        let taken = match load_left(&input[used..], numbers, &t.load, &t.tanks.at, &mut lists) {
            Ok(taken) => taken,
            Err(fault) => {
                let end = listing::put_refused_line(out, written, fault.number());
                return Chunk {
                    state: lists.state(),
                    used,
                    written: end,
                    over: true,
                    wants,
                };
            }
        };
        let length = step(t.times, &t.tanks, &t.groups, &t.calls, &mut lists);
        written = listing::put_step_line(out, written, time, length);
        used += taken;
        wants = wants_input(
            duration,
            lists.clock.instant,
            whole,
            input.len() - used,
            size,
        );
    }
    if can_turn(false, wants, out.len() - written) {
        let end = listing::put_steps_line(out, written, lists.clock.count);
        return Chunk {
            state: lists.state(),
            used,
            written: end,
            over: true,
            wants,
        };
    }
    Chunk {
        state: lists.state(),
        used,
        written,
        over: false,
        wants,
    }
}
