// The tanks' and the controls' candidates, and the options that a step reads.
ghost use Rattle.std.specs.Prelude.{◌≡◌};
ghost use Rattle.clock.specs.Triggers.{control_time};
ghost use Rattle.tables.specs.Fit.{TablesFit};
ghost use Rattle.simulation.specs.Steps.{no_tanks, on_fast_path, hydraulic_in_force, times_of, triggers_of, tank_time, moment_of};

use clock::{Times, clock_time};
use model::*;
use run_kinds::calls_of;
use run_state::Lists;
use run_tables::tank_table;

pub fn no_tanks(p: Project) -> bool
    requires { TablesFit p }
    ensures { result ≡ no_tanks p }
{
    for i in 0..p.counts.nodes {
        if p.nodes[i].is_tank() {
            return false;
        }
    }
    true
}

fn on_fast_path(p: Project) -> bool
    requires { TablesFit p }
    ensures { result ≡ on_fast_path p }
{
    let skip = p.options.skip;
    let controls = p.counts.controls;
    if !skip {
        return false;
    }
    if controls != 0 {
        return false;
    }
    no_tanks(p)
}

// The seconds of the hydraulic timestep where its field is 0.
const HOUR: u32 = 3600;

// The hydraulic timestep in force, by the options' field.
fn hydraulic_in_force(hydraulic: u32) -> u32
    ensures { result ≡ hydraulic_in_force hydraulic }
{
    if hydraulic == 0 {
        return HOUR;
    }
    hydraulic
}

// The options that a step reads, and whether the fast path is taken.
pub fn times_from(o: Options, fast: bool) -> Times
    ensures { result ≡ record { duration = o.duration; hydraulic = hydraulic_in_force o.hydraulic; report = o.report; pattern = o.pattern; start_clock = o.start_clock; fast = fast } }
{
    Times {
        duration: o.duration,
        hydraulic: hydraulic_in_force(o.hydraulic),
        report: o.report,
        pattern: o.pattern,
        start_clock: o.start_clock,
        fast,
    }
}

#[tactic(auto, unfolding(crate::specs::Steps::times_of))]
pub fn times_of(p: Project) -> Times
    requires { TablesFit p }
    ensures { result ≡ times_of p }
{
    times_from(p.options, on_fast_path(p))
}

// The smallest over all tanks, zeros too, by the table of the tanks.
pub fn tank_time(p: Project, s: State) -> u64
    requires { TablesFit p }
    ensures { result ≡ tank_time p s }
{
    let tanks = tank_table(&p.nodes, p.counts.nodes);
    let lists = Lists::of(&s);
    run_tanks::tank_time(&tanks, &lists.heads, &lists.demands)
}

// The smallest of the controls' candidates that is not 0: over their levels, their times and their clock times.
pub fn control_time(p: Project, s: State) -> u64
    requires { TablesFit p }
    ensures { result ≡ control_time (times_of p) (triggers_of p) (moment_of p s) s.clock.instant }
{
    let tanks = tank_table(&p.nodes, p.counts.nodes);
    let calls = calls_of(&p.controls, p.counts.controls, &tanks.at);
    let lists = Lists::of(&s);
    let time = s.clock.instant;
    let clock = clock_time(p.options.start_clock, time);
    run_candidates::control_time(&calls, &tanks, &lists.heads, &lists.demands, time, clock)
}
