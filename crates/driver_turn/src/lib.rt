#![tactic(auto)]
// Closing and the step of a turn, over the arrays of a run: the links of the tanks, the candidates, the length, and tanks and clock moved on.
ghost use Rattle.std.specs.Prelude.{◌≡◌};
ghost use Rattle.run_closing.specs.Closing.{GroupsInside};
ghost use Rattle.run_kinds.specs.Levels.{LevelsInside};
ghost use Rattle.driver_turn.specs.Steps.{closed_by, step_length_by, stepped_by};

use clock::{Times, clock_time};
use run_candidates::control_time;
use run_closing::{close_links, sum_demands};
use run_kinds::Calls;
use run_state::Lists;
use run_tables::TankTable;
use run_tanks::{move_tanks, tank_time};
use tank_links::LinkGroups;

// Answers the length. It is not 0 before the duration, so that the tanks always move.
pub fn step(
    times: Times,
    tanks: &TankTable,
    groups: &LinkGroups,
    calls: &Calls,
    lists: &mut Lists,
) -> u32
    requires groups_inside { GroupsInside groups.now.begins groups.now.middles groups.now.links tanks.now.at.count }
    requires levels_inside { LevelsInside calls.now.levels.tanks calls.now.levels.count tanks.now.at.nodes }
    ensures value { result ≡ step_length_by times tanks.now calls.now (closed_by tanks.now groups.now lists.old) }
    ensures lists_after { lists.new ≡ stepped_by tanks.now groups.now result lists.old }
{
    let time = lists.clock.instant;
    let hour = clock_time(times.start_clock, time);
    close_links(
        tanks,
        groups,
        &lists.heads,
        &lists.links.flows,
        &mut lists.links.statuses,
    );
    sum_demands(&tanks.at, groups, &lists.links.flows, &mut lists.demands);
    let tank = tank_time(tanks, &lists.heads, &lists.demands);
    let control = control_time(calls, tanks, &lists.heads, &lists.demands, time, hour);
    let length = times.step_length(tank, control, time);
    move_tanks(tanks, &lists.demands, u64::from(length), &mut lists.heads);
    lists.clock = lists.clock.advanced(length);
    length
}
