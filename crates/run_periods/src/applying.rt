// All that the patterns write, at every instant or once a period.
ghost use Rattle.std.specs.Prelude.{◌≡◌};
ghost use Rattle.model.specs.Patterns.{period};
ghost use Rattle.run_periods.specs.Applying.{inputs_of, written_in, filled, patterns_applied};

use model::period;
use run_patterns::{copy_demands, fill_demands, fill_heads, fill_multipliers};
use run_sources::PatternTables;
use run_state::Lists;
use run_tables::NodeList;
use run_tanks::empty_tanks;

// The multipliers of an instant, and what they make of demands, heads and demand flows.
pub fn fill_patterns(
    t: &PatternTables,
    multipliers: &[f64; 5376],
    time: u32,
    table: &mut [f64; 33],
    lists: &mut Lists,
)
    ensures lists_after { filled (inputs_of t.now multipliers.now) time (written_in table.old lists.old) ≡ written_in table.new lists.new }
    ensures links_stay { lists.new.links ≡ lists.old.links }
    ensures clock_stays { lists.new.clock ≡ lists.old.clock }
{
    fill_multipliers(&t.lengths, multipliers, t.start, t.timestep, time, table);
    fill_demands(&t.demands, table, t.scale, &mut lists.demands);
    fill_heads(&t.heads, table, &mut lists.heads);
    if t.pda {
        copy_demands(&lists.demands, t.demands.count, &mut lists.demand_flows);
    }
}

// The same, but where the period of the instant is the one in force, only the tanks' demands. Answers the period.
pub fn apply_patterns(
    t: &PatternTables,
    multipliers: &[f64; 5376],
    tanks: &NodeList,
    in_force: u64,
    time: u32,
    table: &mut [f64; 33],
    lists: &mut Lists,
) -> u64
    ensures value { result ≡ period t.now.start t.now.timestep time }
    ensures lists_after { patterns_applied (inputs_of t.now multipliers.now) tanks.now.nodes tanks.now.count in_force time (written_in table.old lists.old) ≡ written_in table.new lists.new }
    ensures links_stay { lists.new.links ≡ lists.old.links }
    ensures clock_stays { lists.new.clock ≡ lists.old.clock }
{
    let current = period(t.start, t.timestep, time);
    if current == in_force {
        empty_tanks(tanks, &mut lists.demands);
    } else {
        fill_patterns(t, multipliers, time, table, lists);
    }
    current
}
