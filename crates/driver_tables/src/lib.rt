#![tactic(auto)]
// The tables of a run: all that its steps read of a project but the patterns' multipliers, laid out once as arrays of numbers.
ghost use Rattle.tables.specs.Fit.{TablesFit};
ghost use Rattle.driver_tables.specs.Laid.{PartsInside, Laid, LaidFrom};

use clock::Times;
use model::{Options, Project};
use run_kinds::{Calls, calls_of};
use run_load_tables::load_table;
use run_loads::LoadTable;
use run_rows::{ControlTable, control_table};
use run_sources::{PatternTables, pattern_tables};
use run_tables::{TankTable, tank_table};
use simulation::times_from;
use tank_links::{LinkGroups, lay_groups};

// What a step reads: options and times; the tanks with their links; the controls, as rows in image order, and by kind what calls for a step to end; the
// patterns' demands and heads; what a load goes by.
#[derive(Clone, Copy)]
pub struct Tables {
    pub options: Options,
    pub times: Times,
    pub tanks: TankTable,
    pub groups: LinkGroups,
    pub controls: ControlTable,
    pub calls: Calls,
    pub patterns: PatternTables,
    pub load: LoadTable,
}

// Of a project; and so of every other that differs in its premises or its multipliers alone, since neither is read.
pub fn lay_out(p: &Project) -> Tables
    requires { PartsInside p.now.counts p.now.links p.now.controls }
    ensures from { LaidFrom p.now.options p.now.counts p.now.lengths p.now.nodes p.now.links p.now.controls result }
    ensures laid { TablesFit p.now → Laid p.now result }
{
    let counts = p.counts;
    let options = p.options;
    let tanks = tank_table(&p.nodes, counts.nodes);
    let mut groups = LinkGroups::empty();
    lay_groups(&p.links, counts.links, &tanks.at, &mut groups);
    let fast = options.skip & (counts.controls == 0) & (tanks.at.count == 0);
    Tables {
        options,
        times: times_from(options, fast),
        groups,
        controls: control_table(&p.controls, counts.controls, &p.nodes, &p.links),
        calls: calls_of(&p.controls, counts.controls, &tanks.at),
        patterns: pattern_tables(options, &p.lengths, &p.nodes, counts.nodes),
        load: load_table(&p.nodes, counts.nodes, &p.links, counts.links),
        tanks,
    }
}
