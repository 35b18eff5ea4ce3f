#![tactic(auto)]
// A load: every link's flow, then every junction's head, and the tanks' net inflow. What it goes by is laid out, and its passes run over a state's lists.
ghost use Rattle.std.specs.Prelude.{◌≡◌};
ghost use Rattle.run_load_tables.specs.Laid.{LoadLaid};
ghost use Rattle.run_loads.specs.Faults.{judged_number};
ghost use Rattle.tables.specs.Fit.{TablesFit};
ghost use Rattle.load.specs.Loads.{value_count, load_fault, take_load};

use model::*;
use run_loads::{LoadFault, LoadTable};
use run_state::Lists;
use run_tables::tank_table;

// What a load of a project goes by.
fn load_table(p: &Project) -> LoadTable
    requires { TablesFit p.now }
    ensures { LoadLaid p.now.nodes p.now.counts.nodes p.now.links p.now.counts.links result }
{
    run_load_tables::load_table(&p.nodes, p.counts.nodes, &p.links, p.counts.links)
}

// How many numbers a load has.
pub fn value_count(p: Project) -> usize
    requires { TablesFit p }
    ensures { result ≡ value_count p }
{
    load_table(&p).count()
}

// Whether some words are a load.
pub fn judge(p: Project, words: &[u32]) -> Result<(), LoadFault>
    requires { TablesFit p }
    ensures { judged_number result ≡ load_fault p words.now }
{
    load_table(&p).judge(words)
}

// The state with a load taken that has no fault.
pub fn take_load(p: Project, s: State, words: &[u32]) -> State
    requires { TablesFit p }
    ensures { result ≡ take_load p words.now s }
{
    let tanks = tank_table(&p.nodes, p.counts.nodes);
    let mut lists = Lists::of(&s);
    load_table(&p).take(words, &tanks.at, &mut lists);
    lists.state()
}
