// `update_tank_links`, by the table of the tanks' links.
ghost use Rattle.std.specs.Prelude.{◌≡◌, true};
ghost use Rattle.run_state.specs.Lists.{lists_of};
ghost use Rattle.run_closing.specs.Closing.{GroupsInside};
ghost use Rattle.tables.specs.Fit.{TablesFit};
ghost use Rattle.tank_links.specs.Groups.{is_laid_out};
ghost use Rattle.solver.specs.ByTable.{lists_closed};
ghost use Rattle.solver.specs.Closing.{update_tank_links};

use model::*;
use run_closing::{close_links, sum_demands};
use run_state::Lists;
use run_tables::{TankTable, tank_table};
use tank_links::{LinkGroups, lay_groups};

// Closing by the tables of a project's tanks and of their links: the state is unpacked, its statuses and its demands have a pass each, and it
// is packed again.
fn close_by(t: &TankTable, g: &LinkGroups, s: &State) -> State
    requires { GroupsInside g.now.begins g.now.middles g.now.links t.now.at.count }
    ensures { lists_of result ≡ lists_closed t.now.at.nodes t.now.numbers t.now.overflows g.now.begins g.now.middles g.now.links t.now.at.count s.now }
{
    let lists = &mut Lists::of(s);
    close_links(
        t,
        g,
        &lists.heads,
        &lists.links.flows,
        &mut lists.links.statuses,
    );
    sum_demands(&t.at, g, &lists.links.flows, &mut lists.demands);
    lists.state()
}

// Closing by a table that is the one laid out.
pub fn update_tank_links_by(p: Project, s: State, groups: &LinkGroups) -> State
    requires tables_fit { TablesFit p }
    requires links_value { is_laid_out p groups.now.begins groups.now.middles groups.now.links ≡ true }
    ensures { result ≡ update_tank_links p s }
{
    let t = tank_table(&p.nodes, p.counts.nodes);
    close_by(&t, groups, &s)
}

// Closing by the table laid out for it.
pub fn update_tank_links(p: Project, s: State) -> State
    requires { TablesFit p }
    ensures { result ≡ update_tank_links p s }
{
    let t = tank_table(&p.nodes, p.counts.nodes);
    let mut groups = LinkGroups::empty();
    lay_groups(&p.links, p.counts.links, &t.at, &mut groups);
    close_by(&t, &groups, &s)
}
