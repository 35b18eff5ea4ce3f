// `update_tanks`, by the table of the tanks.
ghost use Rattle.std.specs.Prelude.{◌≡◌};
ghost use Rattle.tables.specs.Fit.{TablesFit};
ghost use Rattle.state.specs.Tanks.{update_tanks};

use model::*;
use run_state::Lists;
use run_tables::tank_table;
use run_tanks::move_tanks;

pub fn update_tanks(p: Project, s: State, seconds: u64) -> State
    requires { TablesFit p }
    ensures { result ≡ update_tanks p s seconds }
{
    let t = tank_table(&p.nodes, p.counts.nodes);
    let mut lists = Lists::of(&s);
    move_tanks(&t, &lists.demands, seconds, &mut lists.heads);
    lists.state()
}
