// `apply_patterns`, by the tables of the demands and of the reservoirs with a pattern.
ghost use Rattle.std.specs.Prelude.{◌≡◌};
ghost use Rattle.tables.specs.Fit.{TablesFit};
ghost use Rattle.state.specs.Patterns.{apply_patterns};

use model::*;
use run_periods::fill_patterns;
use run_sources::pattern_tables;
use run_state::Lists;

// The tables are laid out, and the passes run over the state's lists.
pub fn apply_patterns(p: Project, s: State) -> State
    requires { TablesFit p }
    ensures { result ≡ apply_patterns p s }
{
    let t = pattern_tables(p.options, &p.lengths, &p.nodes, p.counts.nodes);
    let mut table = [1.0; 33];
    let mut lists = Lists::of(&s);
    fill_patterns(&t, &p.multipliers, s.clock.instant, &mut table, &mut lists);
    lists.state()
}
