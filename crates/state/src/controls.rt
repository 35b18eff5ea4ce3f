// `apply_controls`: the rows of the controls are laid out, and the pass runs over the state's lists.
ghost use Rattle.std.specs.Prelude.{◌≡◌};
ghost use Rattle.tables.specs.Fit.{TablesFit};
ghost use Rattle.state.specs.Controls.{apply_controls};

use clock::clock_time;
use model::*;
use run_rows::control_table;
use run_state::Lists;

pub fn apply_controls(p: Project, s: State) -> State
    requires { TablesFit p }
    ensures { result ≡ apply_controls p s }
{
    let t = control_table(&p.controls, p.counts.controls, &p.nodes, &p.links);
    let time = s.clock.instant;
    let hour = clock_time(p.options.start_clock, time);
    let mut lists = Lists::of(&s);
    run_controls::apply_controls(&t, &lists.heads, time, hour, &mut lists.links);
    lists.state()
}
