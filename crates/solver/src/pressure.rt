// `apply_pressure_controls`.
ghost use Rattle.std.specs.Prelude.{◌≡◌};
ghost use Rattle.tables.specs.Fit.{TablesFit};
ghost use Rattle.solver.specs.Pressure.{apply_pressure_controls};

use control::watched;
use model::*;
use state_link::press;

// The state after the pass, and whether it changed anything.
#[derive(Clone, Copy)]
pub struct Pressed {
    pub state: State,
    pub changed: bool,
}

pub fn apply_pressure_controls(p: Project, s: State) -> Pressed
    requires { TablesFit p }
    ensures { result ≡ apply_pressure_controls p s }
{
    let mut st = s;
    let mut changed = false;
    let n = p.counts.controls;
    for i in 0..n {
        let c = p.controls[i];
        let w = watched(c.condition);
        let l = c.link;
        let done = press(changed, c, p.nodes[w], st.nodes[w], p.links[l], st.links[l]);
        st.links[l] = done.state;
        changed = done.changed;
    }
    Pressed { state: st, changed }
}
