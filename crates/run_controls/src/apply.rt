// `apply_controls` over the rows of the controls.
ghost use Rattle.std.specs.Prelude.{◌≡◌};
ghost use Rattle.run_controls.specs.Apply.{is_due, acted, links_after};

use model::LinkState;
use number::constants::L_TOL;
use run_rows::{ControlTable, Row};
use run_state::Links;

// Whether a control acts, from the head that it watches.
#[tactic(auto, unfolding(crate::specs::Apply::due_by))]
fn is_due(r: Row, head: f64, time: u32, clock: u64) -> bool
    ensures { result ≡ is_due r head time clock }
{
    let above = head - r.elevation - r.target;
    match r.kind {
        1 => time != 0 && above >= -L_TOL,
        2 => time != 0 && above <= L_TOL,
        3 => r.seconds == time,
        4 => u64::from(r.seconds) == clock,
        _ => false,
    }
}

// What a control makes of its link's state.
#[tactic(auto, unfolding(crate::specs::Apply::acted))]
fn acted(on: bool, r: Row, x: LinkState) -> LinkState
    ensures { result ≡ acted on r x }
{
    if !on {
        return x;
    }
    match r.action {
        1 => LinkState {
            flow: r.flow,
            status: r.status,
            ..x
        },
        2 => LinkState {
            flow: r.flow,
            setting: r.setting,
            ..x
        },
        _ => x,
    }
}

// Every control in image order.
pub fn apply_controls(
    t: &ControlTable,
    heads: &[f64; 256],
    time: u32,
    clock: u64,
    links: &mut Links,
)
    ensures { links.new ≡ links_after t.now.words t.now.numbers t.now.count heads.now time clock links.old }
{
    for i in 0..t.count {
        let r = t.row(i);
        let l = r.link as usize;
        let x = LinkState {
            flow: links.flows[l],
            status: links.statuses[l],
            setting: links.settings[l],
        };
        let y = acted(is_due(r, heads[r.node as usize], time, clock), r, x);
        links.flows[l] = y.flow;
        links.statuses[l] = y.status;
        links.settings[l] = y.setting;
    }
}
