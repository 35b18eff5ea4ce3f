// `update_tank_links` by the table of the tanks' links. Statuses and demands depend on heads and flows alone, so each has a pass of its own. Only
// tanks are visited, and of the links only those at them.
ghost use Rattle.std.specs.Prelude.{ℕ, ◌≡◌, ◌<◌, length, get_or};
ghost use Rattle.model.specs.Loops.{through};
ghost use Rattle.run_closing.specs.Closing.{GroupsInside, marked, link_marked, links_closed, demands_summed};

use model::TEMP_CLOSED;
use run_tables::{NodeList, TankTable};
use state_link::{empty_closed, fill_closed};
use tank_links::LinkGroups;

// A link's status: closed where it flows forward and may not, or backward and may not.
fn marked(forward: bool, backward: bool, flow: f64, status: u32) -> u32
    ensures { result ≡ marked forward backward flow status }
{
    if (forward & (0.0 < flow)) | (backward & (flow < 0.0)) {
        return TEMP_CLOSED;
    }
    status
}

// The statuses of some links.
fn close_part(
    links: &[u32],
    flows: &[f64; 384],
    forward: bool,
    backward: bool,
    statuses: &mut [u32; 384],
)
    requires { (i : ℕ) → i < length links.now → get_or links.now i 0 < 384 }
    ensures { statuses.new ≡ through (length links.now) (λ i. link_marked flows.now forward backward (get_or links.now i 0)) statuses.old }
{
    for link in links {
        let l = *link as usize;
        statuses[l] = marked(forward, backward, flows[l], statuses[l]);
    }
}

// Every tank's links.
pub fn close_links(
    t: &TankTable,
    g: &LinkGroups,
    heads: &[f64; 256],
    flows: &[f64; 384],
    statuses: &mut [u32; 384],
)
    requires { GroupsInside g.now.begins g.now.middles g.now.links t.now.at.count }
    ensures { statuses.new ≡ links_closed t.now.at.nodes t.now.numbers t.now.overflows g.now.begins g.now.middles g.now.links t.now.at.count heads.now flows.now statuses.old }
{
    for k in 0..t.at.count {
        let head = heads[t.at.nodes[k] as usize];
        let tank = t.tank(k);
        let full = fill_closed(tank, head);
        let empty = empty_closed(tank, head);
        let middle = g.middles[k] as usize;
        let into = &g.links[g.begins[k] as usize..middle];
        let out = &g.links[middle..g.begins[k + 1] as usize];
        close_part(into, flows, full, empty, statuses);
        close_part(out, flows, empty, full, statuses);
    }
}

// Every tank's demand: the flows into it first.
pub fn sum_demands(tanks: &NodeList, g: &LinkGroups, flows: &[f64; 384], demands: &mut [f64; 256])
    requires { GroupsInside g.now.begins g.now.middles g.now.links tanks.now.count }
    ensures { demands.new ≡ demands_summed tanks.now.nodes g.now.begins g.now.middles g.now.links tanks.now.count flows.now demands.old }
{
    for k in 0..tanks.count {
        let middle = g.middles[k] as usize;
        let mut sum = 0.0;
        for into in &g.links[g.begins[k] as usize..middle] {
            sum += flows[*into as usize];
        }
        for out in &g.links[middle..g.begins[k + 1] as usize] {
            sum -= flows[*out as usize];
        }
        demands[tanks.nodes[k] as usize] = sum;
    }
}
