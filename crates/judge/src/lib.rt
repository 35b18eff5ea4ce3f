#![tactic(auto)]
// Number 10: what every later call asks first of the tables and the state that it is handed.
ghost use Rattle.std.specs.Prelude.{◌≡◌, ◌&&◌};
ghost use Rattle.std.specs.List.{list_all};
ghost use Rattle.model.specs.Loops.{all_below};
ghost use Rattle.tables.specs.Tables.{Few};
ghost use Rattle.judge.specs.Judgement.{node_state_ok, link_state_ok, state_clock_ok, node_state_ok_at, link_state_ok_at, in_order};

use clock::Clock;
use model::*;
use number::within;
use table_ranges::status_ok;
use tables::tables_ok;

fn node_state_ok(x: NodeState) -> bool
    ensures { result ≡ node_state_ok x }
{
    within(1000000000000.0, x.head)
        & within(100000000000000000000.0, x.demand)
        & within(100000000000000000000.0, x.demand_flow)
}

fn link_state_ok(x: LinkState) -> bool
    ensures { result ≡ link_state_ok x }
{
    within(1000000000000.0, x.flow) & status_ok(x.status) & within(1000000.0, x.setting)
}

#[tactic(auto, unfolding(crate::specs::Judgement::state_clock_ok))]
fn state_clock_ok(duration: u32, c: Clock) -> bool
    ensures { result ≡ state_clock_ok duration c }
{
    (c.instant <= duration) & (c.count <= c.instant)
}

fn node_states_ok(nodes: &[NodeState]) -> bool
    ensures { result ≡ list_all node_state_ok nodes.now }
{
    nodes.iter().all(|x| node_state_ok(*x))
}

fn link_states_ok(links: &[LinkState]) -> bool
    ensures { result ≡ list_all link_state_ok links.now }
{
    links.iter().all(|x| link_state_ok(*x))
}

// The state's part of number 10, behind the tables'.
pub fn state_ok(duration: u32, counts: Counts, s: State) -> bool
    requires { Few counts }
    ensures { result ≡ state_clock_ok duration s.clock && all_below counts.nodes (node_state_ok_at s) && all_below counts.links (link_state_ok_at s) }
{
    state_clock_ok(duration, s.clock)
        & node_states_ok(&s.nodes[..counts.nodes])
        & link_states_ok(&s.links[..counts.links])
}

// Whether tables and state break nothing that number 10 asks.
pub fn in_order(p: Project, s: State) -> bool
    ensures { result ≡ in_order p s }
{
    if !tables_ok(p) {
        return false;
    }
    state_ok(p.options.duration, p.counts, s)
}
