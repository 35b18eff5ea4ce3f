#![tactic(auto)]
// A state as arrays of numbers, which the passes of a run read and write in place, and back.
ghost use Rattle.std.specs.Prelude.{◌≡◌};
ghost use Rattle.run_state.specs.Lists.{lists_of, links_listed, nodes_listed, NodesHold, LinksHold};

use clock::Clock;
use model::*;

// Of the links.
#[repr(C)]
#[derive(Clone, Copy)]
pub struct Links {
    pub flows: [f64; 384],
    pub statuses: [u32; 384],
    pub settings: [f64; 384],
}

// Of a state: what its nodes and its links hold, and its clock.
#[repr(C)]
#[derive(Clone, Copy)]
pub struct Lists {
    pub heads: [f64; 256],
    pub demands: [f64; 256],
    pub demand_flows: [f64; 256],
    pub links: Links,
    pub clock: Clock,
}

// The lists of a table of links.
fn links_of(table: &[LinkState; 384]) -> Links
    ensures { result ≡ links_listed table.now }
{
    let mut links = Links {
        flows: [0.0; 384],
        statuses: [0; 384],
        settings: [0.0; 384],
    };
    for (i, x) in table.iter().enumerate() {
        links.flows[i] = x.flow;
        links.statuses[i] = x.status;
        links.settings[i] = x.setting;
    }
    links
}

// The lists of a table of nodes, with those of the links.
fn nodes_listed(table: &[NodeState; 256], links: Links, clock: Clock) -> Lists
    ensures { result ≡ nodes_listed table.now links clock }
{
    let mut lists = Lists {
        heads: [0.0; 256],
        demands: [0.0; 256],
        demand_flows: [0.0; 256],
        links,
        clock,
    };
    for (i, x) in table.iter().enumerate() {
        lists.heads[i] = x.head;
        lists.demands[i] = x.demand;
        lists.demand_flows[i] = x.demand_flow;
    }
    lists
}

impl Lists {
    pub fn of(s: &State) -> Lists
        ensures { result ≡ lists_of s.now }
    {
        nodes_listed(&s.nodes, links_of(&s.links), s.clock)
    }

    fn node_states(&self) -> [NodeState; 256]
        ensures { NodesHold result self.now.heads self.now.demands self.now.demand_flows }
    {
        let mut out = State::blank().nodes;
        for i in 0..256 {
            out[i] = NodeState {
                head: self.heads[i],
                demand: self.demands[i],
                demand_flow: self.demand_flows[i],
            };
        }
        out
    }

    fn link_states(&self) -> [LinkState; 384]
        ensures { LinksHold result self.now.links.flows self.now.links.statuses self.now.links.settings }
    {
        let mut out = State::blank().links;
        for i in 0..384 {
            out[i] = LinkState {
                flow: self.links.flows[i],
                status: self.links.statuses[i],
                setting: self.links.settings[i],
            };
        }
        out
    }

    // The state that has these.
    pub fn state(&self) -> State
        ensures { lists_of result ≡ self.now }
    {
        State {
            nodes: self.node_states(),
            links: self.link_states(),
            clock: self.clock,
        }
    }
}
