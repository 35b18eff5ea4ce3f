// One word of the state changed.
use crate::change::Change;
use model::{LinkState, NodeState, State};

fn changed_node(n: NodeState, c: Change) -> NodeState {
    NodeState {
        head: c.number(2, n.head),
        demand: c.number(3, n.demand),
        demand_flow: c.number(4, n.demand_flow),
    }
}

fn changed_link(l: LinkState, c: Change) -> LinkState {
    LinkState {
        flow: c.number(5, l.flow),
        status: c.word(6, l.status),
        setting: c.number(7, l.setting),
    }
}

pub fn changed_state(s: State, c: Change) -> State {
    let mut t = s;
    t.clock.instant = c.word(0, t.clock.instant);
    t.clock.count = c.word(1, t.clock.count);
    let node = c.index % 256;
    t.nodes[node] = changed_node(t.nodes[node], c);
    let link = c.index % 384;
    t.links[link] = changed_link(t.links[link], c);
    t
}
