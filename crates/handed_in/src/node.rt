// One word of a node changed.
use crate::change::Change;
use model::{Demand, Demands, Junction, Node, NodeType, Reservoir};
use tank::{Feet, Tank};

fn changed_reservoir(r: Reservoir, c: Change) -> Reservoir {
    Reservoir {
        elevation: c.number(25, r.elevation),
        head_pattern: c.pattern(26, r.head_pattern),
    }
}

fn changed_tank(t: Tank, c: Change) -> Tank {
    Tank {
        elevation: Feet(c.number(25, t.elevation.0)),
        initial_level: Feet(c.number(27, t.initial_level.0)),
        min_level: Feet(c.number(28, t.min_level.0)),
        max_level: Feet(c.number(29, t.max_level.0)),
        diameter: Feet(c.number(30, t.diameter.0)),
        overflow: c.flag(31, t.overflow),
    }
}

// The codes of demand k: 33 + k its base demand, 37 + k its pattern.
fn changed_demand(d: Demand, base: u32, pattern: u32, c: Change) -> Demand {
    Demand {
        base: c.number(base, d.base),
        pattern: c.pattern(pattern, d.pattern),
    }
}

// Only a junction with four demands has them changed.
fn changed_demands(demands: Demands, x: Change) -> Demands {
    match demands {
        Demands::Four(a, b, c, d) => Demands::Four(
            changed_demand(a, 33, 37, x),
            changed_demand(b, 34, 38, x),
            changed_demand(c, 35, 39, x),
            changed_demand(d, 36, 40, x),
        ),
        _ => demands,
    }
}

fn changed_junction(j: Junction, c: Change) -> Junction {
    Junction {
        disabled: c.flag(32, j.disabled),
        elevation: c.number(25, j.elevation),
        demands: changed_demands(j.demands, c),
    }
}

fn changed_kind(kind: NodeType, c: Change) -> NodeType {
    match kind {
        NodeType::Reservoir(r) => NodeType::Reservoir(changed_reservoir(r, c)),
        NodeType::Tank(t) => NodeType::Tank(changed_tank(t, c)),
        NodeType::Junction(j) => NodeType::Junction(changed_junction(j, c)),
    }
}

pub fn changed_node(n: Node, c: Change) -> Node {
    Node {
        kind: changed_kind(n.kind, c),
    }
}
