// The demands in use.
ghost use Rattle.std.specs.Prelude.{◌≡◌, ◌≤◌, length};
ghost use Rattle.model.specs.declared.node.Demand.{Demand};
ghost use Rattle.run_sources.specs.Sources.{listed, demands_in, no_demand, four, DemandsInside, DemandsLaid};

use crate::places::place_of;
use model::*;

// Node i has counts[i] demands; demand j of it stands at 4 * i + j: its base, and the place of its pattern.
// kept: bases and patterns in arrays of their own, as `demands_filled` and the theorem `demand_is` have them.
#[repr(C)]
#[derive(Clone, Copy)]
pub struct DemandTable {
    pub count: usize,
    pub counts: [u32; 256],
    pub bases: [f64; 1024],
    pub patterns: [u32; 1024],
    pub ghost inside: { DemandsInside counts patterns count },
}

// Those of a junction that is not disabled.
fn demands_of(node: Node) -> Demands
    ensures { listed result ≡ demands_in node.kind }
{
    match node.kind {
        NodeType::Junction(
            Junction {
                disabled: false,
                demands,
                ..
            },
        ) => demands,
        _ => Demands::NoDemand,
    }
}

// What stands past a node's demands.
fn no_demand() -> Demand
    ensures { result ≡ no_demand }
{
    Demand {
        base: 0.0 / 0.0,
        pattern: None,
    }
}

// A node's demands as its four entries, and how many they are.
fn four_of(demands: Demands) -> ([Demand; 4], u32)
    ensures entries { result.0 ≡ four (λ (d : Demand). d) (listed demands) }
    ensures many { result.1 ≡ length (listed demands) }
{
    let no = no_demand();
    match demands {
        Demands::NoDemand => ([no, no, no, no], 0),
        Demands::One(a) => ([a, no, no, no], 1),
        Demands::Two(a, b) => ([a, b, no, no], 2),
        Demands::Three(a, b, c) => ([a, b, c, no], 3),
        Demands::Four(a, b, c, d) => ([a, b, c, d], 4),
    }
}

// The demands of the first n nodes, the default pattern put in where they name none.
pub fn demand_table(nodes: &[Node; 256], n: usize, default: Option<usize>) -> DemandTable
    requires { n ≤ 256 }
    ensures count_is { result.count ≡ n }
    ensures laid { DemandsLaid nodes.now n default result.counts result.bases result.patterns }
{
    let mut counts = [0; 256];
    let mut bases = [0.0; 1024];
    let mut patterns = [0; 1024];
    for i in 0..n {
        let (entries, many) = four_of(demands_of(nodes[i]));
        counts[i] = many;
        for (j, d) in entries.iter().enumerate() {
            bases[4 * i + j] = d.base;
            patterns[4 * i + j] = place_of(d.pattern.or(default));
        }
    }
    DemandTable {
        count: n,
        counts,
        bases,
        patterns,
    }
}
