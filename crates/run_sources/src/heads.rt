// The reservoirs with a pattern, in node order.
ghost use Rattle.std.specs.Prelude.{◌≡◌, ◌≤◌};
ghost use Rattle.run_sources.specs.Sources.{head_pattern_of, HeadsInside, HeadsLaid};

use crate::places::place_of;
use model::*;
use run_tables::{NodeList, nodes_where};

// Reservoir r of them stands at node at.nodes[r]: its elevation, and the place of its pattern.
// kept: elevations and patterns in arrays of their own, as `heads_filled` and the theorem `fill_heads_is` have them.
#[repr(C)]
#[derive(Clone, Copy)]
pub struct HeadTable {
    pub at: NodeList,
    pub elevations: [f64; 256],
    pub patterns: [u32; 256],
    pub ghost inside: { HeadsInside at.nodes patterns at.count },
}

// The pattern of a reservoir.
fn head_pattern(node: Node) -> Option<usize>
    ensures { result ≡ head_pattern_of node.kind }
{
    match node.kind {
        NodeType::Reservoir(r) => r.head_pattern,
        _ => None,
    }
}

// Those among the first n nodes.
pub fn head_table(nodes: &[Node; 256], n: usize) -> HeadTable
    requires { n ≤ 256 }
    ensures { HeadsLaid nodes.now n result.at.nodes result.elevations result.patterns result.at.count }
{
    let at = nodes_where(nodes, n, |x| head_pattern(x).is_some());
    let mut elevations = [0.0; 256];
    let mut patterns = [0; 256];
    for r in 0..at.count {
        let node = nodes[at.nodes[r] as usize];
        elevations[r] = node.elevation();
        patterns[r] = place_of(head_pattern(node));
    }
    HeadTable {
        at,
        elevations,
        patterns,
    }
}
