// Nodes picked out of a table.
ghost use Rattle.std.specs.Prelude.{◌≡◌, ◌≤◌, Bool, get_or};
ghost use Rattle.model.specs.Blank.{blank_node};
ghost use Rattle.model.specs.declared.node.Node.{Node};
ghost use Rattle.run_tables.specs.Held.{Pushed, TanksInside};

use model::*;

// Nodes of a table; what stands past the count is free.
#[repr(C)]
#[derive(Clone, Copy)]
pub struct NodeList {
    pub count: usize,
    pub nodes: [u32; 256],
    pub ghost inside: { TanksInside nodes count },
}

// Those of the first n nodes of a table of which a test holds. An index is pushed without a branch: it is written at the count, which moves on where the
// test holds.
pub fn nodes_where<F: Fn(Node) -> bool>(table: &[Node; 256], n: usize, test: F) -> NodeList
    ghost holds: { Node → Bool }
    requires few { n ≤ 256 }
    requires callable { F.IsAlwaysCallable test }
    requires tests { (x : Node) (b : Bool) → F.post test x b → b ≡ holds x }
    ensures { Pushed (λ i. holds (get_or table.now i blank_node)) n result.nodes result.count }
{
    let mut nodes = [0; 256];
    let mut count = 0;
    for i in 0..n {
        nodes[count] = i as u32;
        count += usize::from(test(table[i]));
    }
    NodeList { count, nodes }
}
