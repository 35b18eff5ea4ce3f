// The tanks of a table of nodes: where they stand, in node order, and their own numbers.
ghost use Rattle.std.specs.Prelude.{◌≡◌, true, [], ◌∷◌, ◌*◌, ◌≤◌, ◌<◌};
ghost use Rattle.model.specs.Nodes.{is_tank};
ghost use Rattle.model.specs.declared.node.NodeType.TheVariants as types;
ghost use Rattle.run_tables.specs.Blocks.{block};
ghost use Rattle.run_tables.specs.Held.{Pushed, TanksLaid};
ghost use Rattle.run_tables.specs.Rows.{tank_at};
ghost use Rattle.run_tables.specs.Tanks.{tank_in};

use crate::nodes::{NodeList, nodes_where};
use crate::rows::tank_at;
use model::*;
use tank::{Feet, Tank};

// Tank k stands at node at.nodes[k]; its numbers are the five from 5 * k on: elevation, initial, least and greatest level, diameter; overflows[k] is 1
// where it may overflow, else 0.
// kept: numbers and overflows in arrays of their own, as `tank_at` and the edits `row_of_six`, `row_greatest` and `table_least` have them.
#[repr(C)]
#[derive(Clone, Copy)]
pub struct TankTable {
    pub at: NodeList,
    pub numbers: [f64; 1280],
    pub overflows: [u32; 256],
}

impl TankTable {
    // Tank k.
    pub fn tank(&self, k: usize) -> Tank
        requires { k < 256 }
        ensures { result ≡ tank_at self.now.numbers self.now.overflows k }
    {
        tank_at(&self.numbers, &self.overflows, k)
    }
}

// The tanks among the first n nodes.
pub fn tank_nodes(table: &[Node; 256], n: usize) -> NodeList
    requires { n ≤ 256 }
    ensures { Pushed (tank_in table.now) n result.nodes result.count }
{
    nodes_where(table, n, |x| x.is_tank())
}

fn no_tank() -> Tank {
    Tank {
        elevation: Feet(0.0),
        initial_level: Feet(0.0),
        min_level: Feet(0.0),
        max_level: Feet(0.0),
        diameter: Feet(0.0),
        overflow: false,
    }
}

// The tank that a node is.
fn tank_of(node: Node) -> Tank
    requires { is_tank node ≡ true }
    ensures { node.kind ≡ types.Tank result }
{
    let kind = node.kind;
    match kind {
        NodeType::Reservoir(_) => no_tank(),
        NodeType::Tank(t) => t,
        NodeType::Junction(_) => no_tank(),
    }
}

// A tank's numbers, written as its row.
fn put_tank(numbers: &mut [f64; 1280], k: usize, t: Tank)
    requires { k < 256 }
    ensures { numbers.new ≡ block numbers.old (5 * k) (t.elevation.0 ∷ t.initial_level.0 ∷ t.min_level.0 ∷ t.max_level.0 ∷ t.diameter.0 ∷ []) }
{
    numbers[5 * k] = t.elevation.0;
    numbers[5 * k + 1] = t.initial_level.0;
    numbers[5 * k + 2] = t.min_level.0;
    numbers[5 * k + 3] = t.max_level.0;
    numbers[5 * k + 4] = t.diameter.0;
}

// The same, with the numbers of each.
pub fn tank_table(table: &[Node; 256], n: usize) -> TankTable
    requires { n ≤ 256 }
    ensures { TanksLaid table.now n result.at.nodes result.numbers result.overflows result.at.count }
{
    let at = tank_nodes(table, n);
    let mut numbers = [0.0; 1280];
    let mut overflows = [0; 256];
    for k in 0..at.count {
        let j = at.nodes[k] as usize;
        let tank = tank_of(table[j]);
        put_tank(&mut numbers, k, tank);
        overflows[k] = u32::from(tank.overflow);
    }
    TankTable {
        at,
        numbers,
        overflows,
    }
}
