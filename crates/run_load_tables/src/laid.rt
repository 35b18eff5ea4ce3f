// What a load needs of the tables: the junctions, the ends of the links, and which nodes are tanks.
ghost use Rattle.std.specs.Prelude.{◌≡◌, ◌≤◌};
ghost use Rattle.run_tables.specs.Held.{Pushed};
ghost use Rattle.tank_links.specs.Laid.{EndsInside};
ghost use Rattle.run_load_tables.specs.Laid.{junction_in, EndsLaid, LoadLaid, MarksLaid};

use model::*;
use run_loads::LoadTable;
use run_tables::{NodeList, nodes_where};

// The junctions among the first n nodes.
fn junction_nodes(table: &[Node; 256], n: usize) -> NodeList
    requires { n ≤ 256 }
    ensures { Pushed (junction_in table.now) n result.nodes result.count }
{
    nodes_where(table, n, |x| x.is_junction())
}

// The nodes at which each of the first n links starts and ends.
fn link_ends(table: &[Link; 384], n: usize) -> ([u32; 384], [u32; 384])
    requires { EndsInside table.now n }
    ensures { EndsLaid table.now n result.0 result.1 }
{
    let mut starts = [0; 384];
    let mut ends = [0; 384];
    for i in 0..n {
        starts[i] = table[i].start as u32;
        ends[i] = table[i].end as u32;
    }
    (starts, ends)
}

// Which of the first n nodes are tanks.
fn tank_marks(table: &[Node; 256], n: usize) -> [u32; 256]
    requires { n ≤ 256 }
    ensures { MarksLaid table.now n result }
{
    let mut tanks = [0; 256];
    for i in 0..n {
        tanks[i] = u32::from(table[i].is_tank());
    }
    tanks
}

// Of the first n nodes and the first m links.
pub fn load_table(nodes: &[Node; 256], n: usize, links: &[Link; 384], m: usize) -> LoadTable
    requires few { n ≤ 256 }
    requires inside { EndsInside links.now m }
    ensures { LoadLaid nodes.now n links.now m result }
{
    let (starts, ends) = link_ends(links, m);
    LoadTable {
        links: m,
        junctions: junction_nodes(nodes, n),
        starts,
        ends,
        tanks: tank_marks(nodes, n),
    }
}
