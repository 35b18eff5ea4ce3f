// `new_with_initial_values`, from the tables of nodes and links.
ghost use Rattle.std.specs.Prelude.{◌≡◌, ◌≤◌};
ghost use Rattle.tables.specs.Fit.{TablesFit};
ghost use Rattle.state.specs.Start.{new_with_initial_values};
ghost use Rattle.state.specs.Starting.{start_from};

use model::*;
use state_link::start_link;
use state_node::start_node;

// The state at the start, of so many nodes and links.
pub fn start_from(nodes: &[Node; 256], n: usize, links: &[Link; 384], m: usize) -> State
    requires { (n ≤ 256) × (m ≤ 384) }
    ensures { result ≡ start_from nodes.now n links.now m }
{
    let mut s = State::blank();
    for i in 0..n {
        s.nodes[i] = start_node(nodes[i]);
    }
    for j in 0..m {
        s.links[j] = start_link(links[j]);
    }
    s
}

pub fn new_with_initial_values(p: Project) -> State
    requires { TablesFit p }
    ensures { result ≡ new_with_initial_values p }
{
    start_from(&p.nodes, p.counts.nodes, &p.links, p.counts.links)
}
