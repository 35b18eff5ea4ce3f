// A state in words: 16 hexadecimal digits each, with a space before them.
ghost use Rattle.std.specs.Prelude.{◌≡◌, ◌+◌, ◌*◌, ◌≤◌, length};
ghost use Rattle.listing.specs.Text.{pasted};
ghost use Rattle.replay_text.specs.Lines.{word_text, number_text, node_text, link_text, nodes_text, links_text};

use listing::put_hex;
use model::*;

#[tactic(auto, using(crate::proofs::Pieces::word_length), unfolding(crate::specs::Lines::word_text))]
pub fn put_word(out: &mut [u8], at: usize, w: u64) -> usize
    requires { at + 17 ≤ length out.old }
    ensures value { result ≡ at + length (word_text w) }
    ensures out_after { out.new ≡ pasted out.old at (word_text w) }
{
    put_hex(
        out,
        at,
        (w % 0x1_0000_0000) as u32,
        (w / 0x1_0000_0000) as u32,
    )
}

#[tactic(auto, unfolding(crate::specs::Lines::number_text))]
fn put_number(out: &mut [u8], at: usize, x: f64) -> usize
    requires { at + 17 ≤ length out.old }
    ensures value { result ≡ at + length (number_text x) }
    ensures out_after { out.new ≡ pasted out.old at (number_text x) }
{
    put_word(out, at, number::to_bits(x))
}

#[tactic(auto, using(crate::proofs::Pieces::pasted_three, crate::proofs::Pieces::number_length), unfolding(crate::specs::Lines::node_text))]
fn put_node(out: &mut [u8], at: usize, x: NodeState) -> usize
    requires { at + 51 ≤ length out.old }
    ensures value { result ≡ at + length (node_text x) }
    ensures out_after { out.new ≡ pasted out.old at (node_text x) }
{
    let i = put_number(out, at, x.head);
    let j = put_number(out, i, x.demand);
    put_number(out, j, x.demand_flow)
}

#[tactic(auto, using(crate::proofs::Pieces::pasted_three, crate::proofs::Pieces::number_length, crate::proofs::Pieces::word_length), unfolding(crate::specs::Lines::link_text))]
fn put_link(out: &mut [u8], at: usize, x: LinkState) -> usize
    requires { at + 51 ≤ length out.old }
    ensures value { result ≡ at + length (link_text x) }
    ensures out_after { out.new ≡ pasted out.old at (link_text x) }
{
    let i = put_number(out, at, x.flow);
    let j = put_word(out, i, x.status as u64);
    put_number(out, j, x.setting)
}

// The first n nodes.
pub fn put_nodes(out: &mut [u8], at: usize, n: usize, s: &State) -> usize
    requires n_bound { n ≤ 256 }
    requires n_in_bounds { at + n * 51 ≤ length out.old }
    ensures value { result ≡ at + length (nodes_text n s.now) }
    ensures out_after { out.new ≡ pasted out.old at (nodes_text n s.now) }
{
    let mut o = at;
    for i in 0..n {
        o = put_node(out, o, s.nodes[i]);
    }
    o
}

// The first n links.
pub fn put_links(out: &mut [u8], at: usize, n: usize, s: &State) -> usize
    requires n_bound { n ≤ 384 }
    requires n_in_bounds { at + n * 51 ≤ length out.old }
    ensures value { result ≡ at + length (links_text n s.now) }
    ensures out_after { out.new ≡ pasted out.old at (links_text n s.now) }
{
    let mut o = at;
    for i in 0..n {
        o = put_link(out, o, s.links[i]);
    }
    o
}
