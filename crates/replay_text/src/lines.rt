// A whole line.
ghost use Rattle.std.specs.Prelude.{◌≡◌, ◌+◌, ◌≤◌, min, length};
ghost use Rattle.listing.specs.Text.{pasted};
ghost use Rattle.replay_text.specs.Lines.{state_text, start_line, call_line, written, size};

use crate::answers::put_answer;
use crate::words::{put_links, put_nodes, put_word};
use listing::put_text;
use model::*;

// 27 bytes of an answer, 35 of instant, count and the line's end, and 51 of each of 256 nodes and 384 links.
const LONGEST_LINE: usize = 32702;

// Instant and count, then nodes and links, and the line's end.
#[tactic(auto, using(crate::proofs::Pieces::word_length, crate::proofs::Pieces::nodes_length, crate::proofs::Pieces::links_length))]
fn put_state(out: &mut [u8], at: usize, counts: Counts, s: &State) -> usize
    requires { at + 32675 ≤ length out.old }
    ensures value { result ≡ at + length (state_text counts s.now) }
    ensures out_after { out.new ≡ pasted out.old at (state_text counts s.now) }
{
    let nodes = counts.nodes.min(256);
    let links = counts.links.min(384);
    let i = put_word(out, at, s.clock.instant as u64);
    let j = put_word(out, i, s.clock.count as u64);
    let k = put_nodes(out, j, nodes, s);
    let l = put_links(out, k, links, s);
    put_text(out, l, b"\n")
}

// The line of the start.
#[tactic(auto, using(crate::proofs::Pieces::pasted_both, crate::proofs::Pieces::state_short))]
pub fn put_start_line(out: &mut [u8], counts: Counts, s: &State) -> usize
    ensures value { result ≡ size out.old (start_line counts s.now) }
    ensures out_after { out.new ≡ written out.old (start_line counts s.now) }
{
    if out.len() < LONGEST_LINE {
        return 0;
    }
    let at = put_text(out, 0, b"start ok");
    put_state(out, at, counts, s)
}

// The line of a call: its code, the number of its refusal or 0, a step's length, a truth, and the state after it.
// kept: the code, the number and the values beside it are as list_call::first_call takes and answers them.
#[tactic(auto, using(crate::proofs::Pieces::pasted_both, crate::proofs::Pieces::answer_short, crate::proofs::Pieces::state_short))]
pub fn put_call_line(
    out: &mut [u8],
    code: u32,
    number: u32,
    seconds: u32,
    truth: bool,
    counts: Counts,
    s: &State,
) -> usize
    ensures value { result ≡ size out.old (call_line code number seconds truth counts s.now) }
    ensures out_after { out.new ≡ written out.old (call_line code number seconds truth counts s.now) }
{
    if out.len() < LONGEST_LINE {
        return 0;
    }
    let at = put_answer(out, 0, code, number, seconds, truth);
    put_state(out, at, counts, s)
}
