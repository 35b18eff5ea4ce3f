// What a call answered.
ghost use Rattle.std.specs.Prelude.{◌≡◌, ◌+◌, ◌≤◌, length};
ghost use Rattle.listing.specs.Text.{pasted};
ghost use Rattle.replay_text.specs.Lines.{name_text, truth_text, given_text, refused_text, answer_text};

use listing::{put_decimal, put_text};

// The name of a call by its code.
#[tactic(auto, unfolding(crate::specs::Lines::name_text))]
fn put_name(out: &mut [u8], at: usize, code: u32) -> usize
    requires { at + 9 ≤ length out.old }
    ensures value { result ≡ at + length (name_text code) }
    ensures out_after { out.new ≡ pasted out.old at (name_text code) }
{
    match code {
        1 => put_text(out, at, b"patterns "),
        2 => put_text(out, at, b"controls "),
        3 => put_text(out, at, b"load "),
        4 | 9 => put_text(out, at, b"close "),
        5 => put_text(out, at, b"pressure "),
        6 => put_text(out, at, b"premise "),
        7 => put_text(out, at, b"step "),
        _ => put_text(out, at, b"slow "),
    }
}

#[tactic(auto, unfolding(crate::specs::Lines::truth_text))]
fn put_truth(out: &mut [u8], at: usize, b: bool) -> usize
    requires { at + 5 ≤ length out.old }
    ensures value { result ≡ at + length (truth_text b) }
    ensures out_after { out.new ≡ pasted out.old at (truth_text b) }
{
    if b {
        put_text(out, at, b"true")
    } else {
        put_text(out, at, b"false")
    }
}

// What a call that was not refused gives: a length, a truth, or that it is done.
#[tactic(auto, using(crate::proofs::Pieces::decimal_short, crate::proofs::Pieces::truth_short), unfolding(crate::specs::Lines::given_text))]
fn put_given(out: &mut [u8], at: usize, code: u32, seconds: u32, truth: bool) -> usize
    requires { at + 10 ≤ length out.old }
    ensures value { result ≡ at + length (given_text code seconds truth) }
    ensures out_after { out.new ≡ pasted out.old at (given_text code seconds truth) }
{
    match code {
        7 | 8 => put_decimal(out, at, seconds),
        5 | 6 => put_truth(out, at, truth),
        _ => put_text(out, at, b"ok"),
    }
}

#[tactic(auto, using(crate::proofs::Pieces::pasted_both, crate::proofs::Pieces::decimal_short), unfolding(crate::specs::Lines::refused_text))]
fn put_refused(out: &mut [u8], at: usize, number: u32) -> usize
    requires { at + 18 ≤ length out.old }
    ensures value { result ≡ at + length (refused_text number) }
    ensures out_after { out.new ≡ pasted out.old at (refused_text number) }
{
    let i = put_text(out, at, b"refused=");
    put_decimal(out, i, number)
}

// The name of a call and what it answered.
#[tactic(auto, using(crate::proofs::Pieces::pasted_both, crate::proofs::Pieces::name_short), unfolding(crate::specs::Lines::answer_text))]
pub fn put_answer(
    out: &mut [u8],
    at: usize,
    code: u32,
    number: u32,
    seconds: u32,
    truth: bool,
) -> usize
    requires { at + 27 ≤ length out.old }
    ensures value { result ≡ at + length (answer_text code number seconds truth) }
    ensures out_after { out.new ≡ pasted out.old at (answer_text code number seconds truth) }
{
    let i = put_name(out, at, code);
    if number == 0 {
        put_given(out, i, code, seconds, truth)
    } else {
        put_refused(out, i, number)
    }
}
