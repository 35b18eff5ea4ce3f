// The lines of a listing.
ghost use Rattle.std.specs.Prelude.{◌≡◌, ◌+◌, ◌≤◌, length};
ghost use Rattle.listing.specs.Text.{put, after};
ghost use Rattle.listing.specs.Listing.{header, step_line, labelled, number_line, steps_line, refused_line};

use crate::decimal::{places, spell};
use crate::text::{copy_text, has_room, put_byte, put_text};

// The first line.
pub fn put_header(buf: &mut [u8], at: usize) -> usize
    ensures value { result ≡ after buf.old at header }
    ensures buf_after { buf.new ≡ put buf.old at header }
{
    put_text(buf, at, b"from length\n")
}

// The line of a step: its starting instant and its length in seconds.
#[tactic(auto, using(crate::proofs::Listing::step_length_lem))]
pub fn put_step_line(buf: &mut [u8], at: usize, from: u32, seconds: u32) -> usize
    ensures value { result ≡ after buf.old at (step_line from seconds) }
    ensures buf_after { buf.new ≡ put buf.old at (step_line from seconds) }
{
    let a = places(from);
    let b = places(seconds);
    let n = a + b + 2;
    if !has_room(buf.len(), at, n) {
        return at;
    }
    let i = spell(buf, at, from, a);
    let j = put_byte(buf, i, b' ');
    let k = spell(buf, j, seconds, b);
    put_byte(buf, k, b'\n')
}

// A label, a number and the line's end.
fn put_labelled(buf: &mut [u8], at: usize, label: &[u8], n: u32) -> usize
    requires { length label.now ≤ 8 }
    ensures value { result ≡ after buf.old at (labelled label.now n) }
    ensures buf_after { buf.new ≡ put buf.old at (labelled label.now n) }
{
    let a = label.len();
    let b = places(n);
    let m = a + b + 1;
    if !has_room(buf.len(), at, m) {
        return at;
    }
    let i = copy_text(buf, at, label);
    let j = spell(buf, i, n, b);
    put_byte(buf, j, b'\n')
}

// The line of a number alone.
pub fn put_number_line(buf: &mut [u8], at: usize, n: u32) -> usize
    ensures value { result ≡ after buf.old at (number_line n) }
    ensures buf_after { buf.new ≡ put buf.old at (number_line n) }
{
    put_labelled(buf, at, b"", n)
}

// The last line after n steps.
pub fn put_steps_line(buf: &mut [u8], at: usize, n: u32) -> usize
    ensures value { result ≡ after buf.old at (steps_line n) }
    ensures buf_after { buf.new ≡ put buf.old at (steps_line n) }
{
    put_labelled(buf, at, b"steps ", n)
}

// The line of fault n.
pub fn put_refused_line(buf: &mut [u8], at: usize, n: u32) -> usize
    ensures value { result ≡ after buf.old at (refused_line n) }
    ensures buf_after { buf.new ≡ put buf.old at (refused_line n) }
{
    put_labelled(buf, at, b"refused ", n)
}
