// A 64-bit word in hexadecimal.
ghost use Rattle.std.specs.Prelude.{◌≡◌, ◌+◌, ◌≤◌, ◌<◌, length};
ghost use Rattle.listing.specs.Text.{pasted, put, after};
ghost use Rattle.listing.specs.Numbers.{hex_digit, hex_digits, hex_text};

use crate::text::{has_room, put_byte};

// The byte of a digit.
#[tactic(auto, unfolding(crate::specs::Numbers::hex_digit))]
fn hex_digit(d: u32) -> u8
    requires { d < 16 }
    ensures { result ≡ hex_digit d }
{
    if d < 10 { 48 + d as u8 } else { 87 + d as u8 }
}

// Writes the eight digits of n from at on, the last one first, and answers the position after them.
fn spell_hex(buf: &mut [u8], at: usize, n: u32) -> usize
    requires { at + 8 ≤ length buf.old }
    ensures value { result ≡ at + length (hex_digits 8 n) }
    ensures buf_after { buf.new ≡ pasted buf.old at (hex_digits 8 n) }
{
    let mut rest = n;
    for i in (at..at + 8).rev() {
        buf[i] = hex_digit(rest % 16);
        rest /= 16;
    }
    at + 8
}

// A space, and the word whose halves are low and high.
#[tactic(auto, using(crate::proofs::HexDigits::hex_length))]
pub fn put_hex(buf: &mut [u8], at: usize, low: u32, high: u32) -> usize
    ensures value { result ≡ after buf.old at (hex_text low high) }
    ensures buf_after { buf.new ≡ put buf.old at (hex_text low high) }
{
    if !has_room(buf.len(), at, 17) {
        return at;
    }
    let i = put_byte(buf, at, b' ');
    let j = spell_hex(buf, i, high);
    spell_hex(buf, j, low)
}
