// A number in plain decimal.
ghost use Rattle.std.specs.Prelude.{◌≡◌, ◌+◌, ◌≤◌, length};
ghost use Rattle.listing.specs.Text.{pasted, put, after};
ghost use Rattle.listing.specs.Numbers.{decimal_text};

use crate::text::has_room;

// How many digits n has.
pub fn places(n: u32) -> usize
    ensures value { result ≡ length (decimal_text n) }
    ensures upper_bound { result ≤ 10 }
{
    let mut k = 1;
    let mut rest = n;
    while 10 <= rest {
        rest /= 10;
        k += 1;
    }
    k
}

// Writes the k digits of n from at on, the last one first, and answers the position after them.
pub fn spell(buf: &mut [u8], at: usize, n: u32, k: usize) -> usize
    requires k_value { k ≡ length (decimal_text n) }
    requires k_in_bounds { at + k ≤ length buf.old }
    ensures value { result ≡ at + length (decimal_text n) }
    ensures buf_after { buf.new ≡ pasted buf.old at (decimal_text n) }
{
    let mut i = at + k;
    let mut rest = n;
    while 10 <= rest {
        i -= 1;
        buf[i] = 48 + (rest % 10) as u8;
        rest /= 10;
    }
    buf[at] = 48 + rest as u8;
    at + k
}

// A number.
pub fn put_decimal(buf: &mut [u8], at: usize, n: u32) -> usize
    ensures value { result ≡ after buf.old at (decimal_text n) }
    ensures buf_after { buf.new ≡ put buf.old at (decimal_text n) }
{
    let k = places(n);
    if !has_room(buf.len(), at, k) {
        return at;
    }
    spell(buf, at, n, k)
}
