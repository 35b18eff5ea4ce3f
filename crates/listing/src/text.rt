// Bytes put into a buffer.
ghost use Rattle.std.specs.Prelude.{◌≡◌, ◌+◌, ◌≤◌, ◌<◌, leb, length, [], ◌∷◌};
ghost use Rattle.listing.specs.Text.{pasted, put, after};

// Whether a buffer of len bytes has room for n of them from at on.
pub fn has_room(len: usize, at: usize, n: usize) -> bool
    ensures { result ≡ leb (at + n) len }
{
    n <= len && at <= len - n
}

// Writes one byte, and answers the position after it.
#[tactic(auto, using(crate::proofs::Pasting::pasted_byte))]
pub fn put_byte(buf: &mut [u8], at: usize, b: u8) -> usize
    requires { at < length buf.old }
    ensures value { result ≡ at + 1 }
    ensures buf_after { buf.new ≡ pasted buf.old at (b ∷ []) }
{
    buf[at] = b;
    at + 1
}

// Copies all of text from at on, and answers the position after it.
pub fn copy_text(buf: &mut [u8], at: usize, text: &[u8]) -> usize
    requires { at + length text.now ≤ length buf.old }
    ensures value { result ≡ at + length text.now }
    ensures buf_after { buf.new ≡ pasted buf.old at text.now }
{
    let end = at + text.len();
    buf[at..end].copy_from_slice(text);
    end
}

// Any text.
pub fn put_text(buf: &mut [u8], at: usize, text: &[u8]) -> usize
    ensures value { result ≡ after buf.old at text.now }
    ensures buf_after { buf.new ≡ put buf.old at text.now }
{
    let n = text.len();
    if !has_room(buf.len(), at, n) {
        return at;
    }
    copy_text(buf, at, text)
}
