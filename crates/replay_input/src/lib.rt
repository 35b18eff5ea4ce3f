#![tactic(auto)]
// The words of an image and of a call, read from a reader. No contract can say what comes in; what is answered is held to the bytes that were read.
// A read that fails is the error of the function that made it, and the only one; what it leaves in a buffer of bytes is open.
ghost use Rattle.std.specs.Prelude.{◌+◌, ◌≤◌, ◌≡◌, true, length, IfOk, OnErr};
ghost use Rattle.replay_input.specs.Input.{Front, Taken};

use std::io;
use std::io::Read;

// The longest load has 1,281 words. Of a longer one as many stand for it as are enough to refuse it.
const LONGEST: u32 = 1282;

// Reads until the buffer is full or the input ends, and answers how many bytes it put at the start of it.
pub fn read_full<R: Read>(from: &mut R, buf: &mut [u8]) -> io::Result<usize>
    ensures { IfOk result (λ n. Front n buf.new) }
{
    let mut done = 0;
    while done < buf.len() {
        let n = from.read(&mut buf[done..])?;
        if n == 0 {
            return Ok(done);
        }
        done += n;
    }
    Ok(done)
}

// Reads n bytes to a place of the buffer, and answers whether they were there.
pub fn read_bytes<R: Read>(from: &mut R, bytes: &mut [u8], at: usize, n: usize) -> io::Result<bool>
    ensures { IfOk result (λ there. there ≡ true → at + n ≤ length bytes.old) }
{
    if bytes.len() < at || bytes.len() - at < n {
        return Ok(false);
    }
    let end = at + n;
    let got = read_full(from, &mut bytes[at..end])?;
    Ok(got == n)
}

// Reads a count of words and the words to the start of a table, and answers how many; 0 where the count is 0, over 16,384 or cut.
// kept: image::decode refuses 0 words, so 0 stands for all of these, and no caller asks which it was.
#[tactic(auto, using(crate::proofs::Taking::taken_none))]
pub fn read_image<R: Read>(from: &mut R, bytes: &mut [u8], table: &mut [u32]) -> io::Result<usize>
    ensures ok { IfOk result (λ n. Taken n bytes.new table.old table.new) }
    ensures err { OnErr result (table.new ≡ table.old) }
{
    if !read_bytes(from, bytes, 0, 4)? {
        return Ok(0);
    }
    let n = words::word_at(bytes, 0);
    if 16384 < n {
        return Ok(0);
    }
    if !read_bytes(from, bytes, 0, (n as usize) * 4)? {
        return Ok(0);
    }
    Ok(words_in(bytes, n as usize, table))
}

// The words at the start of the buffer, as many as asked for.
fn words_in(bytes: &[u8], n: usize, table: &mut [u32]) -> usize
    ensures { Taken result bytes.now table.old table.new }
{
    if bytes.len() / 4 < n {
        return 0;
    }
    words::words_of(&bytes[..n * 4], table)
}

// Reads past n words, and answers whether they were there.
fn pass_words<R: Read>(from: &mut R, n: u32) -> io::Result<bool> {
    let mut word = [0u8; 4];
    for _ in 0..n {
        if !read_bytes(from, &mut word, 0, 4)? {
            return Ok(false);
        }
    }
    Ok(true)
}

// Has the call's count say that its load is the longest that is passed on.
fn put_longest(bytes: &mut [u8]) {
    if let Some(count) = bytes.get_mut(4..8) {
        count.copy_from_slice(&LONGEST.to_le_bytes());
    }
}

// Reads a load's count and words behind its code, and answers how many words the call has; none where it is cut.
fn read_load<R: Read>(from: &mut R, bytes: &mut [u8]) -> io::Result<Option<usize>> {
    if !read_bytes(from, bytes, 4, 4)? {
        return Ok(None);
    }
    let count = words::word_at(bytes, 4);
    let passed_on = count.min(LONGEST) as usize;
    if !read_bytes(from, bytes, 8, passed_on * 4)? {
        return Ok(None);
    }
    if LONGEST < count {
        if !pass_words(from, count - LONGEST)? {
            return Ok(None);
        }
        put_longest(bytes);
    }
    Ok(Some(2 + passed_on))
}

// Reads what stands behind a call's code, and answers how many words the call has; none where it is cut.
fn read_operands<R: Read>(from: &mut R, bytes: &mut [u8]) -> io::Result<Option<usize>> {
    match words::word_at(bytes, 0) {
        3 => read_load(from, bytes),
        6 => Ok(read_bytes(from, bytes, 4, 4)?.then_some(2)),
        _ => Ok(Some(1)),
    }
}

// Reads a call's words to the start of a table, and answers how many; 0 where it is cut.
// kept: list_words::call_ok refuses 0 words as it refuses another code, and no caller asks which it was.
#[tactic(auto, using(crate::proofs::Taking::taken_none))]
pub fn read_call<R: Read>(from: &mut R, bytes: &mut [u8], table: &mut [u32]) -> io::Result<usize>
    ensures ok { IfOk result (λ n. Taken n bytes.new table.old table.new) }
    ensures err { OnErr result (table.new ≡ table.old) }
{
    if !read_bytes(from, bytes, 0, 4)? {
        return Ok(0);
    }
    let n = read_operands(from, bytes)?;
    Ok(words_in(bytes, n.unwrap_or(0), table))
}
