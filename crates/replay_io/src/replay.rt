// The run of a list that comes in by a reader. A read or write that fails ends it with its error.
use image::Decoded;
use list_words::call_ok;
use model::*;
use replay_input::{read_bytes, read_call, read_image};
use replay_text::{put_call_line, put_start_line};
use std::io;
use std::io::{Read, Write};

// The number of a list that is cut or has another code.
const BAD_LIST: u32 = 18;

// Writes the first n bytes of a line, so that they are out before the next read, which may wait.
fn write<W: Write>(to: &mut W, out: &[u8], n: usize) -> io::Result<()> {
    if n <= out.len() {
        to.write_all(&out[..n])?;
    }
    to.flush()
}

fn refuse<W: Write>(to: &mut W, out: &mut [u8], number: u32) -> io::Result<()> {
    let n = listing::put_refused_line(out, 0, number);
    write(to, out, n)
}

// Runs a call, prints its line, and answers the state after it.
fn replay_call<W: Write>(
    to: &mut W,
    p: &Project,
    s: State,
    call: &[u32],
    out: &mut [u8],
) -> io::Result<State> {
    let code = image_entry::word(call, 0);
    let o = list_call::first_call(*p, s, call);
    let n = put_call_line(out, code, o.number, o.length, o.truth, p.counts, &o.state);
    write(to, out, n)?;
    Ok(o.state)
}

// The list of n calls, read and run as they come.
fn replay_calls<R: Read, W: Write>(
    from: &mut R,
    to: &mut W,
    p: &Project,
    s: State,
    n: u32,
    table: &mut [u32],
    bytes: &mut [u8],
    out: &mut [u8],
) -> io::Result<()> {
    let mut state = s;
    for _ in 0..n {
        let k = read_call(from, bytes, table)?;
        if !call_ok(&table[..k]) {
            return refuse(to, out, BAD_LIST);
        }
        state = replay_call(to, p, state, &table[..k], out)?;
    }
    Ok(())
}

// What the image says. Its words are needed no longer than here.
fn open_image<R: Read>(from: &mut R, bytes: &mut [u8]) -> io::Result<Decoded> {
    let mut words = [0; 16384];
    let n = read_image(from, bytes, &mut words)?;
    Ok(image::decode(&words[..n]))
}

// Room for the words of a call: a load has a code, a count, and at most 1,282 words, with which the longest is refused.
pub fn call_space() -> [u32; 1284] {
    [0; 1284]
}

// Room for a line: the longest state is 1,922 words of 17 bytes, and an answer has fewer than 30.
pub fn line_space() -> [u8; 32768] {
    [0; 32768]
}

// Reads an image and a list of calls, and prints the transcript: the start, and each call in turn. The table is for the words of a call.
pub fn transcribe<R: Read, W: Write>(
    from: &mut R,
    to: &mut W,
    table: &mut [u32],
    bytes: &mut [u8],
    out: &mut [u8],
) -> io::Result<()> {
    let read = open_image(from, bytes)?;
    if let Some(fault) = read.fault {
        return refuse(to, out, fault.number());
    }
    let project = read.project;
    let state = calls::new_with_initial_values(project).state;
    let n = put_start_line(out, project.counts, &state);
    write(to, out, n)?;
    if !read_bytes(from, bytes, 0, 4)? {
        return refuse(to, out, BAD_LIST);
    }
    let calls = words::word_at(bytes, 0);
    replay_calls(from, to, &project, state, calls, table, bytes, out)
}
