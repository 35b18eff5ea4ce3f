#![tactic(auto)]
// The timetable of a works without tanks, in chunks: its stops, one instant a line, then `steps N`; or the line `none` where they are not known
// beforehand.
ghost use Rattle.std.specs.Prelude.{◌≡◌, ◌*◌, ◌≤◌, length};
ghost use Rattle.listing.specs.Text.{pasted};
ghost use Rattle.timetable_chunk.specs.Timetable.{lines_text};
ghost use Rattle.timetable_chunk.specs.Answers.{Within, answer_text, answer_chunk};
ghost use Rattle.timetable_chunk.specs.Chunks.{counted, last_chunk, given_text, given_chunk, chunk_text, chunk_of};

use model::Project;
use stops_ahead::{NoStops, next_stops};

// How many bytes were written to the start of the buffer, the last instant written and the count of the stops up to it, and whether nothing comes after.
#[derive(Clone, Copy)]
pub struct Chunk {
    pub written: usize,
    pub instant: u32,
    pub count: u32,
    pub over: bool,
}

// Writes each instant on a line of its own from the start of a buffer on, and answers how many bytes they take.
fn put_instants(instants: &[u32], out: &mut [u8]) -> usize
    requires { length instants.now * 11 ≤ length out.old }
    ensures value { result ≡ length (lines_text instants.now) }
    ensures out_after { out.new ≡ pasted out.old 0 (lines_text instants.now) }
{
    let mut at = 0;
    for instant in instants {
        at = listing::put_number_line(out, at, *instant);
    }
    at
}

// n more than count.
fn counted(count: u32, n: usize) -> u32
    ensures { result ≡ counted count n }
{
    if ((u32::MAX - count) as usize) < n {
        count
    } else {
        count + n as u32
    }
}

// A chunk with nothing after it.
fn last(written: usize, instant: u32, count: u32) -> Chunk
    ensures { result ≡ last_chunk written instant count }
{
    Chunk {
        written,
        instant,
        count,
        over: true,
    }
}

// The chunk of some stops above an instant, or of the last line where there are none.
fn put_given(instants: &[u32], instant: u32, count: u32, out: &mut [u8]) -> Chunk
    requires { (length instants.now * 11 ≤ length out.old) × (22 ≤ length out.old) }
    ensures value { result ≡ given_chunk instants.now instant count }
    ensures out_after { out.new ≡ pasted out.old 0 (given_text instants.now count) }
{
    let n = instants.len();
    if n == 0 {
        return last(listing::put_steps_line(out, 0, count), instant, count);
    }
    let written = put_instants(instants, out);
    Chunk {
        written,
        instant: instants[n - 1],
        count: counted(count, n),
        over: false,
    }
}

// The chunk of an answer for a list of stops above an instant.
fn put_answer(
    answer: Result<usize, NoStops>,
    instants: &[u32],
    instant: u32,
    count: u32,
    out: &mut [u8],
) -> Chunk
    requires within { Within answer instants.now }
    requires instants_in_bounds { (length instants.now * 11 ≤ length out.old) × (22 ≤ length out.old) }
    ensures value { result ≡ answer_chunk answer instants.now instant count }
    ensures out_after { out.new ≡ pasted out.old 0 (answer_text answer instants.now count) }
{
    match answer {
        Ok(n) => put_given(&instants[..n], instant, count, out),
        Err(why) => match why {
            NoStops::Unforeseen => last(listing::put_text(out, 0, b"none\n"), instant, count),
            NoStops::Refused(number) => {
                last(listing::put_refused_line(out, 0, number), instant, count)
            }
        },
    }
}

// The chunk above an instant, where count stops lie up to it.
pub fn advance(p: &Project, instant: u32, count: u32, out: &mut [u8; 65536]) -> Chunk
    ensures value { result ≡ chunk_of p.now instant count }
    ensures out_after { out.new ≡ pasted out.old 0 (chunk_text p.now instant count) }
{
    let mut instants = [0u32; 4096];
    let answer = next_stops(*p, instant, &mut instants);
    put_answer(answer, &instants, instant, count, out)
}
