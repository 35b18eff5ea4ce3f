#![tactic(auto)]
// Asks for the stops of a works from instants on. Standard input has an image (its count of words and the words), a count of questions, and the
// questions, of two words each: an instant, and for how many stops there is room. Each line has the next stop, how many are written to a list with
// that room, and the list of eight words, which were all 7. `compare/stops_asked.py` makes the input and what has to come out.
use model::Project;
use replay_input::{read_bytes, read_image};
use std::io;
use std::io::Read;
use stops_ahead::NoStops;
use words::word_at;

fn print_next(rt: &impl Print, a: Result<Option<u32>, NoStops>) -> io::Result<()> {
    match a {
        Ok(Some(instant)) => rt.print(instant),
        Ok(None) => rt.print("no more"),
        Err(NoStops::Unforeseen) => rt.print("none"),
        Err(NoStops::Refused(n)) => rt.print(n),
    }
}

fn print_written(rt: &impl Print, a: Result<usize, NoStops>) -> io::Result<()> {
    match a {
        Ok(n) => rt.print(n),
        Err(NoStops::Unforeseen) => rt.print("none"),
        Err(NoStops::Refused(n)) => rt.print(n),
    }
}

fn print_list(rt: &impl Print, list: &[u32]) -> io::Result<()> {
    for instant in list {
        print!(rt; " {instant}")?;
    }
    Ok(())
}

// A question; one for more room than there is asks for all of it.
fn ask(rt: &impl Print, p: Project, instant: u32, room: usize) -> io::Result<()> {
    let mut list = [7u32; 8];
    print_next(rt, stops_ahead::next_stop(p, instant))?;
    rt.print("; ")?;
    print_written(
        rt,
        stops_ahead::next_stops(p, instant, &mut list[..room.min(8)]),
    )?;
    rt.print(":")?;
    print_list(rt, &list)?;
    rt.print("\n")
}

// The questions, each read to the start of the buffer.
fn ask_all<R: Read>(
    from: &mut R,
    rt: &impl Print,
    p: Project,
    n: u32,
    bytes: &mut [u8],
) -> io::Result<()> {
    for _ in 0..n {
        read_bytes(from, bytes, 0, 8)?;
        ask(rt, p, word_at(bytes, 0), word_at(bytes, 4) as usize)?;
    }
    Ok(())
}

fn ask_image<R: Read>(
    from: &mut R,
    rt: &impl Print,
    bytes: &mut [u8],
    table: &mut [u32],
) -> io::Result<()> {
    let n = read_image(from, bytes, table)?;
    let project = image::decode(&table[..n]).project;
    read_bytes(from, bytes, 0, 4)?;
    ask_all(from, rt, project, word_at(bytes, 0), bytes)
}

fn main(rt: HostRuntime) -> io::Result<()> {
    let mut bytes = [0u8; 65536];
    let mut table = [0u32; 16384];
    ask_image(&mut rt.stdin(), &rt, &mut bytes, &mut table)
}
