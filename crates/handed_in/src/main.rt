#![tactic(auto)]
// Hands tables and states that were changed to every call, and prints the number that each gives. Standard input has images one after the other: of
// each its count of words and the words, a count of changes, and the changes, of four words each: what is changed, an index, and the low and high
// word of the new value. Each change is made alone, to the project as decoded, its start, and the table of its tanks' links, which is printed first.
// `compare/handed_in.py` makes the input and what has to come out.
mod ask;
mod change;
mod controls;
mod groups;
mod link;
mod node;
mod premises;
mod project;
mod states;

use ask::print_numbers;
use calls::LinkGroups;
use change::Change;
use groups::{changed_table, laid_out, print_table};
use model::*;
use project::changed_project;
use replay_input::read_full;
use states::changed_state;
use std::io;
use std::io::Read;

const MOST_IMAGES: u32 = 1000;

fn read_change<R: Read>(from: &mut R) -> io::Result<Change> {
    let what = read_word(from)?;
    let index = read_word(from)? as usize;
    let low = read_word(from)?;
    let high = read_word(from)?;
    Ok(Change {
        what,
        index,
        low,
        high,
    })
}

// Makes the change that comes next, and asks every call.
fn run_change<R: Read>(
    from: &mut R,
    rt: &impl Print,
    p: Project,
    s: State,
    t: &LinkGroups,
) -> io::Result<()> {
    let change = read_change(from)?;
    print_numbers(
        rt,
        changed_project(p, change),
        changed_state(s, change),
        &changed_table(t, change),
    )
}

fn run_changes<R: Read>(
    from: &mut R,
    rt: &impl Print,
    p: Project,
    s: State,
    t: &LinkGroups,
    n: u32,
) -> io::Result<()> {
    for _ in 0..n {
        run_change(from, rt, p, s, t)?;
    }
    Ok(())
}

// A word of the input; 0 at its end.
fn read_word<R: Read>(from: &mut R) -> io::Result<u32> {
    let mut bytes = [0u8; 4];
    read_full(from, &mut bytes)?;
    Ok(words::word_at(&bytes, 0))
}

// Reads n bytes to the start of the buffer, where it has room for them.
fn read_bytes<R: Read>(from: &mut R, n: usize, bytes: &mut [u8]) -> io::Result<()> {
    if let Some(lent) = bytes.get_mut(..n) {
        read_full(from, lent)?;
    }
    Ok(())
}

// The project of the image in the first n bytes.
fn decoded(n: usize, bytes: &[u8], table: &mut [u32]) -> Project {
    let Some(image) = bytes.get(..n) else {
        return Project::empty();
    };
    let k = words::words_of(image, table);
    image::decode(&table[..k]).project
}

// Makes the changes of the image that comes next, and answers whether there is one: at the end of the input its count is 0.
fn run_image<R: Read>(
    from: &mut R,
    rt: &impl Print,
    bytes: &mut [u8],
    table: &mut [u32],
) -> io::Result<bool> {
    let n = (read_word(from)? as usize) * 4;
    if n == 0 {
        return Ok(false);
    }
    read_bytes(from, n, bytes)?;
    let p = decoded(n, bytes, table);
    let state = calls::new_with_initial_values(p).state;
    let (laid, _) = laid_out(p);
    print_table(rt, &laid)?;
    let count = read_word(from)?;
    run_changes(from, rt, p, state, &laid, count)?;
    Ok(true)
}

fn run_images<R: Read>(
    from: &mut R,
    rt: &impl Print,
    bytes: &mut [u8],
    table: &mut [u32],
) -> io::Result<()> {
    for _ in 0..MOST_IMAGES {
        if !run_image(from, rt, bytes, table)? {
            return Ok(());
        }
    }
    Ok(())
}

fn main(rt: HostRuntime) -> io::Result<()> {
    let mut bytes = [0u8; 65536];
    let mut table = [0u32; 16384];
    run_images(&mut rt.stdin(), &rt, &mut bytes, &mut table)
}
