#![tactic(auto)]
// Replays each of the files case000, case001, .. of the folder that it is run in, and prints a line with the name of each before its transcript.
// `compare/rust/vectors.py` chose them; what they must print is the Rust's answer.
use case_names::{case_name, open_case};
use std::io;
use std::io::Write;
use std::rt::Files;

// Replays case i, and answers whether there is one.
fn run_case(
    rt: &(impl Files + Print),
    i: u32,
    table: &mut [u32],
    bytes: &mut [u8],
    out: &mut [u8],
) -> io::Result<bool> {
    let Some(mut file) = open_case(rt, i) else {
        return Ok(false);
    };
    let mut to = io::writer(rt);
    to.write_all(&case_name(i))?;
    to.write_all(b"\n")?;
    replay_io::transcribe(&mut file, &mut to, table, bytes, out)?;
    Ok(true)
}

// Replays the cases up to the first number that has none, and answers how many they are.
fn run_all(
    rt: &(impl Files + Print),
    table: &mut [u32],
    bytes: &mut [u8],
    out: &mut [u8],
) -> io::Result<u32> {
    for i in 0..1000 {
        if !run_case(rt, i, table, bytes, out)? {
            return Ok(i);
        }
    }
    Ok(1000)
}

fn main(rt: HostRuntime) -> io::Result<()> {
    let mut table = replay_io::call_space();
    let mut bytes = [0u8; 65536];
    let mut out = replay_io::line_space();
    let n = run_all(&rt, &mut table, &mut bytes, &mut out)?;
    println!(rt; "{n} cases")
}
