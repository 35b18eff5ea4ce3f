#![tactic(auto)]
// Writes the timetable of each of the files case000, case001, .. of the folder that it is run in, behind a line with the name of each.
// `compare/rust/timetable_cases.py` makes the files, the works of the stock among them, and has the Rust say which instants are visited.
use case_names::{case_name, open_case};
use std::io;
use std::io::Write;
use std::rt::Files;

// Runs case i, and answers whether there is one.
fn run_case(
    rt: &(impl Files + Print),
    i: u32,
    bytes: &mut [u8; 65536],
    table: &mut [u32; 16384],
) -> io::Result<bool> {
    let Some(mut file) = open_case(rt, i) else {
        return Ok(false);
    };
    let mut to = io::writer(rt);
    to.write_all(&case_name(i))?;
    to.write_all(b"\n")?;
    timetable_io::tabulate(bytes, table, &mut file, &mut to)?;
    Ok(true)
}

// Runs the cases up to the first number that has none, and answers how many they are.
fn run_all(
    rt: &(impl Files + Print),
    bytes: &mut [u8; 65536],
    table: &mut [u32; 16384],
) -> io::Result<u32> {
    for i in 0..1000 {
        if !run_case(rt, i, bytes, table)? {
            return Ok(i);
        }
    }
    Ok(1000)
}

fn main(rt: HostRuntime) -> io::Result<()> {
    let mut bytes = [0u8; 65536];
    let mut table = [0u32; 16384];
    let n = run_all(&rt, &mut bytes, &mut table)?;
    println!(rt; "{n} cases")
}
