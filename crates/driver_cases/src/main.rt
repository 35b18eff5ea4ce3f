#![tactic(auto)]
// Runs the driver on each of the files case000, case001, .. of the folder that it is run in, and prints a line with the name of each before its
// listing. `compare/rust/driver_cases.py` makes the files, the works of the stock among them, and has the Rust say what is to be printed.
use case_names::{case_name, open_case};
use std::io;
use std::io::Write;
use std::rt::Files;

// Runs case i, and answers whether there is one.
fn run_case(
    rt: &(impl Files + Print),
    i: u32,
    input: &mut [u8; 16384],
    out: &mut [u8; 8192],
) -> io::Result<bool> {
    let Some(mut file) = open_case(rt, i) else {
        return Ok(false);
    };
    let mut to = io::writer(rt);
    to.write_all(&case_name(i))?;
    to.write_all(b"\n")?;
    driver_io::drive(input, out, &mut file, &mut to)?;
    Ok(true)
}

// Runs the cases up to the first number that has none, and answers how many they are.
fn run_all(
    rt: &(impl Files + Print),
    input: &mut [u8; 16384],
    out: &mut [u8; 8192],
) -> io::Result<u32> {
    for i in 0..1000 {
        if !run_case(rt, i, input, out)? {
            return Ok(i);
        }
    }
    Ok(1000)
}

fn main(rt: HostRuntime) -> io::Result<()> {
    let mut input = driver_io::load_buffer();
    let mut out = driver_io::line_buffer();
    let n = run_all(&rt, &mut input, &mut out)?;
    println!(rt; "{n} cases")
}
