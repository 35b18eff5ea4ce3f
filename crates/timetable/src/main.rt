#![tactic(auto)]
// The timetable: reads an image from standard input, and prints the instants at which a works without tanks stops.
use std::io;

fn main(rt: HostRuntime) -> io::Result<()> {
    let mut bytes = [0u8; 65536];
    let mut table = [0u32; 16384];
    let mut from = rt.stdin();
    let mut to = rt.stdout();
    timetable_io::tabulate(&mut bytes, &mut table, &mut from, &mut to)
}
