#![tactic(auto)]
// The program `replay`: reads an image and a list of calls from standard input, and prints what each call answers with the whole state after it.
use std::io;

fn main(rt: HostRuntime) -> io::Result<()> {
    let mut table = replay_io::call_space();
    let mut bytes = [0u8; 65536];
    let mut out = replay_io::line_space();
    let mut from = rt.stdin();
    let mut to = rt.stdout();
    replay_io::transcribe(&mut from, &mut to, &mut table, &mut bytes, &mut out)
}
