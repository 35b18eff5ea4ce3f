#![tactic(auto)]
// Decodes each of the files case000, case001, .. of the folder that it is run in, and prints a line with the number of its first fault.
// `compare/images.py` makes the files, and says of each which sentence of document 01 it is for.
use case_names::open_case;
use replay_input::read_full;
use std::io;
use std::io::Read;
use std::rt::Files;

// The words of a file that is open, and how many they are.
fn read_words<R: Read>(file: &mut R, input: &mut [u8], words: &mut [u32]) -> io::Result<usize> {
    let n = read_full(file, input)?;
    Ok(words::words_of(&input[..n], words))
}

// The first word of a case is the count of the others.
fn print_fault(rt: &impl Print, words: &[u32], k: usize) -> io::Result<()> {
    if k < 1 || words.len() < k {
        return Ok(());
    }
    let fault = image::decode(&words[1..k]).fault;
    rt.println(fault.map_or(0, |fault| fault.number()))
}

// Decodes case i, and answers whether there is one.
fn run_case(
    rt: &(impl Files + Print),
    i: u32,
    input: &mut [u8],
    words: &mut [u32],
) -> io::Result<bool> {
    let Some(mut file) = open_case(rt, i) else {
        return Ok(false);
    };
    let k = read_words(&mut file, input, words)?;
    print_fault(rt, words, k)?;
    Ok(true)
}

// Decodes the cases up to the first number that has none, and answers how many they are.
fn run_all(rt: &(impl Files + Print), input: &mut [u8], words: &mut [u32]) -> io::Result<u32> {
    for i in 0..1000 {
        if !run_case(rt, i, input, words)? {
            return Ok(i);
        }
    }
    Ok(1000)
}

fn main(rt: HostRuntime) -> io::Result<()> {
    let mut input = [0u8; 70000];
    let mut words = [0u32; 17500];
    let n = run_all(&rt, &mut input, &mut words)?;
    println!(rt; "{n} images")
}
