#![tactic(auto)]
// Puts blocks in planes and back as standard input says, and prints the number of each call and what the second buffer holds after it.
// The input is a count of orders, and the orders, in words of 32 bits: 1 or 2, a count and that many bytes, which are from then on the block
// or the planes; 3 (to planes) or 4 (from planes), the low and high word of the rows, and how often the call is made, at least once. Any other
// word is passed over.
// `compare/planes.py` makes the input and what has to come out.
use planes::Refused;
use replay_input::read_full;
use std::io;
use std::io::Read;

// Which way a call turns.
#[derive(Clone, Copy)]
enum Way {
    ToPlanes,
    FromPlanes,
}

// How many bytes at the start of each buffer are lent to a call.
#[derive(Clone, Copy)]
struct Sizes {
    block: usize,
    planes: usize,
}

// A word of the input; 0 at its end.
fn read_word<R: Read>(from: &mut R) -> io::Result<u32> {
    let mut bytes = [0u8; 4];
    read_full(from, &mut bytes)?;
    Ok(words::word_at(&bytes, 0))
}

fn read_rows<R: Read>(from: &mut R) -> io::Result<usize> {
    let low = read_word(from)? as usize;
    let high = read_word(from)? as usize;
    Ok(low + high * 0x1_0000_0000)
}

// Reads a count and that many bytes to the start of a buffer, and answers how many; none where it has no room for them.
fn read_buffer<R: Read>(from: &mut R, buffer: &mut [u8]) -> io::Result<usize> {
    let n = read_word(from)? as usize;
    if buffer.len() < n {
        return Ok(0);
    }
    read_full(from, &mut buffer[0..n])
}

fn print_bytes(rt: &impl Print, bytes: &[u8]) -> io::Result<()> {
    for byte in bytes {
        print!(rt; "{byte:02x}")?;
    }
    Ok(())
}

// The rows, both sizes and the number of a call, and on a line of its own what the second buffer holds.
fn print_answer(
    rt: &impl Print,
    rows: usize,
    first: usize,
    second: &[u8],
    number: u32,
) -> io::Result<()> {
    let n = second.len();
    println!(rt; " planes, rows {rows}, bytes {first} and {n}: {number}")?;
    print_bytes(rt, second)?;
    rt.print("\n")
}

fn call(way: Way, rows: usize, block: &mut [u8], planes: &mut [u8]) -> Result<(), Refused> {
    match way {
        Way::ToPlanes => planes::to_planes(rows, block, planes),
        Way::FromPlanes => planes::from_planes(rows, planes, block),
    }
}

// The number of the last of so many calls.
fn repeated(way: Way, rows: usize, times: u32, block: &mut [u8], planes: &mut [u8]) -> u32 {
    let mut answer = call(way, rows, block, planes);
    for _ in 1..times {
        answer = call(way, rows, block, planes);
    }
    match answer {
        Ok(()) => 0,
        Err(refused) => refused.number(),
    }
}

fn run_call<R: Read>(
    from: &mut R,
    rt: &impl Print,
    way: Way,
    block: &mut [u8],
    planes: &mut [u8],
) -> io::Result<()> {
    let rows = read_rows(from)?;
    let times = read_word(from)?;
    let number = repeated(way, rows, times, block, planes);
    match way {
        Way::ToPlanes => {
            rt.print("to")?;
            print_answer(rt, rows, block.len(), planes, number)
        }
        Way::FromPlanes => {
            rt.print("from")?;
            print_answer(rt, rows, planes.len(), block, number)
        }
    }
}

// Makes a call on the bytes that are lent.
fn lend<R: Read>(
    from: &mut R,
    rt: &impl Print,
    way: Way,
    block: &mut [u8],
    planes: &mut [u8],
    sizes: Sizes,
) -> io::Result<()> {
    let (Some(block), Some(planes)) = (block.get_mut(..sizes.block), planes.get_mut(..sizes.planes))
    else {
        return Ok(());
    };
    run_call(from, rt, way, block, planes)
}

// Does what the next order says, and answers the sizes after it.
fn run_order<R: Read>(
    from: &mut R,
    rt: &impl Print,
    block: &mut [u8],
    planes: &mut [u8],
    sizes: Sizes,
) -> io::Result<Sizes> {
    let mut after = sizes;
    match read_word(from)? {
        1 => after.block = read_buffer(from, block)?,
        2 => after.planes = read_buffer(from, planes)?,
        3 => lend(from, rt, Way::ToPlanes, block, planes, sizes)?,
        4 => lend(from, rt, Way::FromPlanes, block, planes, sizes)?,
        _ => {}
    }
    Ok(after)
}

fn run_orders<R: Read>(
    from: &mut R,
    rt: &impl Print,
    block: &mut [u8],
    planes: &mut [u8],
    n: u32,
) -> io::Result<()> {
    let mut sizes = Sizes {
        block: 0,
        planes: 0,
    };
    for _ in 0..n {
        sizes = run_order(from, rt, block, planes, sizes)?;
    }
    Ok(())
}

fn main(rt: HostRuntime) -> io::Result<()> {
    let mut block = [0u8; 8192];
    let mut planes = [0u8; 8192];
    let mut from = rt.stdin();
    let n = read_word(&mut from)?;
    run_orders(&mut from, &rt, &mut block, &mut planes, n)
}
