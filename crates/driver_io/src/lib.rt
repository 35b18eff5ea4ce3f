#![tactic(auto)]
// The driver between a reader and a writer: it reads an image and loads, and writes the listing. This crate only moves bytes; what they are is put
// together by `driver_image` and `driver_chunk`. No contract can say what is read or written: the law `image_accepted` of `driver_printed` says that the
// chunks' texts, written one after the other, are what document 01 asks for. A read or write that fails ends the listing with its error.
ghost use Rattle.std.specs.Prelude.{◌-◌, ◌≤◌, ◌≡◌, true, ◌++◌, length, take, drop, IfOk};
ghost use Rattle.tables.specs.Fit.{TablesFit};
ghost use Rattle.tables.specs.Tables.{tables_ok};
ghost use Rattle.state.specs.Starting.{start_from};
ghost use Rattle.driver_tables.specs.Laid.{Laid, LaidFrom, PartsInside};
ghost use Rattle.driver_chunk.specs.Chunks.{RunOf};
ghost use Rattle.driver_io.specs.Held.{Filled};

use driver_tables::{Tables, lay_out};
use image_entry::Fault;
use model::{Project, State};
use replay_input::read_full;
use state::start_from;
use std::io;
use std::io::{Read, Write};

// The input at hand: the bytes of the buffer from used up to have, and whether no more come.
#[derive(Clone, Copy)]
struct Held {
    used: usize,
    have: usize,
    whole: bool,
}

// Writes a text so that it is out before the next read, which may wait.
fn write<W: Write>(to: &mut W, text: &[u8]) -> io::Result<()> {
    to.write_all(text)?;
    to.flush()
}

// Prints the line of fault n alone.
fn refuse<W: Write>(n: u32, out: &mut [u8], to: &mut W) -> io::Result<()> {
    let k = listing::put_refused_line(out, 0, n);
    write(to, &out[..k])
}

// Moves the bytes from `from` up to `to` to the start of the buffer, and answers how many they are.
fn shift(buf: &mut [u8], from: usize, to: usize) -> usize
    requires { (from ≤ to) × (to ≤ length buf.old) }
    ensures value { result ≡ to - from }
    ensures buf_after { buf.new ≡ take (to - from) (drop from buf.old) ++ drop (to - from) buf.old }
{
    for i in 0..to - from {
        buf[i] = buf[from + i];
    }
    to - from
}

// Reads behind the first have bytes until there are need of them, or the input ends, and answers how many there are. A read takes what has
// come and fits, and none is made once they are there, so that nobody has to end an input to be answered.
fn read_until<R: Read>(from: &mut R, buf: &mut [u8], have: usize, need: usize) -> io::Result<usize>
    requires { have ≤ length buf.old }
    ensures lower_bound { IfOk result (λ n. (have ≤ n) × (n ≤ length buf.old)) }
    ensures buf_unchanged { take have buf.new ≡ take have buf.old }
{
    let mut n = have;
    while n < need {
        let got = from.read(&mut buf[n..])?;
        if got == 0 {
            return Ok(n);
        }
        n += got;
    }
    Ok(n)
}

// Where wants is not 0: moves what is left of the input to the front, and reads until there are as many bytes.
fn refill<R: Read>(input: &mut [u8], h: Held, wants: usize, from: &mut R) -> io::Result<Held>
    requires { (h.used ≤ h.have) × (h.have ≤ length input.old) }
    ensures { IfOk result (λ r. Filled h wants input.old input.new r) }
{
    let used = h.used;
    let have = h.have;
    if wants == 0 {
        return Ok(h);
    }
    let kept = shift(input, used, have);
    let n = read_until(from, input, kept, wants)?;
    Ok(Held {
        used: 0,
        have: n,
        whole: n < wants,
    })
}

// The run by the tables of a project, from its state at the start.
#[inline(never)]
fn run<R: Read, W: Write>(
    t: &Tables,
    multipliers: &[f64; 5376],
    start: State,
    input: &mut [u8],
    out: &mut [u8],
    from: &mut R,
    to: &mut W,
) -> io::Result<()>
    requires in_bounds { 22 ≤ length out.old }
    requires run_of { RunOf t.now multipliers.now start }
{
    let mut state = start;
    let mut held = Held {
        used: 0,
        have: 0,
        whole: false,
    };
    let mut wants = 0;
    let mut over = false;
    while !over {
        held = refill(input, held, wants, from)?;
        let used = held.used;
        let have = held.have;
        let c = driver_chunk::advance(t, multipliers, state, &input[used..have], held.whole, out);
        let n = c.written;
        write(to, &out[..n])?;
        state = c.state;
        held.used = used + c.used;
        wants = c.wants;
        over = c.over;
    }
    Ok(())
}

// Reads as many words as both have room for, and answers how many there are: none where the input ends before the last of them.
fn read_piece<R: Read>(from: &mut R, buf: &mut [u8], words: &mut [u32]) -> io::Result<usize>
    ensures { IfOk result (λ n. n ≤ length words.old) }
{
    let size = (buf.len() / 4).min(words.len()) * 4;
    let got = read_full(from, &mut buf[..size])?;
    if got < size {
        return Ok(0);
    }
    Ok(words::words_of(&buf[..size], words))
}

// Reads count words, piece by piece, and answers how many there are: none where one is missing, since an image of no words has the same number.
fn read_words<R: Read>(
    from: &mut R,
    buf: &mut [u8],
    words: &mut [u32],
    count: usize,
) -> io::Result<usize>
    requires { count ≤ length words.old }
    ensures { IfOk result (λ n. n ≤ length words.old) }
{
    let mut n = 0;
    while n < count {
        let got = read_piece(from, buf, &mut words[n..count])?;
        if got == 0 {
            return Ok(0);
        }
        n += got;
    }
    Ok(n)
}

// Reads the words of an image, and answers how many there are.
fn read_image<R: Read>(from: &mut R, buf: &mut [u8], words: &mut [u32; 16384]) -> io::Result<usize>
    requires { 4 ≤ length buf.old }
    ensures { IfOk result (λ n. n ≤ 16384) }
{
    let head = read_full(from, &mut buf[..4])?;
    let count = driver_image::image_words(&buf[..head]);
    read_words(from, buf, words, count)
}

// What the image says. Its words are needed no longer than here: inlined, they would take stack from the whole run.
#[inline(never)]
fn open_image<R: Read>(
    from: &mut R,
    buf: &mut [u8],
    p: &mut Project,
) -> io::Result<Result<(), Fault>>
    requires { 4 ≤ length buf.old }
    ensures { IfOk result (λ r. IfOk r (λ u. tables_ok p.new ≡ true)) }
{
    let mut words = [0; 16384];
    let n = read_image(from, buf, &mut words)?;
    Ok(image::decode_into(&words[..n], p))
}

// Tables with nothing in them. Inlined, they would stand on the stack three times as long as the run goes.
#[inline(never)]
fn no_project() -> Project {
    Project::empty()
}

// The tables of a run. Inlined, what they are laid out from would take stack from the whole run.
#[inline(never)]
fn tables_of(p: &Project) -> Tables
    requires { PartsInside p.now.counts p.now.links p.now.controls }
    ensures from { LaidFrom p.now.options p.now.counts p.now.lengths p.now.nodes p.now.links p.now.controls result }
    ensures laid { TablesFit p.now → Laid p.now result }
{
    lay_out(p)
}

// The state at the start, likewise.
#[inline(never)]
fn start_of(p: &Project) -> State
    requires { (p.now.counts.nodes ≤ 256) × (p.now.counts.links ≤ 384) }
    ensures { result ≡ start_from p.now.nodes p.now.counts.nodes p.now.links p.now.counts.links }
{
    start_from(&p.nodes, p.counts.nodes, &p.links, p.counts.links)
}

// The header of an image that was accepted, and the run from the start. Inlined, its tables would take stack while the image is read.
#[inline(never)]
fn play<R: Read, W: Write>(
    p: &Project,
    input: &mut [u8],
    out: &mut [u8],
    from: &mut R,
    to: &mut W,
) -> io::Result<()>
    requires accepted { tables_ok p.now ≡ true }
    requires in_bounds { 22 ≤ length out.old }
{
    let h = listing::put_header(out, 0);
    write(to, &out[..h])?;
    let t = &tables_of(p);
    let start = start_of(p);
    run(t, &p.multipliers, start, input, out, from, to)
}

// The image, and its run or the number of its fault.
fn drive_slices<R: Read, W: Write>(
    input: &mut [u8],
    out: &mut [u8],
    from: &mut R,
    to: &mut W,
) -> io::Result<()>
    requires in_bounds { 4 ≤ length input.old }
    requires in_bounds_2 { 22 ≤ length out.old }
{
    // Lent from the place that it is answered to: a local of its own would be a copy on the stack.
    let project = &mut no_project();
    if let Err(fault) = open_image(from, input, project)? {
        return refuse(fault.number(), out, to);
    }
    play(project, input, out, from, to)
}

// Room for loads, of which none has more than 5,124 bytes: the more of them come in one chunk, the less is handed over for each.
pub fn load_buffer() -> [u8; 16384] {
    [0; 16384]
}

// Room for a chunk's lines.
pub fn line_buffer() -> [u8; 8192] {
    [0; 8192]
}

// The same with buffers of a fixed size, so that nothing is asked of the caller.
pub fn drive<R: Read, W: Write>(
    input: &mut [u8; 16384],
    out: &mut [u8; 8192],
    from: &mut R,
    to: &mut W,
) -> io::Result<()> {
    drive_slices(input, out, from, to)
}
