#![tactic(auto)]
// The program `timetable` between a reader and a writer: it reads an image and writes its timetable. What stands behind the image, the loads, is not read.
// This crate only moves bytes; what they are is put together by `replay_input`, `image` and `timetable_chunk`. No contract can say what is read or
// written: the law `printed_is` of `timetable_chunk` says that the chunks' texts, written one after the other, are the timetable.
// A read or write that fails ends it with its error.
ghost use Rattle.std.specs.Prelude.{◌≤◌, length};

use model::Project;
use std::io;
use std::io::{Read, Write};

// Writes the first n bytes of a buffer.
fn write<W: Write>(to: &mut W, out: &[u8], n: usize) -> io::Result<()>
    requires { n ≤ length out.now }
{
    to.write_all(&out[..n])?;
    to.flush()
}

// The line of fault n alone.
fn refuse<W: Write>(n: u32, out: &mut [u8], to: &mut W) -> io::Result<()> {
    let k = listing::put_refused_line(out, 0, n);
    write(to, out, k)
}

// The chunks of a project. Inlined, the copies that each chunk is made from would stand on the stack beside the making of an empty project.
#[inline(never)]
fn write_chunks<W: Write>(p: &Project, out: &mut [u8; 65536], to: &mut W) -> io::Result<()> {
    let mut instant = 0;
    let mut count = 0;
    'chunks: loop {
        let c = timetable_chunk::advance(p, instant, count, out);
        write(to, out, c.written)?;
        if c.over {
            return Ok(());
        }
        instant = c.instant;
        count = c.count;
    }
}

// Tables with nothing in them. Inlined, they would stand on the stack three times.
#[inline(never)]
fn no_project() -> Project {
    Project::empty()
}

// Reads an image and writes its timetable, or the number of its fault.
pub fn tabulate<R: Read, W: Write>(
    bytes: &mut [u8; 65536],
    table: &mut [u32],
    from: &mut R,
    to: &mut W,
) -> io::Result<()> {
    let n = replay_input::read_image(from, bytes, table)?;
    // Lent from the place that it is answered to: a local of its own would be a copy on the stack.
    let project = &mut no_project();
    if let Err(fault) = image::decode_into(&table[..n], project) {
        return refuse(fault.number(), bytes, to);
    }
    write_chunks(project, bytes, to)
}
