#![tactic(auto)]
// A block of result numbers, 8 bytes each, row by row, and the same bytes in planes, as the office's archive loader takes them: the lowest
// bytes of all, then the second, up to the eighth. Bytes are moved and no number is looked at, so a NaN keeps its bits.
ghost use Rattle.std.specs.Prelude.{◌≡◌, ◌*◌, ◌<◌, length};
ghost use Rattle.planes.specs.Planes.{turned, to_planes, from_planes, sized, planes_number, written};
ghost use Rattle.planes.specs.Passes.{RowPut};
ghost use Rattle.planes.specs.Refusals.{refused_number, answer_number};

// The most rows of a block.
const MOST_ROWS: usize = 512;

// The bytes of a row, and so the planes of a block.
const ROW: usize = 8;

// The rows or a buffer's size are not right.
#[derive(Clone, Copy)]
pub struct Refused;

impl Refused {
    // Document 02's number of it.
    pub fn number(self) -> u32
        ensures { result ≡ refused_number self }
    {
        13
    }
}

// Whether there are 1 to 512 rows, and both buffers have 8 bytes for each.
fn fit(rows: usize, from: usize, into: usize) -> bool
    ensures { result ≡ sized rows from into }
{
    (1..=MOST_ROWS).contains(&rows) && from == ROW * rows && into == ROW * rows
}

// The bytes of one of n rows of w bytes, each put in its plane.
fn put_row(from: &[u8], into: &mut [u8], w: usize, n: usize, row: usize)
    requires { (row < n) × (length from.now ≡ w * n) × (length into.old ≡ w * n) }
    ensures { RowPut w n from.now row w into.old into.new }
{
    let start = w * row;
    for byte in 0..w {
        into[n * byte + row] = from[start + byte];
    }
}

// n rows of w bytes, plane by plane.
fn turn(from: &[u8], into: &mut [u8], w: usize, n: usize)
    requires { (length from.now ≡ w * n) × (length into.old ≡ w * n) }
    ensures { into.new ≡ turned w n from.now }
{
    for row in 0..n {
        put_row(from, into, w, n, row);
    }
}

// The block in planes, in a second buffer, which a refusal leaves as it was.
#[tactic(auto, unfolding(crate::specs::Planes::planes_number, crate::specs::Planes::written))]
pub fn to_planes(rows: usize, block: &[u8], planes: &mut [u8]) -> Result<(), Refused>
    ensures value { answer_number result ≡ planes_number rows (length block.now) (length planes.old) }
    ensures planes_after { planes.new ≡ written to_planes rows block.now planes.old }
{
    if !fit(rows, block.len(), planes.len()) {
        return Err(Refused);
    }
    turn(block, planes, ROW, rows);
    Ok(())
}

// The block back out of its planes. Answers as to_planes does.
#[tactic(auto, unfolding(crate::specs::Planes::planes_number, crate::specs::Planes::written))]
pub fn from_planes(rows: usize, planes: &[u8], block: &mut [u8]) -> Result<(), Refused>
    ensures value { answer_number result ≡ planes_number rows (length planes.now) (length block.old) }
    ensures block_after { block.new ≡ written from_planes rows planes.now block.old }
{
    if !fit(rows, planes.len(), block.len()) {
        return Err(Refused);
    }
    turn(planes, block, rows, ROW);
    Ok(())
}
