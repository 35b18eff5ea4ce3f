#![tactic(auto)]
// A record of an image: its header (number 2), that its payload is there (number 3), and its answer by kind.
ghost use Rattle.std.specs.Prelude.{◌≡◌};
ghost use Rattle.image_record.specs.Framing.{stage_of, size_ok, stage_ok, header_ok, entry_of, record_of};

use image_control::control_entry;
use image_entry::{Entry, Fault, check, word};
use image_link::link_entry;
use image_node::{junction_entry, reservoir_entry, tank_entry};
use image_options::options_entry;
use image_pattern::pattern_entry;
use image_premise::premise_entry;
use model::Counts;

// kept: kinds and stages stay numbers, since `stage_of`, `size_ok` and `entry_of` of specs/Framing give each number a value and `header_ok` judges the kinds.
#[tactic(auto, unfolding(crate::specs::Framing::stage_of))]
pub fn stage_of(kind: u32) -> u32
    ensures { result ≡ stage_of kind }
{
    match kind {
        1 => 1,
        2 => 2,
        3..=5 => 3,
        6 => 4,
        7 => 5,
        8 => 6,
        _ => 0,
    }
}

#[tactic(auto, unfolding(crate::specs::Framing::size_ok))]
fn size_ok(kind: u32, n: usize) -> bool
    ensures { result ≡ size_ok kind n }
{
    match kind {
        1 => n == 10,
        2 => (2..=336).contains(&n) & (n % 2 == 0),
        3 => n == 3,
        4 => n == 11,
        5 => (3..=15).contains(&n) & (n % 3 == 0),
        6 => n == 8,
        7 => n == 9,
        8 => n == 7,
        _ => false,
    }
}

#[tactic(auto, unfolding(crate::specs::Framing::stage_ok))]
fn stage_ok(stage: u32, kind: u32) -> bool
    ensures { result ≡ stage_ok stage kind }
{
    match kind {
        1 => stage == 0,
        _ => (1..=stage_of(kind)).contains(&stage),
    }
}

#[tactic(auto, unfolding(crate::specs::Framing::header_ok))]
fn header_ok(stage: u32, h: u32) -> bool
    ensures { result ≡ header_ok stage h }
{
    let kind = h / 0x1000_0000;
    let size = (h % 0x1_0000) as usize;
    (h / 0x1_0000 % 0x1000 == 0) & stage_ok(stage, kind) & size_ok(kind, size)
}

#[tactic(auto, unfolding(crate::specs::Framing::entry_of))]
fn entry_of(kind: u32, p: &[u32], c: Counts) -> Result<Entry, Fault>
    ensures { result ≡ entry_of kind p.now c }
{
    match kind {
        1 => options_entry(p),
        2 => pattern_entry(p, c),
        3 => reservoir_entry(p, c),
        4 => tank_entry(p, c),
        5 => junction_entry(p, c),
        6 => link_entry(p, c),
        7 => control_entry(p, c),
        _ => premise_entry(p, c),
    }
}

// The answer of the record at the front of the words.
#[tactic(auto, using(crate::proofs::Records::record_2, crate::proofs::Records::record_3, crate::proofs::Records::record_in, crate::proofs::Records::part_is))]
pub fn record(ws: &[u32], stage: u32, c: Counts) -> Result<Entry, Fault>
    ensures { result ≡ record_of ws.now stage c }
{
    let h = word(ws, 0);
    check(header_ok(stage, h), Fault::Header)?;
    let end = 1 + (h % 0x1_0000) as usize;
    check(end <= ws.len(), Fault::Cut)?;
    entry_of(h / 0x1000_0000, &ws[1..end], c)
}
