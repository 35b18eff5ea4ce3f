#![tactic(auto)]
// What the payload of a pattern says (kind 2), and the first of numbers 4 and 5 that it breaks.
ghost use Rattle.std.specs.Prelude.{◌≡◌};
ghost use Rattle.image_pattern.specs.Entries.{multipliers_ok, pattern_entry};

use image_entry::{Entry, Fault, check, number};
use model::Counts;
use table_ranges::number_ok;

fn multipliers_ok(p: &[u32]) -> bool
    ensures { result ≡ multipliers_ok p.now }
{
    (0..p.len() / 2).all(|i| number_ok(number(p, 2 * i)))
}

#[tactic(auto, unfolding(crate::specs::Entries::pattern_entry, image_entry::specs::Entries::passed))]
pub fn pattern_entry(p: &[u32], c: Counts) -> Result<Entry, Fault>
    ensures { result ≡ pattern_entry p.now c }
{
    check(c.patterns < 32, Fault::Count)?;
    check(multipliers_ok(p), Fault::Word)?;
    Ok(Entry::Pattern)
}
