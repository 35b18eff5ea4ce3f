#![tactic(auto)]
// What the payload of the options says (kind 1), and number 5 where it breaks it.
ghost use Rattle.std.specs.Prelude.{◌≡◌};
ghost use Rattle.image_options.specs.Entries.{options_of, options_entry};

use image_entry::{Entry, Fault, check, number, pattern_index_of, word};
use model::Options;
use table_ranges::options_ok;

#[tactic(auto, unfolding(crate::specs::Entries::options_of))]
fn options_of(p: &[u32]) -> Options
    ensures { result ≡ options_of p.now }
{
    let flags = word(p, 6);
    Options {
        duration: word(p, 0),
        hydraulic: word(p, 1),
        report: word(p, 2),
        pattern: word(p, 3),
        pattern_start: word(p, 4),
        start_clock: word(p, 5),
        skip: flags % 2 == 1,
        pda: flags / 2 % 2 == 1,
        default_pattern: pattern_index_of(word(p, 7)),
        demand_multiplier: number(p, 8),
    }
}

#[tactic(auto, unfolding(crate::specs::Entries::options_entry, image_entry::specs::Entries::passed))]
pub fn options_entry(p: &[u32]) -> Result<Entry, Fault>
    ensures { result ≡ options_entry p.now }
{
    let o = options_of(p);
    check((word(p, 6) <= 3) & options_ok(o), Fault::Word)?;
    Ok(Entry::Options(o))
}
