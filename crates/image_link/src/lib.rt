#![tactic(auto)]
// What the payload of a link says (kind 6), and the first of numbers 4, 5 and 6 that it breaks.
ghost use Rattle.std.specs.Prelude.{◌≡◌};
ghost use Rattle.image_link.specs.Entries.{link_type_of, link_of, link_words_ok, link_entry};

use image_entry::{Entry, Fault, check, number, word};
use model::{Counts, Link, LinkType};
use table_link::{link_indices_ok, link_ok};

// kept: the sort stays a number with no `TryFrom` that refuses, since `link_of` gives each number a value and `link_words_ok` judges the numbers apart.
#[tactic(auto, unfolding(crate::specs::Entries::link_type_of))]
fn link_type_of(sort: u32, size: f64, setting: f64) -> LinkType
    ensures { result ≡ link_type_of sort size setting }
{
    match sort {
        0 => LinkType::Pipe { diameter: size },
        1 => LinkType::Pump {
            initial_flow: size,
            speed: setting,
        },
        _ => LinkType::Valve {
            diameter: size,
            setting,
        },
    }
}

#[tactic(auto, unfolding(crate::specs::Entries::link_of))]
fn link_of(p: &[u32]) -> Link
    ensures { result ≡ link_of p.now }
{
    Link {
        start: word(p, 0) as usize,
        end: word(p, 1) as usize,
        initial_status: word(p, 3),
        kind: link_type_of(word(p, 2), number(p, 4), number(p, 6)),
    }
}

// A pipe's setting is 0 in both words.
#[tactic(auto, unfolding(crate::specs::Entries::link_words_ok))]
fn link_words_ok(p: &[u32]) -> bool
    ensures { result ≡ link_words_ok p.now }
{
    let sort = word(p, 2);
    (sort <= 2) & ((1 <= sort) | ((word(p, 6) == 0) & (word(p, 7) == 0)))
}

#[tactic(auto, unfolding(crate::specs::Entries::link_entry, image_entry::specs::Entries::passed))]
pub fn link_entry(p: &[u32], c: Counts) -> Result<Entry, Fault>
    ensures { result ≡ link_entry p.now c }
{
    let l = link_of(p);
    check(c.links < 384, Fault::Count)?;
    check(link_words_ok(p) & link_ok(l), Fault::Word)?;
    check(link_indices_ok(c.nodes, l), Fault::Index)?;
    Ok(Entry::Link(l))
}
