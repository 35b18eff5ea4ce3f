#![tactic(auto)]
// What the payload of a control says (kind 7), and the first of numbers 4, 5 and 6 that it breaks.
ghost use Rattle.std.specs.Prelude.{◌≡◌};
ghost use Rattle.image_control.specs.Entries.{condition_of, control_of, control_words_ok, control_entry};

use image_entry::{Entry, Fault, check, number, word};
use model::{Control, ControlCondition, Counts};
use table_control::{control_indices_ok, control_ok};

// The condition of a code, with its node or seconds and its target.
// kept: the code stays a number with no `TryFrom` that refuses, since `control_of` gives each code a value and `control_words_ok` judges the codes apart.
#[tactic(auto, unfolding(crate::specs::Entries::condition_of))]
fn condition_of(code: u32, n: u32, target: f64) -> ControlCondition
    ensures { result ≡ condition_of code n target }
{
    let node = n as usize;
    match code {
        0 => ControlCondition::HighPressure { node, target },
        1 => ControlCondition::LowPressure { node, target },
        2 => ControlCondition::HighLevel { tank: node, target },
        3 => ControlCondition::LowLevel { tank: node, target },
        4 => ControlCondition::Time { seconds: n },
        _ => ControlCondition::ClockTime { seconds: n },
    }
}

#[tactic(auto, unfolding(crate::specs::Entries::control_of, crate::specs::Entries::status_action_of, crate::specs::Entries::setting_action_of))]
fn control_of(p: &[u32]) -> Control
    ensures { result ≡ control_of p.now }
{
    let flags = word(p, 5);
    Control {
        condition: condition_of(word(p, 0), word(p, 1), number(p, 2)),
        link: word(p, 4) as usize,
        status: (flags % 2 == 1).then_some(word(p, 6)),
        setting: (flags / 2 % 2 == 1).then_some(number(p, 7)),
    }
}

// Codes and flags are known, and unused words are 0.
#[tactic(auto, unfolding(crate::specs::Entries::control_words_ok))]
fn control_words_ok(p: &[u32]) -> bool
    ensures { result ≡ control_words_ok p.now }
{
    let code = word(p, 0);
    let flags = word(p, 5);
    (code <= 5)
        & (flags <= 3)
        & ((code <= 3) | ((word(p, 2) == 0) & (word(p, 3) == 0)))
        & ((flags % 2 == 1) | (word(p, 6) == 0))
        & ((flags / 2 % 2 == 1) | ((word(p, 7) == 0) & (word(p, 8) == 0)))
}

#[tactic(auto, unfolding(crate::specs::Entries::control_entry, image_entry::specs::Entries::passed))]
pub fn control_entry(p: &[u32], c: Counts) -> Result<Entry, Fault>
    ensures { result ≡ control_entry p.now c }
{
    let control = control_of(p);
    check(c.controls < 64, Fault::Count)?;
    check(control_words_ok(p) & control_ok(control), Fault::Word)?;
    check(control_indices_ok(c.nodes, c.links, control), Fault::Index)?;
    Ok(Entry::Control(control))
}
