// The table of the tanks' links: laid out over words that show where nothing was written, printed, and changed by one word.
use crate::ask::print;
use crate::change::Change;
use calls::{LinkGroups, Refusal};
use model::Project;
use std::io;

// What each word is before the table is laid out.
const MARKER: u32 = 4294967295;

// Printed for the number of a refused call that has written all the same.
const HAS_WRITTEN: u32 = 1000;

// How many words of each part are printed.
const SHOWN: usize = 16;

// The table of a project, and why it is refused.
pub fn laid_out(p: Project) -> (LinkGroups, Result<(), Refusal>) {
    let mut groups = LinkGroups {
        begins: [MARKER; 257],
        middles: [MARKER; 256],
        links: [MARKER; 768],
    };
    let answer = calls::lay_out_tank_links(p, &mut groups);
    (groups, answer)
}

// The word that a change with this code and index is about.
fn word_of(t: &LinkGroups, what: u32, i: usize) -> u32 {
    let begin = i % 257;
    let middle = i % 256;
    let place = i % 768;
    match what {
        56 => t.begins[begin],
        57 => t.middles[middle],
        _ => t.links[place],
    }
}

fn is_marked(t: &LinkGroups, i: usize) -> bool {
    (56..59).all(|what| word_of(t, what, i) == MARKER)
}

// Whether nothing was written: the longest part has 768 words.
fn all_marked(t: &LinkGroups) -> bool {
    (0..768).all(|i| is_marked(t, i))
}

// What laying out the project's table gives.
pub fn lay_out_number(p: Project) -> u32 {
    match laid_out(p) {
        (_, Ok(_)) => 0,
        (groups, Err(refusal)) if all_marked(&groups) => refusal.number(),
        _ => HAS_WRITTEN,
    }
}

fn print_part(rt: &impl Print, t: &LinkGroups, what: u32) -> io::Result<()> {
    for i in 0..SHOWN {
        print(rt, word_of(t, what, i))?;
    }
    rt.print("\n")
}

// The places, the middles and the link numbers, a line each.
pub fn print_table(rt: &impl Print, t: &LinkGroups) -> io::Result<()> {
    print_part(rt, t, 56)?;
    print_part(rt, t, 57)?;
    print_part(rt, t, 58)
}

// A place, a middle or a link number changed, or two link numbers exchanged: the low word is then the other's index.
pub fn changed_table(t: &LinkGroups, c: Change) -> LinkGroups {
    let mut u = *t;
    let begin = c.index % 257;
    u.begins[begin] = c.word(56, u.begins[begin]);
    let middle = c.index % 256;
    u.middles[middle] = c.word(57, u.middles[middle]);
    let place = c.index % 768;
    let other = c.index(59, place) % 768;
    let link = u.links[place];
    u.links[place] = u.links[other];
    u.links[other] = c.word(58, link);
    u
}
