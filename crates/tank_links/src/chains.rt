// The links at each node as chains, those into it and those out of it, so that laying the table out walks every link once and not once for
// every tank.
ghost use Rattle.std.specs.Prelude.{◌≡◌, ◌+◌, ◌≤◌, ◌<◌, length, get_or, set, replicate};
ghost use Rattle.std.proofs.lemmas.List.Edits.{sets};
ghost use Rattle.tank_links.specs.Chains.{Rising, linked, Chains};
ghost use Rattle.tank_links.specs.Laid.{end_in, start_in, EndsInside};

use model::*;

// Of each node the first link, and behind each link the next one; 384 ends a chain.
// kept: 384 for no link, as `linked 384` of specs/Chains has it; an Option at each link would take twice the room.
#[derive(Clone, Copy)]
pub struct Chain {
    pub first: [usize; 256],
    pub next: [usize; 384],
}

impl Chain {
    fn empty() -> Chain
        ensures first { result.first ≡ replicate 256 384 }
        ensures next { result.next ≡ replicate 384 384 }
    {
        Chain {
            first: [384; 256],
            next: [384; 384],
        }
    }

    // Link i before those of node j.
    fn put(&mut self, i: usize, j: usize)
        requires link { i < 384 }
        requires node { j < 256 }
        ensures first { self.new.first ≡ set self.old.first j i }
        ensures next { self.new.next ≡ set self.old.next i (get_or self.old.first j 0) }
    {
        self.next[i] = self.first[j];
        self.first[j] = i;
    }

    // The links of node j, written from a place on. The answer is the place behind them.
    pub fn write(&self, j: usize, links: &mut [u32; 768], at: usize) -> usize
        requires rising { Rising self.now.next }
        requires node { j < 256 }
        requires room { at + length (linked 384 self.now.next (get_or self.now.first j 0)) ≤ 768 }
        ensures value { result ≡ at + length (linked 384 self.now.next (get_or self.now.first j 0)) }
        ensures links_after { links.new ≡ sets links.old at (linked 384 self.now.next (get_or self.now.first j 0)) }
    {
        let mut l = self.first[j];
        let mut place = at;
        while l < 384 {
            links[place] = l as u32;
            place += 1;
            l = self.next[l];
        }
        place
    }
}

// The first n links of a table, by their ends and by their starts. The last comes first, so that each is put before those that come after it.
pub fn chain_links(table: &[Link; 384], n: usize) -> (Chain, Chain)
    requires { EndsInside table.now n }
    ensures into { Chains (end_in table.now) n result.0.first result.0.next }
    ensures out { Chains (start_in table.now) n result.1.first result.1.next }
{
    let mut into = Chain::empty();
    let mut out = Chain::empty();
    for i in (0..n).rev() {
        into.put(i, table[i].end);
        out.put(i, table[i].start);
    }
    (into, out)
}
