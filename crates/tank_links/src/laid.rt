// The table laid out.
ghost use Rattle.std.specs.Prelude.{◌≡◌, ◌≤◌, suc, length, replicate};
ghost use Rattle.std.proofs.lemmas.List.Edits.{sets};
ghost use Rattle.run_tables.specs.Held.{Distinct};
ghost use Rattle.run_tables.specs.Tanks.{tank_nodes};
ghost use Rattle.tables.specs.Fit.{TablesFit};
ghost use Rattle.tank_links.specs.Groups.{joined, listed, begins_of, middles_of, entries_of};
ghost use Rattle.tank_links.specs.Laid.{EndsInside, group_in, begin_in, middle_in};

use crate::chains::chain_links;
use model::*;
use run_tables::{NodeList, tank_nodes};

// The table: where each tank's links begin, and behind the last; where those out of it begin; and the links.
#[repr(C)]
#[derive(Clone, Copy)]
pub struct LinkGroups {
    pub begins: [u32; 257],
    pub middles: [u32; 256],
    pub links: [u32; 768],
}

impl LinkGroups {
    // Of 0, to lay a table out in.
    pub fn empty() -> LinkGroups
        ensures begins { result.begins ≡ replicate 257 0 }
        ensures middles { result.middles ≡ replicate 256 0 }
        ensures links { result.links ≡ replicate 768 0 }
    {
        LinkGroups {
            begins: [0; 257],
            middles: [0; 256],
            links: [0; 768],
        }
    }
}

// The links of a table at tanks that are given. What lies past the places and entries stays as it was.
pub fn lay_groups(table: &[Link; 384], count: usize, tanks: &NodeList, groups: &mut LinkGroups)
    requires ends_inside { EndsInside table.now count }
    requires distinct { Distinct tanks.now.nodes tanks.now.count }
    ensures begins_after { groups.new.begins ≡ sets groups.old.begins 0 (listed (begin_in table.now count tanks.now.nodes) (suc tanks.now.count)) }
    ensures middles_after { groups.new.middles ≡ sets groups.old.middles 0 (listed (middle_in table.now count tanks.now.nodes) tanks.now.count) }
    ensures links_after { groups.new.links ≡ sets groups.old.links 0 (joined (group_in table.now count tanks.now.nodes) tanks.now.count) }
{
    let (into, out) = chain_links(table, count);
    let mut at = 0;
    for k in 0..tanks.count {
        let j = tanks.nodes[k] as usize;
        groups.begins[k] = at as u32;
        let middle = into.write(j, &mut groups.links, at);
        groups.middles[k] = middle as u32;
        at = out.write(j, &mut groups.links, middle);
    }
    groups.begins[tanks.count] = at as u32;
}

// The table of a project's tanks, and how many they are.
pub fn lay_out(p: Project, groups: &mut LinkGroups) -> usize
    requires { TablesFit p }
    ensures value { result ≡ length (tank_nodes p) }
    ensures few { result ≤ 256 }
    ensures begins_after { groups.new.begins ≡ sets groups.old.begins 0 (begins_of p) }
    ensures middles_after { groups.new.middles ≡ sets groups.old.middles 0 (middles_of p) }
    ensures links_after { groups.new.links ≡ sets groups.old.links 0 (entries_of p) }
{
    let tanks = tank_nodes(&p.nodes, p.counts.nodes);
    lay_groups(&p.links, p.counts.links, &tanks, groups);
    tanks.count
}
