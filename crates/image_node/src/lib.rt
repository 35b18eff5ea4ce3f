#![tactic(auto)]
// What the payload of a node says (kinds 3, 4 and 5), and the first of numbers 4, 5 and 6 that it breaks.
ghost use Rattle.std.specs.Prelude.{◌≡◌, ◌≤◌};
ghost use Rattle.image_node.specs.Entries.{node_entry, reservoir_of, reservoir_entry, tank_of, tank_entry, demand_of, demands_of, junction_of, junction_entry};

use image_entry::{Entry, Fault, check, number, pattern_index_of, word};
use model::{Counts, Demand, Demands, Junction, Node, NodeType, Reservoir};
use table_node::{node_indices_ok, node_ok};
use tank::{Feet, Tank};

// A node's entry, where the test of its flag came out as `flag`.
#[tactic(auto, unfolding(crate::specs::Entries::node_entry, image_entry::specs::Entries::passed))]
fn node_entry(flag: bool, n: Node, c: Counts) -> Result<Entry, Fault>
    ensures { result ≡ node_entry flag n c }
{
    check(c.nodes < 256, Fault::Count)?;
    check(flag & node_ok(n), Fault::Word)?;
    check(node_indices_ok(c.patterns, n), Fault::Index)?;
    Ok(Entry::Node(n))
}

#[tactic(auto, unfolding(crate::specs::Entries::reservoir_of))]
fn reservoir_of(p: &[u32]) -> Reservoir
    ensures { result ≡ reservoir_of p.now }
{
    Reservoir {
        elevation: number(p, 0),
        head_pattern: pattern_index_of(word(p, 2)),
    }
}

#[tactic(auto, unfolding(crate::specs::Entries::reservoir_entry))]
pub fn reservoir_entry(p: &[u32], c: Counts) -> Result<Entry, Fault>
    ensures { result ≡ reservoir_entry p.now c }
{
    let kind = NodeType::Reservoir(reservoir_of(p));
    node_entry(true, Node { kind }, c)
}

#[tactic(auto, unfolding(crate::specs::Entries::tank_of))]
fn tank_of(p: &[u32]) -> Tank
    ensures { result ≡ tank_of p.now }
{
    Tank {
        elevation: Feet(number(p, 0)),
        initial_level: Feet(number(p, 2)),
        min_level: Feet(number(p, 4)),
        max_level: Feet(number(p, 6)),
        diameter: Feet(number(p, 8)),
        overflow: word(p, 10) == 1,
    }
}

#[tactic(auto, unfolding(crate::specs::Entries::tank_entry))]
pub fn tank_entry(p: &[u32], c: Counts) -> Result<Entry, Fault>
    ensures { result ≡ tank_entry p.now c }
{
    let kind = NodeType::Tank(tank_of(p));
    node_entry(word(p, 10) <= 1, Node { kind }, c)
}

// The demand whose words begin at a place.
#[tactic(auto, unfolding(crate::specs::Entries::demand_of))]
fn demand_of(p: &[u32], i: usize) -> Demand
    requires { i ≤ 12 }
    ensures { result ≡ demand_of p.now i }
{
    Demand {
        base: number(p, i),
        pattern: pattern_index_of(word(p, i + 2)),
    }
}

// The demands of a junction, by the size of its payload.
#[tactic(auto, unfolding(crate::specs::Entries::demands_of))]
fn demands_of(p: &[u32]) -> Demands
    ensures { result ≡ demands_of p.now }
{
    match p.len() {
        0..=5 => Demands::NoDemand,
        6..=8 => Demands::One(demand_of(p, 3)),
        9..=11 => Demands::Two(demand_of(p, 3), demand_of(p, 6)),
        12..=14 => Demands::Three(demand_of(p, 3), demand_of(p, 6), demand_of(p, 9)),
        _ => Demands::Four(
            demand_of(p, 3),
            demand_of(p, 6),
            demand_of(p, 9),
            demand_of(p, 12),
        ),
    }
}

#[tactic(auto, unfolding(crate::specs::Entries::junction_of))]
fn junction_of(p: &[u32]) -> Junction
    ensures { result ≡ junction_of p.now }
{
    Junction {
        disabled: word(p, 0) == 1,
        elevation: number(p, 1),
        demands: demands_of(p),
    }
}

#[tactic(auto, unfolding(crate::specs::Entries::junction_entry))]
pub fn junction_entry(p: &[u32], c: Counts) -> Result<Entry, Fault>
    ensures { result ≡ junction_entry p.now c }
{
    let kind = NodeType::Junction(junction_of(p));
    node_entry(word(p, 0) <= 1, Node { kind }, c)
}
