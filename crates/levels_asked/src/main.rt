#![tactic(auto)]
// Asks for times to levels. Standard input has a count of questions and the questions, of seven numbers each: a tank's elevation, least and greatest
// level and diameter, its head, a target level and its demand. Each line has the time to the target, the same as a level control has it, and the time to
// full or empty. `compare/rust/levels_asked.py` makes the input; what has to come out is the Rust's.
use control::candidate;
use model::{ControlCondition, Node, NodeState, NodeType};
use number::from_words;
use reach::{Reach, reach_of};
use replay_input::read_full;
use std::io;
use std::io::Read;
use tank::{CubicFeetPerSecond, Feet, Tank};
use words::word_at;

fn print_reach(rt: &impl Print, reach: Reach) -> io::Result<()> {
    match reach {
        Reach::Arrived => rt.print("arrived"),
        Reach::Seconds(n) => rt.print(n),
        Reach::Never => rt.print("never"),
    }
}

fn answer(rt: &impl Print, t: Tank, head: f64, target: f64, demand: f64) -> io::Result<()> {
    let level = Feet(head - t.elevation.0);
    let flow = CubicFeetPerSecond(demand);
    let node = Node {
        kind: NodeType::Tank(t),
    };
    let state = NodeState {
        head,
        demand,
        demand_flow: 0.0,
    };
    let control = ControlCondition::HighLevel { tank: 0, target };
    print_reach(
        rt,
        reach_of(t.time_to_reach_level(level, Feet(target), flow)),
    )?;
    rt.print(" ")?;
    print_reach(rt, reach_of(candidate(control, node, state, 0, 0)))?;
    rt.print(" ")?;
    print_reach(rt, reach_of(t.time_to_fill_or_drain(level, flow)))?;
    rt.print("\n")
}

// The number of eight bytes that has so many before it.
fn number_at(bytes: &[u8], i: u8) -> f64 {
    let at = (i as usize) * 8;
    from_words(word_at(bytes, at), word_at(bytes, at + 4))
}

fn answer_next<R: Read>(from: &mut R, rt: &impl Print) -> io::Result<()> {
    let mut bytes = [0u8; 56];
    read_full(from, &mut bytes)?;
    let tank = Tank {
        elevation: Feet(number_at(&bytes, 0)),
        initial_level: Feet(0.0),
        min_level: Feet(number_at(&bytes, 1)),
        max_level: Feet(number_at(&bytes, 2)),
        diameter: Feet(number_at(&bytes, 3)),
        overflow: false,
    };
    answer(
        rt,
        tank,
        number_at(&bytes, 4),
        number_at(&bytes, 5),
        number_at(&bytes, 6),
    )
}

fn answer_all<R: Read>(from: &mut R, rt: &impl Print, n: u32) -> io::Result<()> {
    for _ in 0..n {
        answer_next(from, rt)?;
    }
    Ok(())
}

fn main(rt: HostRuntime) -> io::Result<()> {
    let mut from = rt.stdin();
    let mut bytes = [0u8; 4];
    read_full(&mut from, &mut bytes)?;
    answer_all(&mut from, &rt, word_at(&bytes, 0))
}
