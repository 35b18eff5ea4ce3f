// Every call asked on tables, a state and a table of the tanks' links, and its number printed.
use crate::groups::lay_out_number;
use calls::{LinkGroups, Refusal};
use model::*;
use std::io;
use stops_ahead::{NoStops, next_stop};

pub fn print(rt: &impl Print, n: u32) -> io::Result<()> {
    print!(rt; " {n}")
}

fn premise_number(a: Result<bool, Refusal>) -> u32 {
    a.map_or_else(|refusal| refusal.number(), |_| 0)
}

// The start, patterns, controls and a load without a word.
fn print_up_to_load(rt: &impl Print, p: Project, s: State) -> io::Result<()> {
    let start = calls::new_with_initial_values(p);
    print(rt, start.number)?;
    let patterns = calls::apply_patterns(p, s);
    print(rt, patterns.number)?;
    let controls = calls::apply_controls(p, s);
    print(rt, controls.number)?;
    let none: [u32; 1] = [0];
    let load = calls::take_load(p, s, &none);
    print(rt, load.number)
}

// The stop after the state's instant: 0, the number of a refusal, or `none` where the stops are not known beforehand.
fn print_stop(rt: &impl Print, a: Result<Option<u32>, NoStops>) -> io::Result<()> {
    match a {
        Ok(_) => print(rt, 0),
        Err(NoStops::Unforeseen) => rt.print(" none"),
        Err(NoStops::Refused(n)) => print(rt, n),
    }
}

// Closing, the pressure pass, premise 0, and the step by either clock.
fn print_after_load(rt: &impl Print, p: Project, s: State) -> io::Result<()> {
    let close = calls::update_tank_links(p, s);
    print(rt, close.number)?;
    let pressure = calls::apply_pressure_controls(p, s);
    print(rt, pressure.number)?;
    print(rt, premise_number(calls::premise_truth(p, s, 0)))?;
    let step = calls::next_hydraulic_timestep(p, s);
    print(rt, step.number)?;
    let slow = second_clock::step_by_seconds(p, s);
    print(rt, slow.number)
}

// Laying the table out, and closing by the one that is handed in.
fn print_by_table(rt: &impl Print, p: Project, s: State, t: &LinkGroups) -> io::Result<()> {
    print(rt, lay_out_number(p))?;
    let close = calls::update_tank_links_by(p, s, t);
    print(rt, close.number)
}

pub fn print_numbers(rt: &impl Print, p: Project, s: State, t: &LinkGroups) -> io::Result<()> {
    print_up_to_load(rt, p, s)?;
    print_after_load(rt, p, s)?;
    print_stop(rt, next_stop(p, s.clock.instant))?;
    print_by_table(rt, p, s, t)?;
    rt.print("\n")
}
