#![tactic(auto)]
// Document 01's instants, run on the compiled code: a line each, its answer behind it. A number is shown by the bits of its f64.
use clock::{Times, clock_time, smaller_positive};
use control::candidate;
use model::*;
use number::ComparisonOperator;
use number::constants::MAX;
use std::io;
use tank::{CubicFeet, CubicFeetPerSecond, Feet, Tank};

fn seconds(rt: &impl Print, what: &str, n: u64) -> io::Result<()> {
    println!(rt; "{what}: {n}")
}

fn bits(rt: &impl Print, what: &str, x: f64) -> io::Result<()> {
    println!(rt; "{what}: {:016x}", number::to_bits(x))
}

fn truth(rt: &impl Print, what: &str, b: bool) -> io::Result<()> {
    println!(rt; "{what}: {b}")
}

// "Tank T: elevation 100, least 0, greatest 12, diameter 20."
fn tank_t() -> Tank {
    Tank {
        elevation: Feet(100.0),
        initial_level: Feet(10.0),
        min_level: Feet(0.0),
        max_level: Feet(12.0),
        diameter: Feet(20.0),
        overflow: false,
    }
}

fn fill_or_drain(level: f64, flow: f64) -> u64 {
    tank_t().time_to_fill_or_drain(Feet(level), CubicFeetPerSecond(flow))
}

fn reach(level: f64, target: f64, flow: f64) -> u64 {
    tank_t().time_to_reach_level(Feet(level), Feet(target), CubicFeetPerSecond(flow))
}

fn head_after(demand: f64) -> f64 {
    let head = tank_t().head_after(CubicFeetPerSecond(demand), 3600, Feet(110.0));
    head.0
}

fn tanks(rt: &impl Print) -> io::Result<()> {
    seconds(rt, "level 10, flow 1", fill_or_drain(10.0, 1.0))?;
    seconds(rt, "level 10, flow 2", fill_or_drain(10.0, 2.0))?;
    seconds(rt, "level 12, flow -1, to least", reach(12.0, 0.0, -1.0))?;
    seconds(
        rt,
        "level 12, flow -1, to greatest",
        reach(12.0, 12.0, -1.0),
    )?;
    seconds(
        rt,
        "level 12, flow -1, fill or drain",
        fill_or_drain(12.0, -1.0),
    )?;
    seconds(rt, "level 11.999, flow 1", fill_or_drain(11.999, 1.0))?;
    seconds(rt, "level 11.998, flow 1", fill_or_drain(11.998, 1.0))?;
    seconds(rt, "level 11.998, flow 2", fill_or_drain(11.998, 2.0))?;
    bits(rt, "head 110, demand 1, 3600 s", head_after(1.0))?;
    bits(rt, "head 110, demand -1, 3600 s", head_after(-1.0))
}

// A control's candidate. The node does not matter to a time.
fn due(condition: ControlCondition, time: u32, clock: u64) -> u64 {
    let state = NodeState {
        head: 0.0,
        demand: 0.0,
        demand_flow: 0.0,
    };
    let junction = Junction {
        disabled: false,
        elevation: 0.0,
        demands: Demands::NoDemand,
    };
    let node = Node {
        kind: NodeType::Junction(junction),
    };
    candidate(condition, node, state, time, clock)
}

fn controls(rt: &impl Print) -> io::Result<()> {
    let at_clock = due(ControlCondition::ClockTime { seconds: 1800 }, 1800, 1800);
    seconds(rt, "clock control 1800 at 1800", at_clock)?;
    seconds(rt, "the same, dropped", smaller_positive(at_clock, MAX))?;
    seconds(
        rt,
        "clock control 1800 at 3600",
        due(ControlCondition::ClockTime { seconds: 1800 }, 3600, 3600),
    )?;
    seconds(
        rt,
        "time control 900 at 900",
        due(ControlCondition::Time { seconds: 900 }, 900, 900),
    )?;
    seconds(
        rt,
        "time control 900 at 901",
        due(ControlCondition::Time { seconds: 900 }, 901, 901),
    )?;
    seconds(rt, "start clock 82800, time 7200", clock_time(82800, 7200))
}

fn comparisons(rt: &impl Print) -> io::Result<()> {
    truth(
        rt,
        "0.0005 = 0",
        ComparisonOperator::Eq.compare_f64(0.0005, 0.0),
    )?;
    truth(
        rt,
        "0.0005 >= 0",
        ComparisonOperator::Ge.compare_f64(0.0005, 0.0),
    )?;
    truth(
        rt,
        "0.0005 <= 0",
        ComparisonOperator::Le.compare_f64(0.0005, 0.0),
    )?;
    truth(
        rt,
        "0.0005 <> 0",
        ComparisonOperator::Ne.compare_f64(0.0005, 0.0),
    )?;
    truth(
        rt,
        "0.0005 > 0",
        ComparisonOperator::Gt.compare_f64(0.0005, 0.0),
    )?;
    truth(
        rt,
        "0.0005 < 0",
        ComparisonOperator::Lt.compare_f64(0.0005, 0.0),
    )
}

fn pattern_row(rt: &impl Print) -> io::Result<()> {
    let multipliers = [0.5, 1.5];
    let at = period(3600, 3600, 7200);
    bits(
        rt,
        "pattern start and timestep 3600, time 7200",
        multiplier_at(&multipliers, at),
    )
}

// "Fast path, report 7,200, duration 10,000: 7,200 then 2,800."
fn fast_path(rt: &impl Print) -> io::Result<()> {
    let times = Times {
        duration: 10000,
        hydraulic: 0,
        report: 7200,
        pattern: 3600,
        start_clock: 0,
        fast: true,
    };
    seconds(rt, "fast path at 0", times.step_length(MAX, MAX, 0) as u64)?;
    seconds(
        rt,
        "fast path at 7200",
        times.step_length(MAX, MAX, 7200) as u64,
    )?;
    seconds(
        rt,
        "fast path at 10000",
        times.step_length(MAX, MAX, 10000) as u64,
    )
}

// "gap / flow of 0.49999999999999994 gives 0; flow 5e-324 with gap 1 gives MAX."
fn gaps(rt: &impl Print) -> io::Result<()> {
    let below_half = tank::gap_time(CubicFeet(0.9999999999999999), CubicFeetPerSecond(2.0));
    seconds(rt, "gap / flow 0.49999999999999994", below_half)?;
    let never = tank::gap_time(CubicFeet(1.0), CubicFeetPerSecond(5e-324));
    seconds(rt, "gap 1, flow 5e-324", never)
}

// The worked example's steps: T alone does not move, its demand being 0.
fn worked_example(rt: &impl Print) -> io::Result<()> {
    let times = Times {
        duration: 10000,
        hydraulic: 5000,
        report: 7200,
        pattern: 3600,
        start_clock: 0,
        fast: false,
    };
    let tanks = fill_or_drain(10.0, 0.0);
    seconds(
        rt,
        "worked example at 0",
        times.step_length(tanks, MAX, 0) as u64,
    )?;
    seconds(
        rt,
        "worked example at 3600",
        times.step_length(tanks, MAX, 3600) as u64,
    )?;
    seconds(
        rt,
        "worked example at 7200",
        times.step_length(tanks, MAX, 7200) as u64,
    )
}

fn main(rt: HostRuntime) -> io::Result<()> {
    tanks(&rt)?;
    controls(&rt)?;
    comparisons(&rt)?;
    pattern_row(&rt)?;
    fast_path(&rt)?;
    gaps(&rt)?;
    worked_example(&rt)
}
