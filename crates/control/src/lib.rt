#![tactic(auto)]
// `control.rs` for one control, with the node that it watches and the link that it sets.
ghost use Rattle.std.specs.Prelude.{◌≡◌};
ghost use Rattle.control.specs.Controls.{watched, above, is_active, activate, level_time, candidate};
ghost use Rattle.control.specs.Named.{condition_target, condition_seconds};

use clock::{clock_candidate, time_candidate};
use model::*;
use number::constants::{H_TOL, L_TOL, MAX};
use tank::{CubicFeetPerSecond, Feet};

// A link's state after a control has acted on it, and whether its status or setting changed.
#[derive(Clone, Copy)]
pub struct Activated {
    pub state: LinkState,
    pub changed: bool,
}

// The node that a condition watches; 0 where it watches none.
pub fn watched(condition: ControlCondition) -> usize
    ensures { result ≡ watched condition }
{
    match condition {
        ControlCondition::HighPressure { node, .. }
        | ControlCondition::LowPressure { node, .. }
        | ControlCondition::HighLevel { tank: node, .. }
        | ControlCondition::LowLevel { tank: node, .. } => node,
        ControlCondition::Time { .. } | ControlCondition::ClockTime { .. } => 0,
    }
}

// The target that a condition names; 0 where it names none.
#[tactic(auto, unfolding(number::specs::Constants::decimal))]
pub fn condition_target(condition: ControlCondition) -> f64
    ensures { result ≡ condition_target condition }
{
    match condition {
        ControlCondition::HighPressure { target, .. }
        | ControlCondition::LowPressure { target, .. }
        | ControlCondition::HighLevel { target, .. }
        | ControlCondition::LowLevel { target, .. } => target,
        ControlCondition::Time { .. } | ControlCondition::ClockTime { .. } => 0.0,
    }
}

// The seconds that a condition names; 0 where it names none.
pub fn condition_seconds(condition: ControlCondition) -> u32
    ensures { result ≡ condition_seconds condition }
{
    match condition {
        ControlCondition::Time { seconds } | ControlCondition::ClockTime { seconds } => seconds,
        _ => 0,
    }
}

// How far a node's head stands above its elevation and a target.
fn above(node: Node, state: NodeState, target: f64) -> f64
    ensures { result ≡ above node state target }
{
    state.head - node.elevation() - target
}

// Whether a condition holds, from the node that it watches.
pub fn is_active(
    condition: ControlCondition,
    node: Node,
    state: NodeState,
    time: u32,
    clock: u64,
) -> bool
    ensures { result ≡ is_active condition node state time clock }
{
    match condition {
        ControlCondition::HighPressure { target, .. } => above(node, state, target) >= -H_TOL,
        ControlCondition::LowPressure { target, .. } => above(node, state, target) <= H_TOL,
        ControlCondition::HighLevel { target, .. } => {
            node.is_tank() & (above(node, state, target) >= -L_TOL)
        }
        ControlCondition::LowLevel { target, .. } => {
            node.is_tank() & (above(node, state, target) <= L_TOL)
        }
        ControlCondition::Time { seconds } => seconds == time,
        ControlCondition::ClockTime { seconds } => u64::from(seconds) == clock,
    }
}

// What a control makes of its link's state.
pub fn activate(control: Control, link: Link, state: LinkState) -> Activated
    ensures { result ≡ activate control link state }
{
    if let Some(status) = control.status {
        return Activated {
            state: LinkState {
                flow: link.initial_flow(),
                status,
                ..state
            },
            changed: state.status != status,
        };
    }
    if let Some(setting) = control.setting {
        return Activated {
            state: LinkState {
                flow: link.initial_flow(),
                setting,
                ..state
            },
            changed: state.setting != setting,
        };
    }
    Activated {
        state,
        changed: false,
    }
}

// The seconds until a tank is at a target level; MAX where the node is no tank.
fn level_time(node: Node, state: NodeState, target: f64) -> u64
    ensures { result ≡ level_time node.kind state target }
{
    let NodeType::Tank(t) = node.kind else {
        return MAX;
    };
    let level = Feet(state.head - t.elevation.0);
    t.time_to_reach_level(level, Feet(target), CubicFeetPerSecond(state.demand))
}

// The seconds until a control next calls for a step to end, from the node that it watches.
pub fn candidate(
    condition: ControlCondition,
    node: Node,
    state: NodeState,
    time: u32,
    clock: u64,
) -> u64
    ensures { result ≡ candidate condition node state time clock }
{
    match condition {
        ControlCondition::HighPressure { .. } | ControlCondition::LowPressure { .. } => MAX,
        ControlCondition::HighLevel { target, .. } | ControlCondition::LowLevel { target, .. } => {
            level_time(node, state, target)
        }
        ControlCondition::Time { seconds } => time_candidate(seconds, time),
        ControlCondition::ClockTime { seconds } => clock_candidate(seconds, clock),
    }
}
