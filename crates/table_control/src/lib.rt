#![tactic(auto)]
// What a control has to satisfy (kind 7): its times, status and numbers' ranges (number 5) and the indices of its node and link (number 6).
ghost use Rattle.std.specs.Prelude.{◌≡◌};
ghost use Rattle.table_control.specs.Records.{condition_ok, status_action_ok, setting_action_ok, control_ok, condition_index_ok, control_indices_ok};

use model::{Control, ControlCondition};
use table_ranges::{clock_ok, feet_ok, number_ok, status_ok, time_ok};

#[tactic(auto, unfolding(crate::specs::Records::condition_ok))]
fn condition_ok(condition: ControlCondition) -> bool
    ensures { result ≡ condition_ok condition }
{
    match condition {
        ControlCondition::HighPressure { target, .. }
        | ControlCondition::LowPressure { target, .. }
        | ControlCondition::HighLevel { target, .. }
        | ControlCondition::LowLevel { target, .. } => feet_ok(target),
        ControlCondition::Time { seconds } => time_ok(seconds),
        ControlCondition::ClockTime { seconds } => clock_ok(seconds),
    }
}

#[tactic(auto, unfolding(crate::specs::Records::status_action_ok))]
fn status_action_ok(status: Option<u32>) -> bool
    ensures { result ≡ status_action_ok status }
{
    status.is_none_or(|s| status_ok(s))
}

#[tactic(auto, unfolding(crate::specs::Records::setting_action_ok))]
fn setting_action_ok(setting: Option<f64>) -> bool
    ensures { result ≡ setting_action_ok setting }
{
    setting.is_none_or(|x| number_ok(x))
}

#[tactic(auto, unfolding(crate::specs::Records::control_ok))]
pub fn control_ok(c: Control) -> bool
    ensures { result ≡ control_ok c }
{
    condition_ok(c.condition) & status_action_ok(c.status) & setting_action_ok(c.setting)
}

#[tactic(auto, unfolding(crate::specs::Records::condition_index_ok))]
fn condition_index_ok(nodes: usize, condition: ControlCondition) -> bool
    ensures { result ≡ condition_index_ok nodes condition }
{
    match condition {
        ControlCondition::HighPressure { node, .. }
        | ControlCondition::LowPressure { node, .. }
        | ControlCondition::HighLevel { tank: node, .. }
        | ControlCondition::LowLevel { tank: node, .. } => node < nodes,
        ControlCondition::Time { .. } | ControlCondition::ClockTime { .. } => true,
    }
}

#[tactic(auto, unfolding(crate::specs::Records::control_indices_ok))]
pub fn control_indices_ok(nodes: usize, links: usize, c: Control) -> bool
    ensures { result ≡ control_indices_ok nodes links c }
{
    condition_index_ok(nodes, c.condition) & (c.link < links)
}
