// One word of a control changed.
use crate::change::Change;
use model::{Control, ControlCondition};
use number::from_words;

fn changed_condition(condition: ControlCondition, c: Change) -> ControlCondition {
    match condition {
        ControlCondition::HighPressure { node, target } => ControlCondition::HighPressure {
            node: c.index(46, node),
            target: c.number(47, target),
        },
        ControlCondition::LowPressure { node, target } => ControlCondition::LowPressure {
            node: c.index(46, node),
            target: c.number(47, target),
        },
        ControlCondition::HighLevel { tank, target } => ControlCondition::HighLevel {
            tank: c.index(46, tank),
            target: c.number(47, target),
        },
        ControlCondition::LowLevel { tank, target } => ControlCondition::LowLevel {
            tank: c.index(46, tank),
            target: c.number(47, target),
        },
        ControlCondition::Time { seconds } => ControlCondition::Time {
            seconds: c.word(48, seconds),
        },
        ControlCondition::ClockTime { seconds } => ControlCondition::ClockTime {
            seconds: c.word(48, seconds),
        },
    }
}

// The status, which the control had or had not.
fn changed_status(old: Option<u32>, c: Change) -> Option<u32> {
    if c.what == 50 { Some(c.low) } else { old }
}

// The setting, which the control had or had not.
fn changed_setting(old: Option<f64>, c: Change) -> Option<f64> {
    if c.what == 51 {
        Some(from_words(c.low, c.high))
    } else {
        old
    }
}

pub fn changed_control(x: Control, c: Change) -> Control {
    Control {
        condition: changed_condition(x.condition, c),
        link: c.index(49, x.link),
        status: changed_status(x.status, c),
        setting: changed_setting(x.setting, c),
    }
}
