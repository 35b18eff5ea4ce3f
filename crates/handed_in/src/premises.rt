// One word of a premise changed.
use crate::change::Change;
use model::{
    ConditionValue, LinkAttribute, NodeAttribute, Premise, RuleConditionTarget, SystemAttribute,
    TankAttribute,
};
use number::from_words;

// The attributes 0 to 11 of an image.
fn target_of(attribute: u32, i: usize) -> RuleConditionTarget {
    match attribute {
        0 => RuleConditionTarget::Node(i, NodeAttribute::Demand),
        1 => RuleConditionTarget::Node(i, NodeAttribute::Head),
        2 => RuleConditionTarget::Node(i, NodeAttribute::Pressure),
        3 => RuleConditionTarget::Tank(i, TankAttribute::Level),
        4 => RuleConditionTarget::Tank(i, TankAttribute::FillTime),
        5 => RuleConditionTarget::Tank(i, TankAttribute::DrainTime),
        6 => RuleConditionTarget::Link(i, LinkAttribute::Flow),
        7 => RuleConditionTarget::Link(i, LinkAttribute::Status),
        8 => RuleConditionTarget::Link(i, LinkAttribute::Setting),
        9 => RuleConditionTarget::System(SystemAttribute::Demand),
        10 => RuleConditionTarget::System(SystemAttribute::Time),
        _ => RuleConditionTarget::System(SystemAttribute::ClockTime),
    }
}

// What it looks at: the low word is the index, the high word the attribute.
fn changed_target(old: RuleConditionTarget, c: Change) -> RuleConditionTarget {
    if c.what == 52 {
        target_of(c.high, c.low as usize)
    } else {
        old
    }
}

// The value, of whichever sort it was.
fn changed_value(old: ConditionValue, c: Change) -> ConditionValue {
    match c.what {
        53 => ConditionValue::Number(from_words(c.low, c.high)),
        54 => ConditionValue::Status(c.low),
        55 => ConditionValue::Time(c.low),
        _ => old,
    }
}

pub fn changed_premise(q: Premise, c: Change) -> Premise {
    Premise {
        target: changed_target(q.target, c),
        value: changed_value(q.value, c),
        ..q
    }
}
