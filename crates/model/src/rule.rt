// The types of `rule.rs`. A premise is its `RuleCondition`.
use number::ComparisonOperator;

#[derive(Clone, Copy)]
pub enum NodeAttribute {
    Demand,
    Head,
    Pressure,
}

#[derive(Clone, Copy)]
pub enum TankAttribute {
    Level,
    FillTime,
    DrainTime,
}

#[derive(Clone, Copy)]
pub enum LinkAttribute {
    Flow,
    Status,
    Setting,
}

#[derive(Clone, Copy)]
pub enum SystemAttribute {
    Demand,
    Time,
    ClockTime,
}

// What a premise looks at: a node or a link by its index, or the system.
#[derive(Clone, Copy)]
pub enum RuleConditionTarget {
    Node(usize, NodeAttribute),
    Tank(usize, TankAttribute),
    Link(usize, LinkAttribute),
    System(SystemAttribute),
}

#[derive(Clone, Copy)]
pub enum ConditionValue {
    Number(f64),
    Status(u32),
    Time(u32),
}

#[derive(Clone, Copy)]
pub enum RuleConditionOperator {
    Or,
    And,
}

#[derive(Clone, Copy)]
pub struct Premise {
    pub operator: RuleConditionOperator,
    pub target: RuleConditionTarget,
    pub comparison: ComparisonOperator,
    pub value: ConditionValue,
}
