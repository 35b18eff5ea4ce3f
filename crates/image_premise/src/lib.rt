#![tactic(auto)]
// What the payload of a premise says (kind 8), and the first of numbers 4, 5 and 6 that it breaks.
ghost use Rattle.std.specs.Prelude.{◌≡◌};
ghost use Rattle.image_premise.specs.Entries.{operator_of, node_attribute_of, tank_attribute_of, link_attribute_of, system_attribute_of, target_of, comparison_of, value_of, premise_of, premise_words_ok, premise_entry};

use image_entry::{Entry, Fault, check, word};
use model::{
    ConditionValue, Counts, LinkAttribute, NodeAttribute, Premise, RuleConditionOperator,
    RuleConditionTarget, SystemAttribute, TankAttribute,
};
use number::{ComparisonOperator, from_words};
use table_premise::{premise_indices_ok, premise_ok};

// kept: the codes stay numbers with no `TryFrom` that refuses, since `premise_of` gives each code a value and `premise_words_ok` judges the codes apart.
#[tactic(auto, unfolding(crate::specs::Entries::operator_of))]
fn operator_of(code: u32) -> RuleConditionOperator
    ensures { result ≡ operator_of code }
{
    match code {
        0 => RuleConditionOperator::Or,
        _ => RuleConditionOperator::And,
    }
}

#[tactic(auto, unfolding(crate::specs::Entries::node_attribute_of))]
fn node_attribute_of(code: u32) -> NodeAttribute
    ensures { result ≡ node_attribute_of code }
{
    match code {
        0 => NodeAttribute::Demand,
        1 => NodeAttribute::Head,
        _ => NodeAttribute::Pressure,
    }
}

#[tactic(auto, unfolding(crate::specs::Entries::tank_attribute_of))]
fn tank_attribute_of(code: u32) -> TankAttribute
    ensures { result ≡ tank_attribute_of code }
{
    match code {
        3 => TankAttribute::Level,
        4 => TankAttribute::FillTime,
        _ => TankAttribute::DrainTime,
    }
}

#[tactic(auto, unfolding(crate::specs::Entries::link_attribute_of))]
fn link_attribute_of(code: u32) -> LinkAttribute
    ensures { result ≡ link_attribute_of code }
{
    match code {
        6 => LinkAttribute::Flow,
        7 => LinkAttribute::Status,
        _ => LinkAttribute::Setting,
    }
}

#[tactic(auto, unfolding(crate::specs::Entries::system_attribute_of))]
fn system_attribute_of(code: u32) -> SystemAttribute
    ensures { result ≡ system_attribute_of code }
{
    match code {
        9 => SystemAttribute::Demand,
        10 => SystemAttribute::Time,
        _ => SystemAttribute::ClockTime,
    }
}

#[tactic(auto, unfolding(crate::specs::Entries::target_of))]
fn target_of(code: u32, n: u32) -> RuleConditionTarget
    ensures { result ≡ target_of code n }
{
    let index = n as usize;
    match code {
        0..=2 => RuleConditionTarget::Node(index, node_attribute_of(code)),
        3..=5 => RuleConditionTarget::Tank(index, tank_attribute_of(code)),
        6..=8 => RuleConditionTarget::Link(index, link_attribute_of(code)),
        _ => RuleConditionTarget::System(system_attribute_of(code)),
    }
}

#[tactic(auto, unfolding(crate::specs::Entries::comparison_of))]
fn comparison_of(code: u32) -> ComparisonOperator
    ensures { result ≡ comparison_of code }
{
    match code {
        0 => ComparisonOperator::Eq,
        1 => ComparisonOperator::Ne,
        2 => ComparisonOperator::Gt,
        3 => ComparisonOperator::Lt,
        4 => ComparisonOperator::Ge,
        _ => ComparisonOperator::Le,
    }
}

// A number by both words, a status or a time by the low one.
#[tactic(auto, unfolding(crate::specs::Entries::value_of))]
fn value_of(sort: u32, lo: u32, hi: u32) -> ConditionValue
    ensures { result ≡ value_of sort lo hi }
{
    match sort {
        0 => ConditionValue::Number(from_words(lo, hi)),
        1 => ConditionValue::Status(lo),
        _ => ConditionValue::Time(lo),
    }
}

#[tactic(auto, unfolding(crate::specs::Entries::premise_of))]
fn premise_of(p: &[u32]) -> Premise
    ensures { result ≡ premise_of p.now }
{
    Premise {
        operator: operator_of(word(p, 0)),
        target: target_of(word(p, 1), word(p, 2)),
        comparison: comparison_of(word(p, 3)),
        value: value_of(word(p, 4), word(p, 5), word(p, 6)),
    }
}

// Codes are known, and unused words are 0.
#[tactic(auto, unfolding(crate::specs::Entries::premise_words_ok))]
fn premise_words_ok(p: &[u32]) -> bool
    ensures { result ≡ premise_words_ok p.now }
{
    let code = word(p, 1);
    let sort = word(p, 4);
    (word(p, 0) <= 1)
        & (code <= 11)
        & (word(p, 3) <= 5)
        & (sort <= 2)
        & ((code <= 8) | (word(p, 2) == 0))
        & ((sort == 0) | (word(p, 6) == 0))
}

#[tactic(auto, unfolding(crate::specs::Entries::premise_entry, image_entry::specs::Entries::passed))]
pub fn premise_entry(p: &[u32], c: Counts) -> Result<Entry, Fault>
    ensures { result ≡ premise_entry p.now c }
{
    let q = premise_of(p);
    check(c.premises < 128, Fault::Count)?;
    check(premise_words_ok(p) & premise_ok(q), Fault::Word)?;
    check(premise_indices_ok(c.nodes, c.links, q), Fault::Index)?;
    Ok(Entry::Premise(q))
}
