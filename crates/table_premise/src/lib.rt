#![tactic(auto)]
// What a premise has to satisfy (kind 8): its value's range (number 5) and its index (number 6).
ghost use Rattle.std.specs.Prelude.{◌≡◌};
ghost use Rattle.table_premise.specs.Records.{value_ok, premise_ok, premise_indices_ok};

use model::{ConditionValue, Premise, RuleConditionTarget};
use table_ranges::{premise_number_ok, status_ok, time_ok};

#[tactic(auto, unfolding(crate::specs::Records::value_ok))]
fn value_ok(value: ConditionValue) -> bool
    ensures { result ≡ value_ok value }
{
    match value {
        ConditionValue::Number(x) => premise_number_ok(x),
        ConditionValue::Status(s) => status_ok(s),
        ConditionValue::Time(t) => time_ok(t),
    }
}

#[tactic(auto, unfolding(crate::specs::Records::premise_ok))]
pub fn premise_ok(q: Premise) -> bool
    ensures { result ≡ premise_ok q }
{
    value_ok(q.value)
}

#[tactic(auto, unfolding(crate::specs::Records::premise_indices_ok))]
pub fn premise_indices_ok(nodes: usize, links: usize, q: Premise) -> bool
    ensures { result ≡ premise_indices_ok nodes links q.target }
{
    match q.target {
        RuleConditionTarget::Node(i, _) | RuleConditionTarget::Tank(i, _) => i < nodes,
        RuleConditionTarget::Link(i, _) => i < links,
        RuleConditionTarget::System(_) => true,
    }
}
