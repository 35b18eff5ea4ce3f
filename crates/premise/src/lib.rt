#![tactic(auto)]
// A premise of the project on the state: which node and link it looks at, and the demand of the whole system.
ghost use Rattle.std.specs.Prelude.{◌≡◌, ◌<◌};
ghost use Rattle.tables.specs.Fit.{TablesFit};
ghost use Rattle.premise.specs.Premise.{looked_node, looked_link, total_demand, premise_truth_at};

use clock::clock_time;
use model::*;
use rule::{System, premise_truth};

// The node that a premise looks at; 0 where it looks at none.
fn looked_node(target: RuleConditionTarget) -> usize
    ensures { result ≡ looked_node target }
{
    match target {
        RuleConditionTarget::Node(i, _) | RuleConditionTarget::Tank(i, _) => i,
        _ => 0,
    }
}

// The link that a premise looks at; 0 where it looks at none.
fn looked_link(target: RuleConditionTarget) -> usize
    ensures { result ≡ looked_link target }
{
    match target {
        RuleConditionTarget::Link(i, _) => i,
        _ => 0,
    }
}

// Every node's demand, added up in order.
fn total_demand(p: Project, s: State) -> f64
    requires { TablesFit p }
    ensures { result ≡ total_demand p s }
{
    let n = p.counts.nodes;
    let mut total = 0.0;
    for i in 0..n {
        total += s.nodes[i].demand;
    }
    total
}

// The truth of the premise at an index.
pub fn premise_truth_at(p: Project, s: State, i: usize) -> bool
    requires tables_fit { TablesFit p }
    requires i_lt_premises { i < p.counts.premises }
    ensures { result ≡ premise_truth_at p s i }
{
    let time = s.clock.instant;
    let system = System {
        demand: total_demand(p, s),
        time,
        clock: clock_time(p.options.start_clock, time),
    };
    let q = p.premises[i];
    let target = q.target;
    let n = looked_node(target);
    let l = looked_link(target);
    premise_truth(q, p.nodes[n], s.nodes[n], s.links[l], system)
}
