#![tactic(auto)]
// What a node has to satisfy (kinds 3, 4 and 5): its numbers' ranges (number 5) and its patterns' indices (number 6).
ghost use Rattle.std.specs.Prelude.{◌≡◌};
ghost use Rattle.table_node.specs.Records.{tank_ok, demand_ok, demands_ok, node_ok, demand_index_ok, demands_indices_ok, node_indices_ok};

use model::{Demand, Demands, Node, NodeType};
use table_ranges::{diameter_ok, feet_ok, number_ok, pattern_index_ok};
use tank::Tank;

#[tactic(auto, unfolding(crate::specs::Records::tank_ok))]
fn tank_ok(t: Tank) -> bool
    ensures { result ≡ tank_ok t }
{
    feet_ok(t.elevation.0)
        & feet_ok(t.initial_level.0)
        & feet_ok(t.min_level.0)
        & feet_ok(t.max_level.0)
        & (t.min_level.0 <= t.max_level.0)
        & diameter_ok(t.diameter.0)
}

#[tactic(auto, unfolding(crate::specs::Records::demand_ok))]
fn demand_ok(d: Demand) -> bool
    ensures { result ≡ demand_ok d }
{
    number_ok(d.base)
}

#[tactic(auto, unfolding(crate::specs::Records::demands_ok))]
fn demands_ok(demands: Demands) -> bool
    ensures { result ≡ demands_ok demands }
{
    match demands {
        Demands::NoDemand => true,
        Demands::One(a) => demand_ok(a),
        Demands::Two(a, b) => demand_ok(a) & demand_ok(b),
        Demands::Three(a, b, c) => demand_ok(a) & demand_ok(b) & demand_ok(c),
        Demands::Four(a, b, c, d) => demand_ok(a) & demand_ok(b) & demand_ok(c) & demand_ok(d),
    }
}

#[tactic(auto, unfolding(crate::specs::Records::node_ok))]
pub fn node_ok(n: Node) -> bool
    ensures { result ≡ node_ok n.kind }
{
    match n.kind {
        NodeType::Reservoir(r) => feet_ok(r.elevation),
        NodeType::Tank(t) => tank_ok(t),
        NodeType::Junction(j) => feet_ok(j.elevation) & demands_ok(j.demands),
    }
}

#[tactic(auto, unfolding(crate::specs::Records::demand_index_ok))]
fn demand_index_ok(patterns: usize, d: Demand) -> bool
    ensures { result ≡ demand_index_ok patterns d }
{
    pattern_index_ok(patterns, d.pattern)
}

#[tactic(auto, unfolding(crate::specs::Records::demands_indices_ok))]
fn demands_indices_ok(patterns: usize, demands: Demands) -> bool
    ensures { result ≡ demands_indices_ok patterns demands }
{
    match demands {
        Demands::NoDemand => true,
        Demands::One(a) => demand_index_ok(patterns, a),
        Demands::Two(a, b) => demand_index_ok(patterns, a) & demand_index_ok(patterns, b),
        Demands::Three(a, b, c) => {
            demand_index_ok(patterns, a)
                & demand_index_ok(patterns, b)
                & demand_index_ok(patterns, c)
        }
        Demands::Four(a, b, c, d) => {
            demand_index_ok(patterns, a)
                & demand_index_ok(patterns, b)
                & demand_index_ok(patterns, c)
                & demand_index_ok(patterns, d)
        }
    }
}

#[tactic(auto, unfolding(crate::specs::Records::node_indices_ok))]
pub fn node_indices_ok(patterns: usize, n: Node) -> bool
    ensures { result ≡ node_indices_ok patterns n.kind }
{
    match n.kind {
        NodeType::Reservoir(r) => pattern_index_ok(patterns, r.head_pattern),
        NodeType::Tank(_) => true,
        NodeType::Junction(j) => demands_indices_ok(patterns, j.demands),
    }
}
