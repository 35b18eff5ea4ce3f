#![tactic(auto)]
// The tests of number 10 that speak of one thing of the tables: the counts, a pattern, a record against the counts of what it names.
ghost use Rattle.std.specs.Prelude.{◌≡◌, ◌<◌, ◌≤◌};
ghost use Rattle.table_entry.specs.Fits.{counts_ok, multipliers_ok, pattern_ok, node_fits, link_fits, control_fits, premise_fits};

use model::*;
use table_control::*;
use table_link::*;
use table_node::*;
use table_premise::*;
use table_ranges::number_ok;

// The capacities of the tables.
pub const MOST_PATTERNS: usize = 32;

pub const MOST_NODES: usize = 256;

pub const MOST_LINKS: usize = 384;

pub const MOST_CONTROLS: usize = 64;

pub const MOST_PREMISES: usize = 128;

// The most multipliers of a pattern.
pub const MOST_MULTIPLIERS: usize = 168;

#[tactic(auto, unfolding(crate::specs::Fits::counts_ok))]
pub fn counts_ok(c: Counts) -> bool
    ensures { result ≡ counts_ok c }
{
    (c.patterns <= MOST_PATTERNS)
        & (c.nodes <= MOST_NODES)
        & (c.links <= MOST_LINKS)
        & (c.controls <= MOST_CONTROLS)
        & (c.premises <= MOST_PREMISES)
}

// The first n multipliers of pattern k.
#[tactic(auto, unfolding(crate::specs::Fits::multipliers_ok))]
fn multipliers_ok(multipliers: &[f64; 5376], k: usize, n: usize) -> bool
    requires k_bound { k < 32 }
    requires n_bound { n ≤ 168 }
    ensures { result ≡ multipliers_ok multipliers.now k n }
{
    for i in 0..n {
        if !number_ok(multipliers[k * MOST_MULTIPLIERS + i]) {
            return false;
        }
    }
    true
}

#[tactic(auto, unfolding(crate::specs::Fits::pattern_ok))]
pub fn pattern_ok(multipliers: &[f64; 5376], k: usize, n: usize) -> bool
    requires { k < 32 }
    ensures { result ≡ pattern_ok multipliers.now k n }
{
    if n < 1 {
        return false;
    }
    if MOST_MULTIPLIERS < n {
        return false;
    }
    multipliers_ok(multipliers, k, n)
}

#[tactic(auto, unfolding(crate::specs::Fits::node_fits))]
pub fn node_fits(patterns: usize, n: Node) -> bool
    ensures { result ≡ node_fits patterns n }
{
    node_ok(n) & node_indices_ok(patterns, n)
}

#[tactic(auto, unfolding(crate::specs::Fits::link_fits))]
pub fn link_fits(nodes: usize, l: Link) -> bool
    ensures { result ≡ link_fits nodes l }
{
    link_ok(l) & link_indices_ok(nodes, l)
}

#[tactic(auto, unfolding(crate::specs::Fits::control_fits))]
pub fn control_fits(nodes: usize, links: usize, c: Control) -> bool
    ensures { result ≡ control_fits nodes links c }
{
    control_ok(c) & control_indices_ok(nodes, links, c)
}

#[tactic(auto, unfolding(crate::specs::Fits::premise_fits))]
pub fn premise_fits(nodes: usize, links: usize, q: Premise) -> bool
    ensures { result ≡ premise_fits nodes links q }
{
    premise_ok(q) & premise_indices_ok(nodes, links, q)
}
