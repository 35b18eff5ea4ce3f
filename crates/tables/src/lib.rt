#![tactic(auto)]
// The tables' part of number 10: whether tables that anyone may have written keep document 01's limits, entry by entry below the counts.
ghost use Rattle.std.specs.Prelude.{◌≡◌, ◌≤◌, get_or};
ghost use Rattle.std.specs.List.{list_all};
ghost use Rattle.model.specs.Loops.{all_below};
ghost use Rattle.table_entry.specs.Fits.{pattern_ok, node_fits, link_fits, control_fits, premise_fits};
ghost use Rattle.tables.specs.Tables.{tables_ok};

use model::*;
use table_entry::*;
use table_ranges::{options_ok, pattern_index_ok};

fn patterns_ok(lengths: &[usize; 32], multipliers: &[f64; 5376], n: usize) -> bool
    requires { n ≤ 32 }
    ensures { result ≡ all_below n (λ k. pattern_ok multipliers.now k (get_or lengths.now k 0)) }
{
    for k in 0..n {
        if !pattern_ok(multipliers, k, lengths[k]) {
            return false;
        }
    }
    true
}

fn nodes_ok(table: &[Node], patterns: usize) -> bool
    ensures { result ≡ list_all (node_fits patterns) table.now }
{
    table.iter().all(|x| node_fits(patterns, *x))
}

fn links_ok(table: &[Link], nodes: usize) -> bool
    ensures { result ≡ list_all (link_fits nodes) table.now }
{
    table.iter().all(|x| link_fits(nodes, *x))
}

fn controls_ok(table: &[Control], nodes: usize, links: usize) -> bool
    ensures { result ≡ list_all (control_fits nodes links) table.now }
{
    table.iter().all(|x| control_fits(nodes, links, *x))
}

fn premises_ok(table: &[Premise], nodes: usize, links: usize) -> bool
    ensures { result ≡ list_all (premise_fits nodes links) table.now }
{
    table.iter().all(|x| premise_fits(nodes, links, *x))
}

// Whether the tables break none of 4 to 6.
pub fn tables_ok(p: Project) -> bool
    ensures { result ≡ tables_ok p }
{
    let counts = p.counts;
    if !counts_ok(counts) {
        return false;
    }
    options_ok(p.options)
        & pattern_index_ok(counts.patterns, p.options.default_pattern)
        & patterns_ok(&p.lengths, &p.multipliers, counts.patterns)
        & nodes_ok(&p.nodes[..counts.nodes], counts.patterns)
        & links_ok(&p.links[..counts.links], counts.nodes)
        & controls_ok(&p.controls[..counts.controls], counts.nodes, counts.links)
        & premises_ok(&p.premises[..counts.premises], counts.nodes, counts.links)
}
