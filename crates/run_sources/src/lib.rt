#![tactic(auto)]
// The tables of what the patterns change, the demands in use and the reservoirs with a pattern, with the times and the lengths of the patterns.
ghost use Rattle.std.specs.Prelude.{◌≤◌};
ghost use Rattle.run_sources.specs.Laid.{PatternsLaid};

mod demands;
mod heads;
mod lengths;
mod places;

pub use demands::{DemandTable, demand_table};
pub use heads::{HeadTable, head_table};
pub use lengths::pattern_lengths;
use model::*;

// All that the patterns of an instant go by, but the multipliers.
#[repr(C)]
#[derive(Clone, Copy)]
pub struct PatternTables {
    pub lengths: [u32; 32],
    pub start: u32,
    pub timestep: u32,
    pub scale: f64,
    pub pda: bool,
    pub demands: DemandTable,
    pub heads: HeadTable,
}

// Of the first n nodes of a table, and of all patterns.
pub fn pattern_tables(
    options: Options,
    lengths: &[usize; 32],
    nodes: &[Node; 256],
    n: usize,
) -> PatternTables
    requires { n ≤ 256 }
    ensures { PatternsLaid options lengths.now nodes.now n result }
{
    PatternTables {
        lengths: pattern_lengths(lengths),
        start: options.pattern_start,
        timestep: options.pattern,
        scale: options.demand_multiplier,
        pda: options.pda,
        demands: demand_table(nodes, n, options.default_pattern),
        heads: head_table(nodes, n),
    }
}
