#![tactic(auto)]
// Closing over a run's tables: the links at the tanks, closed by the heads, and the tanks' demands summed from their flows. Only tanks are visited, and
// of the links only those at them.
mod closing;

pub use closing::{close_links, sum_demands};
