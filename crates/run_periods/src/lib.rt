#![tactic(auto)]
// Patterns by period: the demands of junctions and the heads of reservoirs change only where the period does. In between, only the tanks' demands go
// back to 0.
mod applying;

pub use applying::{apply_patterns, fill_patterns};
