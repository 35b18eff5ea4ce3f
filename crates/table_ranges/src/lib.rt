#![tactic(auto)]
// The ranges and codes of document 01 (number 5) that the records of the tables are asked, a pattern's index (number 6), and what the options have
// to satisfy; each other kind of record has a crate above. The decoder asks them of what a record says, and every later call of the tables that it
// is handed (number 10).
mod options;
mod ranges;

pub use options::options_ok;
pub use ranges::{
    clock_ok, diameter_ok, feet_ok, number_ok, pattern_index_ok, premise_number_ok, status_ok,
    time_ok,
};
