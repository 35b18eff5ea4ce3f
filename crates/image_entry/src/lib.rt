#![tactic(auto)]
// The words of a record's payload, and a record's answer: its first fault, or what it says. Each kind has a crate above.
mod entry;
mod words;

pub use entry::{Entry, Fault, check};
pub use words::{number, pattern_index_of, word};
