#![tactic(auto)]
// The controls of a run, each a row of numbers, in image order, laid out once.
mod rows;

pub use rows::{ControlTable, Row, control_table, row_at};
