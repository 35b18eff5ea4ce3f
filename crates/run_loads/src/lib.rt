#![tactic(auto)]
// A load judged by what it goes by, and taken into a state's lists.
mod fault;
mod table;
mod taking;

pub use fault::LoadFault;
pub use table::LoadTable;
pub use taking::{load_fault, sum_inflows, take_flows, take_heads};
