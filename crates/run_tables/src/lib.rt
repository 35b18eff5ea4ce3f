#![tactic(auto)]
// The tables of a run: what its steps read of a project, laid out once as arrays of numbers, so that a pass is lent them and reads them in
// place.
mod nodes;
mod rows;
mod tanks;

pub use nodes::{NodeList, nodes_where};
pub use rows::tank_at;
pub use tanks::{TankTable, tank_nodes, tank_table};
