#![tactic(auto)]
// `update_tank_links` and `apply_pressure_controls` of hydraulicsolver.rs.
mod closing;
mod pressure;

pub use closing::{update_tank_links, update_tank_links_by};
pub use pressure::{Pressed, apply_pressure_controls};
