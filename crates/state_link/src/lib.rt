#![tactic(auto)]
// A link's part in the passes over a state: at the start, in closing and in the pressure pass. Each function is on one link, or on one tank;
// the loops over them stand in state, run_closing and solver.
mod closing;
mod pressure;
mod start;

pub use closing::{empty_closed, fill_closed};
pub use pressure::press;
pub use start::start_link;
