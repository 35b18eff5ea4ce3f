#![tactic(auto)]
// The instants of a works without tanks, beforehand (document 02, R-14): where they can be foreseen, the next stop after an instant, or as many as a
// list has room for. The step's own arithmetic finds them (`clock`), with no state: without tanks a step's length asks for none.
mod ahead;
mod next;

pub use next::{NoStops, next_stop, next_stops};
