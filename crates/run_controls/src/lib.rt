#![tactic(auto)]
// The pass that applies the rows of the controls to the links.
mod apply;

pub use apply::apply_controls;
