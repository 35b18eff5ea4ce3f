#![tactic(auto)]
// Document 02, R-8: the numbers of the links at tanks in one flat table, laid out once from the project's records. The links at tank k, in
// node order, stand from begins[k] up to begins[k + 1]: those into it first, those out of it from middles[k] on, each in link order.
mod chains;
mod judged;
mod laid;

pub use judged::is_laid_out;
pub use laid::{LinkGroups, lay_groups, lay_out};
