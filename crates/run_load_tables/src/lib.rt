#![tactic(auto)]
// What a load goes by, laid out once: where the junctions stand, the ends of the links, and which nodes are tanks.
mod laid;

pub use laid::load_table;
