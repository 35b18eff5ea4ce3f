#![tactic(auto)]
// f64 numbers as the Rust has them: what its standard library gives, each with an equation, and the constants.
// The account of IEEE 754 that every contract goes by is the logic's `lib.Ieee`.
mod compare;
pub mod constants;
mod order;
mod seconds;
mod words;

pub use compare::ComparisonOperator;
pub use order::{abs, clamp, in_range, within};
pub use seconds::{round_to_u64, u64_to_f64};
pub use words::{from_words, to_bits};
