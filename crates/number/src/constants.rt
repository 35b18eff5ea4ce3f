// The numbers of `constants.rs` that the port uses.
pub const PI: f64 = 3.14159265358979323846264338327950288;

// The flow of a closed link, in cubic feet per second.
pub const Q_ZERO: f64 = 1e-6;

// Tolerance for a head, in feet.
pub const H_TOL: f64 = 0.0005;

// Tolerance for a level, in feet.
pub const L_TOL: f64 = 0.0001;

// Pounds per square inch for a foot of water.
pub const PSI_PER_FT: f64 = 0.4333;

// The greatest usize: a time that never comes.
// kept: document 01 answers this number, MAX, throughout, and prints it; an Option would be turned back into it at each use.
pub const MAX: u64 = 18446744073709551615;
