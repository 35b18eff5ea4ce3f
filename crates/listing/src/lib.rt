#![tactic(auto)]
// The lines that the programs print, and numbers as text, written into a buffer that the caller lends.
// Each public function writes its text from a position on where all of it has room, and answers the position after it;
// without room it changes nothing and answers the position.
// kept: buf and at travel together, but `after` and `put` speak of both as plain values, and the crates above name them in their contracts.
mod decimal;
mod hexadecimal;
mod lines;
mod text;

pub use decimal::put_decimal;
pub use hexadecimal::put_hex;
pub use lines::{put_header, put_number_line, put_refused_line, put_step_line, put_steps_line};
pub use text::put_text;
