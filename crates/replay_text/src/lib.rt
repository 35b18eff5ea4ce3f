#![tactic(auto)]
// The lines of `replay`: what a call answered and the whole state after it, as text. Each public function writes its line to the front of a buffer
// that has room for the longest one, and answers how many bytes it has; in a smaller buffer it changes nothing and answers 0.
mod answers;
mod lines;
mod words;

pub use lines::{put_call_line, put_start_line};
