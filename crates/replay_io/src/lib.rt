#![tactic(auto)]
// The program `replay` between a reader and a writer: it reads an image and a list of calls, and prints what each call answers with the whole state
// after it. The calls are `list_call::first_call` and the lines those of `replay_text`; this crate moves bytes.
mod replay;

pub use replay::{call_space, line_space, transcribe};
