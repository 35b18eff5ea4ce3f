#![tactic(auto)]
// A list of calls as words: the call that each code stands for, the words that it has, and whether a list of them is whole.
ghost use Rattle.std.specs.Prelude.{◌≡◌, true};
ghost use Rattle.clock.specs.Machine.{bit};
ghost use Rattle.list_words.specs.Lists.{call_length, call_ok, asks_step, list_ok};

use image_entry::word;

// How many words the first call has.
#[tactic(auto, unfolding(crate::specs::Lists::call_length))]
pub fn call_length(words: &[u32]) -> usize
    ensures { result ≡ call_length words.now }
{
    match word(words, 0) {
        3 => 2 + word(words, 1) as usize,
        6 => 2,
        _ => 1,
    }
}

// Whether the first call has a code that there is, and all of its words.
#[tactic(auto, unfolding(crate::specs::Lists::call_ok))]
pub fn call_ok(words: &[u32]) -> bool
    ensures { result ≡ call_ok words.now }
{
    let code = word(words, 0);
    1 <= code && code <= 9 && call_length(words) <= words.len()
}

// 1 where the first call is one and asks for a step, else 0, on a project that the second clock serves or does not.
pub fn steps_asked(words: &[u32], serves: bool) -> u64
    ensures { result ≡ bit (asks_step serves words.now) }
{
    match word(words, 0) {
        7 => 1,
        8 => u64::from(serves),
        _ => 0,
    }
}

// Whether every call of a list has a code that there is, and all of its words.
#[tactic(auto, using(crate::proofs::Lists::ok_whole))]
pub fn list_ok(words: &[u32]) -> bool
    ensures { result ≡ list_ok 0 words.now }
{
    let mut rest = words;
    while !rest.is_empty() {
        if !call_ok(rest) {
            return false;
        }
        rest = &rest[call_length(rest)..];
    }
    true
}
