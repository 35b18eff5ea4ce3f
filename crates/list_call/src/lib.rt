#![tactic(auto)]
// One call of a list, run by its words.
ghost use Rattle.std.specs.Prelude.{◌≡◌, ◌+◌, ◌≤◌, length, take, drop};
ghost use Rattle.image_entry.specs.Words.{word as word_of};
ghost use Rattle.calls.specs.Calls.{load};
ghost use Rattle.demand3.specs.Calls.{called, pressed, stepped, asked, by_own_table};
ghost use Rattle.list_call.specs.FirstCall.{first_call};

use calls::{Called, PressureCalled, Refusal, StepCalled};
use demand3::Outcome;
use image_entry::word;
use list_words::call_ok;
use model::*;
use tank_links::LinkGroups;

fn called(c: Called) -> Outcome
    ensures { result ≡ called c }
{
    Outcome {
        number: c.number,
        length: 0,
        truth: false,
        state: c.state,
    }
}

fn pressed(c: PressureCalled) -> Outcome
    ensures { result ≡ pressed c }
{
    Outcome {
        number: c.number,
        length: 0,
        truth: c.changed,
        state: c.state,
    }
}

fn stepped(c: StepCalled) -> Outcome
    ensures { result ≡ stepped c }
{
    Outcome {
        number: c.number,
        length: c.length,
        truth: false,
        state: c.state,
    }
}

fn asked(a: Result<bool, Refusal>, state: State) -> Outcome
    ensures { result ≡ asked a state }
{
    let (number, truth) = match a {
        Ok(holds) => (0, holds),
        Err(refusal) => (refusal.number(), false),
    };
    Outcome {
        number,
        length: 0,
        truth,
        state,
    }
}

// The load whose count and words stand behind the code.
fn load_call(p: Project, s: State, words: &[u32]) -> Called
    requires { 2 + word_of words.now 1 ≤ length words.now }
    ensures { result ≡ load p (take (word_of words.now 1) (drop 2 words.now)) s }
{
    let to = 2 + word(words, 1) as usize;
    calls::take_load(p, s, &words[2..to])
}

// Closing by the table, laid out for it; where that is refused, so is the closing.
fn close_by_table(p: Project, s: State) -> Called
    ensures { result ≡ by_own_table p s }
{
    let mut groups = LinkGroups::empty();
    let _ = calls::lay_out_tank_links(p, &mut groups);
    calls::update_tank_links_by(p, s, &groups)
}

// What the first call of some words answers, and the state that it leaves; 18 and the same state where they begin with no call.
#[tactic(auto, using(list_words::proofs::Lists::load_whole), unfolding(crate::specs::FirstCall::first_call, list_words::specs::Lists::call_of, demand3::specs::Calls::outcome))]
pub fn first_call(p: Project, s: State, words: &[u32]) -> Outcome
    ensures { result ≡ first_call p words.now s }
{
    if !call_ok(words) {
        return Outcome {
            number: 18,
            length: 0,
            truth: false,
            state: s,
        };
    }
    match word(words, 0) {
        1 => called(calls::apply_patterns(p, s)),
        2 => called(calls::apply_controls(p, s)),
        3 => called(load_call(p, s, words)),
        4 => called(calls::update_tank_links(p, s)),
        5 => pressed(calls::apply_pressure_controls(p, s)),
        6 => asked(calls::premise_truth(p, s, word(words, 1) as usize), s),
        7 => stepped(calls::next_hydraulic_timestep(p, s)),
        8 => stepped(second_clock::step_by_seconds(p, s)),
        _ => called(close_by_table(p, s)),
    }
}
