#![tactic(auto)]
// A list of calls run from a project's start, which promises demand 3 of it.
ghost use Rattle.std.specs.Prelude.{◌≡◌, true, ◌+◌, ◌≤◌, ◌<◌, ◌^◌};
ghost use Rattle.judge.specs.Judgement.{in_order};
ghost use Rattle.second_clock.specs.SecondClock.{second_applies};
ghost use Rattle.list_words.specs.Lists.{call_of, call_ok, calls_of, list_ok};
ghost use Rattle.list_run.specs.Runs.{none_run, counted, counted_all, run_list, Answers};

use calls::Called;
use list_call::first_call;
use list_words::{call_length, list_ok, steps_asked};
use model::*;
use second_clock::second_applies;

// The number, 0 where the list is run; the state that it leaves; the steps asked, the sum of the steps answered in seconds, and the times that the
// clock moved.
// kept: the number stands beside the state, which a list that is not run yields too (`run_list`).
#[derive(Clone, Copy)]
pub struct ListRun {
    pub number: u32,
    pub state: State,
    pub asked: u64,
    pub answered: u32,
    pub moves: u32,
}

fn none_run(number: u32, state: State) -> ListRun
    ensures { result ≡ none_run number state }
{
    ListRun {
        number,
        state,
        asked: 0,
        answered: 0,
        moves: 0,
    }
}

// The run after the first call of some words. `serves`: the second clock serves the project.
fn counted(p: Project, serves: bool, r: ListRun, words: &[u32]) -> ListRun
    requires serves_value { serves ≡ second_applies p }
    requires state_value { in_order p r.state ≡ true }
    requires asked_bound { (r.asked + 1 < 2 ^ 64) × (r.answered ≤ r.state.clock.instant) × (r.moves ≤ r.state.clock.count) × (call_ok words.now ≡ true) }
    ensures { result ≡ counted p (call_of words.now) r }
{
    let o = first_call(p, r.state, words);
    let moved = o.state.clock.instant != r.state.clock.instant;
    ListRun {
        number: r.number,
        state: o.state,
        asked: r.asked + steps_asked(words, serves),
        answered: r.answered + o.length,
        moves: r.moves + u32::from(moved),
    }
}

// The run of a list that has been found whole.
fn run_calls(p: Project, serves: bool, s: State, words: &[u32]) -> ListRun
    requires serves_value { serves ≡ second_applies p }
    requires s_value { in_order p s ≡ true }
    requires words_value { list_ok 0 words.now ≡ true }
    ensures { result ≡ counted_all p (calls_of 0 words.now) (none_run 0 s) }
{
    let mut r = none_run(0, s);
    let mut rest = words;
    while !rest.is_empty() {
        r = counted(p, serves, r, rest);
        rest = &rest[call_length(rest)..];
    }
    r
}

pub fn run_list(p: Project, words: &[u32]) -> ListRun
    ensures value { result ≡ run_list p words.now }
    ensures answers { result.number ≡ 0 → Answers p (calls_of 0 words.now) result }
{
    let Called { number, state } = calls::new_with_initial_values(p);
    if number != 0 {
        return none_run(number, state);
    }
    if !list_ok(words) {
        return none_run(18, state);
    }
    run_calls(p, second_applies(p), state, words)
}
