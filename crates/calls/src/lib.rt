#![tactic(auto)]
// The public calls: each judges the tables and the state first (10), and yields the number and the same state where it refuses.
// kept: each call refuses by itself, by a literal of its answer: a helper would take the state by value, which adds a copy of it to the stack.
ghost use Rattle.std.specs.Prelude.{◌≡◌};
ghost use Rattle.tank_links.specs.Groups.{begins_of, middles_of, entries_of};
ghost use Rattle.calls.specs.Calls.{start, patterns, controls, load, tank_links, lay_out, laid_into, tank_links_by, pressure, premise, premise_number, premise_truths, number_of_premise, truths_of_premise, step};
ghost use Rattle.calls.specs.Refusals.{answer_number};

mod refusal;

use judge::in_order;
use model::*;
pub use refusal::Refusal;
use tables::tables_ok;
pub use tank_links::LinkGroups;

// The number, 0 where the call is accepted, and the state.
// kept: document 01 asks for a struct beside the answer where arrays are held; calls_sound and demand3 speak of its number.
#[derive(Clone, Copy)]
pub struct Called {
    pub number: u32,
    pub state: State,
}

// The same, and whether the pass changed anything.
// kept: as `Called`.
#[derive(Clone, Copy)]
pub struct PressureCalled {
    pub number: u32,
    pub state: State,
    pub changed: bool,
}

// The same as `Called`, and the step's length in seconds.
// kept: as `Called`.
#[derive(Clone, Copy)]
pub struct StepCalled {
    pub number: u32,
    pub length: u32,
    pub state: State,
}

#[tactic(auto, unfolding(crate::specs::Calls::start))]
pub fn new_with_initial_values(p: Project) -> Called
    ensures { result ≡ start p }
{
    if !tables_ok(p) {
        return Called {
            number: 10,
            state: State::blank(),
        };
    }
    Called {
        number: 0,
        state: state::new_with_initial_values(p),
    }
}

#[tactic(auto, using(crate::proofs::Guard::fit), unfolding(crate::specs::Calls::patterns, crate::specs::Calls::judged))]
pub fn apply_patterns(p: Project, s: State) -> Called
    ensures { result ≡ patterns p s }
{
    if !in_order(p, s) {
        return Called {
            number: 10,
            state: s,
        };
    }
    Called {
        number: 0,
        state: state::apply_patterns(p, s),
    }
}

#[tactic(auto, using(crate::proofs::Guard::fit), unfolding(crate::specs::Calls::controls, crate::specs::Calls::judged))]
pub fn apply_controls(p: Project, s: State) -> Called
    ensures { result ≡ controls p s }
{
    if !in_order(p, s) {
        return Called {
            number: 10,
            state: s,
        };
    }
    Called {
        number: 0,
        state: state::apply_controls(p, s),
    }
}

#[tactic(auto, using(crate::proofs::Guard::fit), unfolding(crate::specs::Calls::load, crate::specs::Calls::judged))]
pub fn take_load(p: Project, s: State, words: &[u32]) -> Called
    ensures { result ≡ load p words.now s }
{
    if !in_order(p, s) {
        return Called {
            number: 10,
            state: s,
        };
    }
    if let Err(fault) = load::judge(p, words) {
        return Called {
            number: fault.number(),
            state: s,
        };
    }
    Called {
        number: 0,
        state: load::take_load(p, s, words),
    }
}

#[tactic(auto, using(crate::proofs::Guard::fit), unfolding(crate::specs::Calls::tank_links, crate::specs::Calls::judged))]
pub fn update_tank_links(p: Project, s: State) -> Called
    ensures { result ≡ tank_links p s }
{
    if !in_order(p, s) {
        return Called {
            number: 10,
            state: s,
        };
    }
    Called {
        number: 0,
        state: solver::update_tank_links(p, s),
    }
}

// Lays out the table of the tanks' links (document 02, R-8): tank k's links are links[i] for i from begins[k] up to begins[k + 1], those out
// of it from middles[k] on. What lies past the places and entries of the project's tanks stays as it was, and all of it where the call is refused.
#[tactic(auto, unfolding(crate::specs::Calls::lay_out, crate::specs::Calls::laid_into))]
pub fn lay_out_tank_links(p: Project, groups: &mut LinkGroups) -> Result<(), Refusal>
    ensures value { answer_number result ≡ lay_out p }
    ensures begins_after { groups.new.begins ≡ laid_into p (begins_of p) groups.old.begins }
    ensures middles_after { groups.new.middles ≡ laid_into p (middles_of p) groups.old.middles }
    ensures links_after { groups.new.links ≡ laid_into p (entries_of p) groups.old.links }
{
    if !tables_ok(p) {
        return Err(Refusal::NotInOrder);
    }
    tank_links::lay_out(p, groups);
    Ok(())
}

// Closing by a table that is handed in, and 10 also where it is not the one laid out.
#[tactic(auto, using(crate::proofs::Guard::fit), unfolding(crate::specs::Calls::tank_links_by, crate::specs::Calls::judged))]
pub fn update_tank_links_by(p: Project, s: State, groups: &LinkGroups) -> Called
    ensures { result ≡ tank_links_by p groups.now.begins groups.now.middles groups.now.links s }
{
    if !in_order(p, s) || !tank_links::is_laid_out(p, groups) {
        return Called {
            number: 10,
            state: s,
        };
    }
    Called {
        number: 0,
        state: solver::update_tank_links_by(p, s, groups),
    }
}

#[tactic(auto, using(crate::proofs::Guard::fit), unfolding(crate::specs::Calls::pressure))]
pub fn apply_pressure_controls(p: Project, s: State) -> PressureCalled
    ensures { result ≡ pressure p s }
{
    if !in_order(p, s) {
        return PressureCalled {
            number: 10,
            state: s,
            changed: false,
        };
    }
    let done = solver::apply_pressure_controls(p, s);
    PressureCalled {
        number: 0,
        state: done.state,
        changed: done.changed,
    }
}

// Whether a premise holds. The state is only read.
#[tactic(auto, using(crate::proofs::Guard::fit), unfolding(crate::specs::Calls::premise, crate::specs::Calls::number_of_premise, crate::specs::Calls::truths_of_premise))]
pub fn premise_truth(p: Project, s: State, i: usize) -> Result<bool, Refusal>
    ensures value { result ≡ premise p i s }
    ensures result_value { (premise_number result ≡ number_of_premise p i s) × (premise_truths result ≡ truths_of_premise p i s) }
{
    if !in_order(p, s) {
        return Err(Refusal::NotInOrder);
    }
    if p.counts.premises <= i {
        return Err(Refusal::NoPremise);
    }
    Ok(premise::premise_truth_at(p, s, i))
}

#[tactic(auto, using(crate::proofs::Guard::fit), unfolding(crate::specs::Calls::step))]
pub fn next_hydraulic_timestep(p: Project, s: State) -> StepCalled
    ensures { result ≡ step p s }
{
    if !in_order(p, s) {
        return StepCalled {
            number: 10,
            length: 0,
            state: s,
        };
    }
    let done = simulation::next_hydraulic_timestep(p, s);
    StepCalled {
        number: 0,
        length: done.length,
        state: done.state,
    }
}
