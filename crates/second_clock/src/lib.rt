#![tactic(auto)]
// A clock that counts seconds, for works without tanks: it walks from the state's instant one second at a time and stops where the options or
// controls call for it. It keeps no list of candidates and shares no arithmetic with the driver: it calls no function of `clock` and adds up its
// own seconds. What it shares is what it reads: the types, the options of a step (`times_of`), whether there are tanks (`no_tanks`), what the controls
// wait for (`awaited_by`), and the judgement of tables and state (`in_order`).
mod step;
mod walk;

pub use step::{second_applies, step_by_seconds};
