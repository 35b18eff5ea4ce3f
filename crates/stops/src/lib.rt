#![tactic(auto)]
// No code: the instants at which the options or controls call for a stop (specs/Stops.antt), the walk to the next one second by second
// (specs/Walk.antt), and that it is a step's length where there are no tanks (proofs/Walk.antt); that a run visits exactly these (specs/Exact.antt,
// proofs/Exact.antt).
