#![tactic(auto)]
// No code: what the driver prints for a whole input (specs/Printed.antt), put together from its chunks (proofs/Whole.antt); the count in its
// last line is the number of its steps (proofs/Tally.antt); and where the stops are foreseen its steps end at these (proofs/Stops.antt).
