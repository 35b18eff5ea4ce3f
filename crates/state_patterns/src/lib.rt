#![tactic(auto)]
// No code: what patterns make of one node (specs/Patterns.antt).
