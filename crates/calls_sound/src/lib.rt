#![tactic(auto)]
// No code: the law that a state in order stays so (proofs/Kept.antt).
