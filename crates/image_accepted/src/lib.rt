#![tactic(auto)]
// No code: the law that an accepted image's tables pass the judgement of tables (proofs/Accepted.antt).
