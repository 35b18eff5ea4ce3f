#![tactic(auto)]
// No code: the law that no call changes an entry past the counts (proofs/Past.antt).
