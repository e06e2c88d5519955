// The tie as mathematics: two islands, each any kind of manager, share one resource through an outer manager. specs/
// has its rules and its invariant, proofs/ that a tie of lawful managers is a lawful manager.
#![tactic(auto)]

pub use gateway::Gateway;
