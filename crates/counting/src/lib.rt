// Sums and counts over a numbered range, and over a square table: specs/ has the definitions, proofs/ their laws,
// table.rt what code asks of a table, and stored.rt how a stored one is read.
#![tactic(auto)]

pub mod stored;
pub mod table;
