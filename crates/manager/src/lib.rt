// What a mutual-exclusion manager is, whatever algorithm it runs: the statuses of its sites, the refusals of its
// calls and the tests for them, the interface with its laws, and what the sites of an island answer of themselves.
#![tactic(auto)]

pub mod checks;
pub mod holder;
pub mod interface;
pub mod island;
pub mod refusal;
pub mod status;
