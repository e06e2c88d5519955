// The tie: two islands and an outer manager, each of any kind, that are one manager together.
#![tactic(auto)]

mod asking;
pub mod calls;
mod making;
mod refusing;
mod side;
mod sites;
pub mod state;
mod stepping;
mod things;
