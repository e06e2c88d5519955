// Suzuki and Kasami's manager: a token goes round 2 to 16 sites, and whoever holds the resource has it.
#![tactic(auto)]

mod asking;
pub mod calls;
mod freeing;
mod making;
mod questions;
pub mod state;
mod stepping;
mod under_way;
