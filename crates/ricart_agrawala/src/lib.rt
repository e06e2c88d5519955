// Ricart and Agrawala's manager, of 2 to 16 sites: one that wants the resource sends a stamped REQUEST to all others, and
// holds once each of them has sent a REPLY.
#![tactic(auto)]

mod asking;
pub mod calls;
mod freeing;
mod making;
mod messages;
mod questions;
pub mod state;
mod stepping;
