// The gateway, by which a manager, its island, shares in the resource of an outer manager: an automaton of four states.
#![tactic(auto)]

mod moves;
mod questions;
mod state;

pub use questions::last_site;
pub use state::Gateway;
