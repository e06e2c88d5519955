// A broker hands one resource round among the sites of a manager. It keeps the totals of what it carried out and how long
// each site has waited, and records each grant in a roll that the caller lends.
#![tactic(auto)]

mod calls;
mod drain;
mod making;
mod questions;
pub mod state;
mod totals;
mod waits;
