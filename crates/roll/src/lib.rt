// An append-only list over memory that the caller lends. It needs no heap: how many elements fit is the caller's choice.
#![tactic(auto)]

pub mod list;
pub mod telling;
