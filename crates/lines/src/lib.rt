// The lines that a replay prints, each written at the front of output that the caller lends. No heap is needed.
#![tactic(auto)]

mod buffer;
pub mod refusal;
mod writers;

pub use writers::{write_fault, write_grant, write_refusal, write_totals};
