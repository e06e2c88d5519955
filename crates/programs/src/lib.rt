// What the small programs share: how they read an argument, serve the sites of a run, and print what came of it.
#![tactic(auto)]

mod arguments;
mod printing;
mod report;
mod run;
mod serving;

pub use arguments::{argument, number_within};
pub use printing::{PrintedGrant, print_run};
pub use report::Report;
pub use run::Run;
pub use serving::ask_unless_served;
