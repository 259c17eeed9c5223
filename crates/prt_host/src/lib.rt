//! The program over any machine: its databases, questions to them, and its server.
#![tactic(auto)]

mod context;
mod counts;
mod entry;
mod laws;
mod listening;
mod log;
mod reporting_gate;
mod server;
mod serving;
mod status;
mod telling;

pub use entry::run;
pub use laws::runs_go_on;
pub use prt_machine::{DatabaseFiles, DatabaseOpener, Host};
