//! Each subcommand that asks or applies once, over the databases of a machine, a server, or what a script makes: all but
//! `check`, `replay`, `serve` and a local `batch`.
#![tactic(auto)]

mod apply_remote;
mod applying;
mod asking;
mod asserting;
mod atomic;
mod fencing;
mod figures;
mod following;
mod impact;
mod impact_of_diff;
mod importing;
mod inquiry;
mod left;
mod planning;
mod questions;
mod reading;
mod remote;
mod searching;
mod status;
mod submitting;
mod tables;

pub use asking::REFUSED;
pub use asserting::UNREADABLE;
pub use prt_machine::{DatabaseFiles, Host};
pub use questions::answer_question;
pub use status::CLOSED;
pub use submitting::submit_script;
