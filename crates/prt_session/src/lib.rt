//! Sessions: the replies to a script, and the desk that executes its commands. Atomic files, whose commands are made together.
//! Checks, which execute nothing.
#![tactic(auto)]

mod atomic;
mod check;
mod collector;
mod desk;
pub mod examples;
mod executor;
mod form;
mod input;
mod laws;
mod limits;
mod memory_desk;
mod script;
pub mod scripts;
mod session;

pub use atomic::{CommandsRead, collect_commands, run_atomic, write_accepted};
pub use check::check_lines;
pub use desk::Desk;
pub use executor::Executor;
pub use form::Form;
pub use input::{ByteRead, next_byte};
pub use laws::{all_or_none, closed_replies, list_replies, session_ends};
pub use limits::MOST_TOGETHER;
pub use memory_desk::MemoryDesk;
pub use prt_command::{Command, Query, Refusal, Request};
pub use prt_refusals::OnRefusal;
pub use prt_replies::{Observer, Reply, ScriptEnd, Text, Unobserved};
pub use script::run_script;
pub use session::run_session;
