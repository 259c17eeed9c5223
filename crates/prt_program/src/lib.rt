//! The program `prt` over any databases, files and streams: scripts, replays, and what is reported to a person of a run.
#![tactic(auto)]

mod databases;
mod error_keeping;
mod host;
mod messages;
mod next;
mod prt;
mod read_files;

pub use databases::Databases;
pub use error_keeping::ErrorKeeping;
pub use host::StandardStreams;
pub use messages::{Messages, cause_message, complaint, log_message, question_message, shown_text};
pub use next::Next;
pub use prt::{buffered, exit_status, program};
pub use prt_args::{Asked, Fault, ServeArgs, Submitting};
pub use prt_session::{Desk, Refusal, ScriptEnd};
pub use read_files::ReadFiles;
