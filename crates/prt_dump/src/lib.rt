//! The dump of a version: lines that put its rules and routes back.
#![tactic(auto)]

mod commands;
mod dump;
mod fits;
mod laws;
mod plain;
mod refusal;

pub use dump::{dump_text, every_route};
pub use laws::{dump_is_put_back, dump_remakes};
pub use refusal::DumpError;
