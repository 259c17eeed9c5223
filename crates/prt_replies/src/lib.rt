//! Replies: how they are written, who observes them, and how a run of a script ends by them.
#![tactic(auto)]

mod observer;
mod reply;
mod script_end;

pub use observer::{Observer, Unobserved};
pub use reply::{Reply, Text, refused_line, write_bytes, write_reply};
pub use script_end::ScriptEnd;
