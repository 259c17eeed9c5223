//! What a version holds, what becomes of a packet, and why, as JSON (RFC 8259) in the fields of `ip -j`.
#![tactic(auto)]

mod answer;
mod arrays;
mod document;
mod explanation;
mod field;
mod laws;
mod push;
mod route;
mod rule;

pub use document::{answer_json, explanation_json, routes_json, rules_json, tables_json};
pub use laws::last_decides;
pub use prt_command::{Packet, Refusal, Selector};
pub use prt_version::Version;
