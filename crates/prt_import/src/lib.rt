//! What `ip -4 route show table all` and `ip -4 rule` print, as a script of lines of the command language; and the names
//! that the host has for tables and for routing protocols.
#![tactic(auto)]

mod accepted;
mod comments;
mod draft;
mod fault;
mod imported;
pub mod ip_json;
mod keys;
mod known;
mod laws;
mod lines;
mod listed;
mod names;
mod naming;
mod omitted_line;
mod reason;
mod route;
mod rule;
mod step;
mod told;
mod translate;

pub use accepted::{Accepted, accept, accept_over};
pub use comments::{kernel_routes, left_out};
pub use imported::{Imported, import};
pub use keys::{route_key, rule_priority};
pub use laws::{keeps_without_names, keeps_without_tables};
pub use lines::next_line;
pub use listed::{NoListing, check_listing};
pub use names::{HostNames, Names};
pub use naming::{Text, with_names};
pub use omitted_line::OmittedLine;
pub use prt_command::Refusal;
pub use reason::Reason;
