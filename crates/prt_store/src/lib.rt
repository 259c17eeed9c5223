//! The durable store: the rules and routes of a policy router in a database file.
#![tactic(auto)]

mod adopt;
mod commit;
pub mod faults;
mod laws;
mod load;
mod merging;
mod opening;
mod statements;
mod store;

pub use laws::{openings_go_on, stops_leave_a_state};
pub use opening::migrate;
pub use prt_refusals::Refusal;
pub use prt_version::{Change, Version};
pub use sqlite::{Alter, Connection, Error, File, FileStore};
pub use store::{Stamp, Store};
