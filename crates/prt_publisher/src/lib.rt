//! The publisher: commands are checked, committed, published and noted, and only then acknowledged. The durable desk, a desk
//! over a publisher.
#![tactic(auto)]

mod change_set;
mod checked;
mod connected;
mod laws;
mod opening;
mod phase;
mod plan;
mod publisher;
mod receipt;
mod seats;
mod store_desk;

pub use change_set::ChangeSet;
pub use checked::Checked;
pub use connected::publisher_over;
pub use laws::{files_keep, stops_leave_a_state};
pub use phase::Phase;
pub use prt_command::{Command, Query, Refusal};
pub use prt_grace::{Domain, LockedRegistry};
pub use prt_published::{FrontReader, Known, Told};
pub use prt_session::Desk;
pub use prt_version::Version;
pub use publisher::Publisher;
pub use receipt::Receipt;
pub use seats::Seats;
pub use sqlite::{Alter, Connection, Error, File, FileStore};
pub use store_desk::StoreDesk;
