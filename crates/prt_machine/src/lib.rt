//! What the program needs of a machine: what opens its databases, its files, its network and its streams.
#![tactic(auto)]

mod cause;
mod database_opener;
mod databases;
mod host;
mod listener;
mod local;
mod measures;
mod opening;
mod telling;

pub use cause::Cause;
pub use database_opener::{DatabaseOpener, Wanted};
pub use databases::DatabaseFiles;
pub use host::{Host, KeepsError, Streams, StreamsOf};
pub use listener::{ServerListener, ServerNet, is_local};
pub use local::{LocalNet, Socket};
pub use measures::Measures;
pub use opening::{close_at, open_desk, open_publisher, report_unopened};
pub use telling::tell;
