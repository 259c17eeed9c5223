//! The front: the published version, which one writer replaces and readers take without a lock.
//!
//! Two copies of what is shown lie side by side (`left_right`, after Ramalhete and Correia 2015): readers enter the one
//! that is shown while the writer changes the other, and one step swaps them. Each copy carries the list of the
//! commands that led to its version, in tokens without bytes, which contracts alone see.
#![tactic(auto)]

mod copies;
mod front;
mod history;
mod known;
pub mod laws;
mod reader;
mod shown;
mod told;

pub use front::Front;
pub use known::Known;
pub use prt_store::Stamp;
pub use prt_version::{Command, Refusal, Version};
pub use reader::{FrontReader, READERS};
pub use told::Told;
