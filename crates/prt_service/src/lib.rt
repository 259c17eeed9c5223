//! The service: one publisher that any number of threads submit commands to, lookers that read what it publishes, and
//! followers that learn of it.
//!
//! The lock of the publisher is the outer one. Under it these are taken, one at a time:
//! - that of the domain, for each step that needs the registry;
//! - that of the lobby, where commands wait;
//! - those of the channels of answers and of followers.
//!
//! The lock of the spare readers is held with no other. A looker reads the version that it holds without any.
#![tactic(auto)]

mod contents;
mod departure;
mod figures;
mod follower;
mod followers;
mod group;
mod held;
mod lobby;
mod looker;
mod news;
mod published_command;
mod publisher_with_followers;
mod queued_command;
mod released;
mod service;
mod service_brand;
mod spare;
mod submit_error;
mod submitted;
mod tally;

pub use contents::{Contents, contents_of};
pub use departure::Departure;
pub use figures::Figures;
pub use follower::Follower;
pub use followers::Unfollowed;
pub use looker::Looker;
pub use news::News;
pub use prt_grace::{Domain, Retention};
pub use prt_publisher::{
    Alter, Command, Connection, Error, Known, Publisher, Receipt, Refusal, Seats, Version,
};
pub use prt_version::{Answer, Packet};
pub use released::Released;
pub use service::Service;
pub use service_brand::ServiceBrand;
pub use submit_error::SubmitError;
pub use tally::{CommitTime, Tally};
