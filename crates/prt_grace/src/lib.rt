//! Grace periods: which retired versions no looker can hold any more.
//!
//! The quiescent-state form of user-level RCU (Desnoyers et al. 2012): a looker announces the number of the version that
//! it fetched, and so says that it holds no earlier one. The registry keeps what was announced, and gives up a retired
//! version once each online looker has announced a later number. A domain is a registry that threads share, under a lock.
#![tactic(auto)]

mod domain;
pub mod examples;
mod keeper;
pub mod laws;
mod limits;
mod locked;
mod place;
mod registry;
mod retention;
mod retired;

pub use domain::Domain;
pub use keeper::Keeper;
pub use limits::{MOST_RETIRED, PLACES};
pub use locked::LockedRegistry;
pub use place::{Place, PlaceState};
pub use prt_version::Version;
pub use registry::Registry;
pub use retention::Retention;
