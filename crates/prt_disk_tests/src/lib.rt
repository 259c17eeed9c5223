//! Tests of the store and of the desk over it, on disks in memory that stop or fail, and a caller of the store.
#![tactic(auto)]

#[cfg(test)]
mod desk;
mod store;

pub use store::{reopened, submit};
