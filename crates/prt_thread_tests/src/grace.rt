//! Tests of a registry of grace periods, and of a domain: no clause says what its calls do behind the lock.

mod domain;
mod registry;
mod versions;
