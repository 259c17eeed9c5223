//! Versions for a registry or a domain.

use prt_command::{Command, Refusal};
use prt_version::Version;
use std::alloc::Global;
use std::sync::Arc;

/// Builds the version of a new database, with its owner.
pub fn opening_version(alloc: Global) -> Result<Arc<Version>, Refusal> {
    Ok(Arc::new(alloc, Version::opening(alloc)?)?)
}

/// Computes the version after a flush of the rules, which is always accepted.
pub fn next_version(alloc: Global, version: &Version) -> Result<Arc<Version>, Refusal> {
    match version.check(&Command::RuleFlush) {
        Ok(change) => Ok(Arc::new(alloc, version.next(&change)?)?),
        Err(reason) => Err(reason),
    }
}
