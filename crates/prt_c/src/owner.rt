use prt_version::Version;
use std::sync::Arc;

/// An owner of a version.
#[derive(Drop)]
pub struct Owner {
    pub version: Arc<Version>,
}
