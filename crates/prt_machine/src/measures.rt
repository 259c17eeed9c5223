//! How large files are.

use std::fs::Files;
use std::io::ErrorKind;

/// A file system that is asked how large a file is. It names no types, so threads can share what holds one.
pub trait Measures {
    /// Asks the system how many bytes a file has: 0 if there is none.
    fn size_at(&self, path: &str) -> Option<u64>;
}

impl Measures for HostRuntime {
    fn size_at(&self, path: &str) -> Option<u64> {
        match self.metadata(path) {
            Ok(found) => Some(found.len()),
            Err(error) if error.kind() == ErrorKind::NotFound => Some(0),
            Err(_) => None,
        }
    }
}
