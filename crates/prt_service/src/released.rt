//! What a service leaves at its end.

use prt_published::Known;
use sqlite::{Alter, Connection};

/// What a service leaves at its end.
#[derive(Drop)]
pub struct Released<S: Alter + Drop> {
    /// The connection to its tables.
    pub conn: Connection<S>,
    /// The list that it had published.
    pub published: Known,
}
