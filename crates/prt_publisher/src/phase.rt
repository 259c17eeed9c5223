/// How far a publisher is with the commands under way.
///
/// Callers that hand over a domain see `Ready`, `Prepared`, `Committed` and `Closed`. `Admitted` and `Published` are
/// moments between two steps: `prepare` goes through the one, `publish` through the other.
#[derive(Clone, Copy, Debug, PartialEq, Eq)]
pub enum Phase {
    /// It takes the next commands.
    Ready,
    /// The commands were checked, and the registry had room for one more retired version.
    Admitted,
    /// The memory of the version after the commands was taken.
    Prepared,
    /// The commands are stored.
    Committed,
    /// The version after the commands is published, and still to be noted.
    Published,
    /// A commit or a publication failed: no command is taken until the database is opened again.
    Closed,
}
