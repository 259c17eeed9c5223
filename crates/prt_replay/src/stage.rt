use prt_refusals::StoreCall;

/// How far the commands that are under way together have come.
#[derive(Clone, Copy)]
pub(crate) enum Stage {
    /// No command is under way.
    Ready,
    /// The commands were checked; the rows of so many of them are still to be written, and this store call is the next.
    Prepared(usize, StoreCall),
    /// The transaction of the commands is committed.
    Committed,
    /// The version after the commands is published.
    Published,
    /// The registry has noted that version.
    Noted,
    /// A store call or a publication failed, and no command is accepted any more.
    Closed,
    /// Everything is stopped.
    Stopped,
}
