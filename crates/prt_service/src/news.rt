//! What a follower hears within a time.

use prt_command::Command;

/// What a follower has heard when it has waited.
#[derive(Clone, Copy)]
pub enum News {
    /// This command was published after those that it knew, and it knows it now.
    Command {
        command: Command,
        /// How many commands were made together, of which this is the first: 1 if it was made alone. 0 of those after it.
        together: u64,
    },
    /// No command came within the time.
    Quiet,
    /// There is no further command for it: following has ended, or it was let go because too many commands waited for it.
    Ended,
}
