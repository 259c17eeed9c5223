//! Why commands that were to be made together were not.

use prt_command::Refusal;

/// Why no command of a list was made.
#[derive(Clone, Copy)]
pub enum SubmitError {
    /// The commands were refused for this. After `StoreFailed` and `NotPublished` they may be stored.
    Refused(Refusal),
    /// The published version had this number, and not the one at which they were to be made. Nothing has changed.
    Moved(u64),
}
