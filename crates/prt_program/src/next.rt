//! What is left to do after the program.

use prt_args::{Asked, ServeArgs, Submitting};

/// What is left to do after the program.
#[derive(Drop)]
pub enum Next<'a> {
    /// To end with this status.
    Exit(u8),
    /// To serve these sessions. Nothing was opened, read or written yet.
    Serve(ServeArgs<'a>),
    /// To have a server run this script. Nothing was opened, read or written yet.
    Submit(Submitting<'a>),
    /// To answer this question. Nothing was opened, read or written yet.
    Ask(Asked<'a>),
}
