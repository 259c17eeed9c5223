//! What a server is run with.

use prt_args::ServeArgs;
use prt_machine::Host;
use std::alloc::Global;
use std::sync::Mutex;

/// What a server is run with, from its opening to its closing.
#[derive(Drop)]
pub(crate) struct ServerContext<'a, 'f, 'w, H: Host> {
    /// The network. It starts threads, waits and reads the time too.
    pub(crate) rt: &'a H::Net,
    pub(crate) alloc: Global,
    /// Where the system is asked for the sizes of the database's files.
    pub(crate) files: &'f H::Files,
    /// What is asked to be served.
    pub(crate) asked: &'a ServeArgs<'w>,
    /// Where a person is told of faults.
    pub(crate) errors: &'a Mutex<H::Errors>,
}
