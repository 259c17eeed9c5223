//! What surrounds a run.

use crate::databases::Databases;
use crate::read_files::ReadFiles;
use std::alloc::Global;
use std::io::{IsTerminal, Read, Write};
use std::marker::PhantomData;
use std::rt::Clock;

/// The standard streams of the program.
pub trait StandardStreams {
    type Input: Read;

    type Output: Write + IsTerminal;

    type Errors: Write + IsTerminal;
}

/// The types of what surrounds a run.
pub(crate) trait Host {
    /// Opens files to read them.
    type Files: ReadFiles;

    /// Opens databases.
    type Databases: Databases;

    /// Takes what is replied.
    type Output: Write + IsTerminal;

    /// Takes what is reported to a person.
    type Errors: Write + Drop;

    /// Reads the time.
    type Clock: Clock + Drop;
}

/// The host of these types.
pub(crate) struct HostOf<F, B, W, E, K> {
    types: PhantomData<(F, B, W, E, K)>,
}

impl<F: ReadFiles, B: Databases, W: Write + IsTerminal, E: Write + Drop, K: Clock + Drop> Host
    for HostOf<F, B, W, E, K> {
    type Files = F;

    type Databases = B;

    type Output = W;

    type Errors = E;

    type Clock = K;
}

/// What surrounds a run: memory, files, databases and the writer of replies.
#[derive(Drop)]
pub(crate) struct RunContext<'f, 's, H: Host> {
    pub(crate) alloc: Global,
    pub(crate) files: &'f H::Files,
    pub(crate) databases: &'s mut H::Databases,
    pub(crate) output: &'s mut H::Output,
}
