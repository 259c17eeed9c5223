//! What the program runs on.

use crate::database_opener::DatabaseOpener;
use crate::listener::ServerNet;
use crate::measures::Measures;
use prt_program::{ErrorKeeping, ReadFiles, StandardStreams};
use sqlite::{Alter, Connection};
use std::io::{self, IsTerminal, Read, Write};
use std::marker::PhantomData;
use std::rt::Clock;
use std::sync::Wait;
use std::thread::Threads;

/// A stream that keeps why it failed.
pub trait KeepsError {
    /// Returns the error of the call that failed, if one did.
    fn error(&self) -> Option<&io::Error>;
}

impl<T> KeepsError for ErrorKeeping<T> {
    fn error(&self) -> Option<&io::Error> {
        ErrorKeeping::error(self)
    }
}

/// The files and the standard streams of the program.
pub trait Streams {
    /// The files that are read or measured.
    type Files: ReadFiles + Measures + Clock + Drop + Sync;

    /// The standard input.
    type Input: Read + KeepsError;

    /// The standard output.
    type Output: Write + IsTerminal + KeepsError;

    /// The standard error.
    type Errors: Write + IsTerminal + Drop + Send;
}

/// The standard streams of a host.
pub struct StreamsOf<H> {
    types: PhantomData<H>,
}

impl<H: Streams> StandardStreams for StreamsOf<H> {
    type Input = H::Input;

    type Output = H::Output;

    type Errors = H::Errors;
}

/// What the program runs on: its databases and its network, beside files and streams.
pub trait Host: Streams {
    /// What keeps the rows of an open database.
    type Store: Alter + Drop + Send;

    /// What opens and closes databases.
    type Opener: DatabaseOpener<Connection<Self::Store>> + Drop;

    /// The network. It starts threads, waits and reads the time too.
    type Net: ServerNet + Threads + Wait + Clock + Copy + Drop + Send + Sync;
}
