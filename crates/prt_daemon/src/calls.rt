//! The calls of the system and of the library by which a machine handles its database files.
ghost use Rattle.std.specs.Prelude.{IfOk, OnErr};

use prt_machine::Wanted;
use sqlite::{Connection, Error, File, FileStore};
use std::fs::{self, OpenOptions};
use std::io;

/// What a machine calls for its database files. An open one is a connection `C`. Contracts say of a call only
/// that it was made.
pub(crate) trait Calls<C> {
    ghost use Rattle.std.specs.Prelude.{List, Option, ℕ};

    /// That the system may say how many bytes the file at a path has, or that it is missing or can't be examined.
    ghost has_size: { Self → List ℕ → Option ℕ → Type 0 };

    /// What an opening of the file at a path makes of the machine, if it returns this connection.
    ghost opens: { Self → Self → List ℕ → C → Type 0 };

    /// What one makes of it that returns none.
    ghost fails: { Self → Self → List ℕ → Type 0 };

    /// What the closing of this connection makes of it.
    ghost closes: { Self → Self → C → Type 0 };

    /// Asks the system how many bytes the file at a path has. `None` if there is none, or the system doesn't say.
    fn size_of(&self, path: &str) -> Option<u64>
        ensures { has_size self.now path.now result };

    /// Opens the database file at a path, or makes it.
    ///
    /// # Errors
    ///
    /// The library's.
    fn open(&mut self, path: &str) -> Result<C, Error>
        ensures opened { IfOk result (opens self.old self.new path.now) }
        ensures unopened { OnErr result (fails self.old self.new path.now) };

    /// Closes a database, so that its file alone has all of it.
    ///
    /// # Errors
    ///
    /// Why its log could not be moved into the file.
    fn close(&mut self, conn: C) -> Result<(), Error>
        ensures { closes self.old self.new conn };

    /// Asks the system why a file can't be opened for reading and writing and, if any is wanted, can't be made. Returns `None`
    /// if it can be. A file that it makes for that is removed again.
    fn why_not(&self, path: &str, wanted: Wanted) -> Option<io::Error>;
}

/// The calls of this host. They alone touch real files.
#[derive(Clone, Copy, Drop)]
pub(crate) struct HostCalls {
    pub(crate) host: HostRuntime,
}

/// Asks the system why there is no new file at a path. One that it makes is removed again.
fn reason_for_none(host: &HostRuntime, path: &str) -> Option<io::Error> {
    match OpenOptions::new()
        .write(true)
        .create_new(true)
        .open(host, path)
    {
        Ok(_) => {
            let _ = fs::remove_file(host, path);
            None
        }
        Err(error) => Some(error),
    }
}

impl Calls<Connection<FileStore<File>>> for HostCalls {
    ghost use Rattle.std.specs.Prelude.{⊤};
    ghost use Rattle.sqlite.specs.Files.{IsOpened, file_state};
    ghost use Rattle.sqlite.specs.State.{HasCleanDisk};

    // What the system does at a path is not known.
    ghost has_size = { λ _ _ _. ⊤ };

    ghost opens = { λ _ _ _ conn. HasCleanDisk (file_state conn) → IsOpened conn };

    ghost fails = { λ _ _ _. ⊤ };

    ghost closes = { λ _ _ _. ⊤ };

    fn size_of(&self, path: &str) -> Option<u64> {
        let metadata = fs::metadata(&self.host, path).ok()?;
        Some(metadata.len())
    }

    fn open(&mut self, path: &str) -> Result<Connection<FileStore<File>>, Error> {
        Connection::open(&self.host, path)
    }

    fn close(&mut self, conn: Connection<FileStore<File>>) -> Result<(), Error>
        ensures { ⊤ }
    {
        conn.close()
    }

    fn why_not(&self, path: &str, wanted: Wanted) -> Option<io::Error> {
        let error = match OpenOptions::new()
            .read(true)
            .write(true)
            .open(&self.host, path)
        {
            Ok(_) => return None,
            Err(error) => error,
        };
        match (wanted, error.kind()) {
            (Wanted::Any, io::ErrorKind::NotFound) => reason_for_none(&self.host, path),
            _ => Some(error),
        }
    }
}
