//! How the program opens and closes databases.
ghost use Rattle.std.specs.Prelude.{◌≡◌, IfOk, OnErr, OnOk};

use sqlite::Error;
use std::io;

/// Which files an opening takes.
#[derive(Clone, Copy)]
pub enum Wanted {
    /// Any; one is made if there is none.
    Any,
    /// One that is there, and has a table of ours.
    Ours,
}

/// Opens and closes the database files of a machine. An open one is a connection `C`.
pub trait DatabaseOpener<C> {
    ghost use Rattle.std.specs.Prelude.{List, ℕ};
    ghost use Rattle.prt_machine.specs.declared.database_opener.Wanted.{Wanted};

    /// What an opening of the file at a path, if it is one that is wanted, makes of the machine. It returns this connection.
    ghost opens: { Wanted → Self → Self → List ℕ → C → Type 0 };

    /// What an opening makes of it that returns none. No database is open then.
    ghost refuses: { Wanted → Self → Self → List ℕ → Type 0 };

    /// What the closing of this connection makes of it.
    ghost closes: { Self → Self → C → Type 0 };

    /// That a database file is at a path.
    ghost is_there: { Self → List ℕ → Type 0 };

    /// Opens the database file at a path, if it is one that is wanted.
    ///
    /// # Errors
    ///
    /// The library's; `CannotOpen` if there is none, and `NotADatabase` if it has no table of ours and such a one is wanted. No
    /// database is open then, and none was made.
    fn open(&mut self, path: &str, wanted: Wanted) -> Result<C, Error>
        ensures opened { IfOk result (λ conn. opens wanted self.old self.new path.now conn) }
        ensures there { wanted ≡ Wanted.Ours → OnOk result (is_there self.old path.now) }
        ensures unopened { OnErr result (refuses wanted self.old self.new path.now) };

    /// Asks the system why the file at a path can't be opened for reading and writing and, if any is wanted, can't be made.
    /// Returns `None` if it can be.
    fn why_not(&self, path: &str, wanted: Wanted) -> Option<io::Error>;

    /// Closes a database, so that its file alone has all of it.
    ///
    /// # Errors
    ///
    /// Why its log could not be moved into the file. What was committed stays in the log beside it.
    fn close(&mut self, conn: C) -> Result<(), Error>
        ensures { closes self.old self.new conn };
}
