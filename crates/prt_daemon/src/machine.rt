//! The machine that `prt` runs on.
ghost use Rattle.std.specs.Prelude.{IfOk, OnErr, OnOk};
ghost use Rattle.prt_daemon.specs.Openings.{IsThere, Opens, Refuses};
ghost use Rattle.prt_machine.specs.declared.database_opener.Wanted.TheVariants.{Ours};

use crate::calls::Calls;
use prt_machine::{DatabaseOpener, Wanted};
use prt_rows::has_table;
use sqlite::{Alter, Connection, Error, ErrorCode};
use std::io;

/// The files of this machine, by its calls.
#[derive(Drop)]
pub(crate) struct ThisMachine<M> {
    pub(crate) calls: M,
}

/// Checks that the system says of the file at a path that it has a byte at least: an opening would make the file, or write to
/// an empty one.
fn check_there<C, M: Calls<C>>(calls: &M, path: &str) -> Result<(), Error>
    ensures { OnOk result (IsThere M.has_size calls.now path.now) }
{
    match calls.size_of(path) {
        None => Err(Error::SqliteFailure(ErrorCode::CannotOpen)),
        Some(0) => Err(Error::SqliteFailure(ErrorCode::NotADatabase)),
        Some(_) => Ok(()),
    }
}

/// Opens the database file at a path, if it is there and has a table of ours. No other file is changed.
fn open_ours<S: Alter, M: Calls<Connection<S>>>(
    calls: &mut M,
    path: &str,
) -> Result<Connection<S>, Error>
    ensures opened { IfOk result (Opens M.has_size M.opens calls.old calls.new path.now Ours) }
    ensures there { OnOk result (IsThere M.has_size calls.old path.now) }
    ensures unopened { OnErr result (Refuses M.has_size M.opens M.fails M.closes calls.old calls.new path.now Ours) }
{
    if let Err(error) = check_there(&*calls, path) {
        return Err(error);
    }
    let conn = match calls.open(path) {
        Ok(conn) => conn,
        Err(error) => return Err(error),
    };
    if has_table(conn.schema(), "meta") {
        return Ok(conn);
    }
    match calls.close(conn) {
        Ok(()) => Err(Error::SqliteFailure(ErrorCode::NotADatabase)),
        Err(error) => Err(error),
    }
}

impl<S: Alter, M: Calls<Connection<S>>> DatabaseOpener<Connection<S>> for ThisMachine<M> {
    ghost use Rattle.prt_daemon.specs.Openings.{IsThere, Opens, Refuses};

    ghost opens = { λ wanted old new path conn. Opens M.has_size M.opens old.calls new.calls path wanted conn };

    ghost refuses = { λ wanted old new path. Refuses M.has_size M.opens M.fails M.closes old.calls new.calls path wanted };

    ghost closes = { λ old new conn. M.closes old.calls new.calls conn };

    ghost is_there = { λ old path. IsThere M.has_size old.calls path };

    fn open(&mut self, path: &str, wanted: Wanted) -> Result<Connection<S>, Error> {
        match wanted {
            Wanted::Any => self.calls.open(path),
            Wanted::Ours => open_ours(&mut self.calls, path),
        }
    }

    fn why_not(&self, path: &str, wanted: Wanted) -> Option<io::Error> {
        self.calls.why_not(path, wanted)
    }

    fn close(&mut self, conn: Connection<S>) -> Result<(), Error> {
        self.calls.close(conn)
    }
}
