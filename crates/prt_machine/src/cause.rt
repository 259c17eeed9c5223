//! Why a database could not be opened.
ghost use Rattle.sqlite.specs.Held.{Held};
ghost use Rattle.prt_machine.specs.Closing.{IsOnlyRead};

use crate::database_opener::{DatabaseOpener, Wanted};
use prt_program::Refusal;
use prt_reasons::{Reason, columns_reason, rows_reason};
use sqlite::{Alter, Connection, Error as LibraryError, ErrorCode};
use std::io;
use thiserror::Error;

/// Why a database file failed: in the words of the system, by what its tables have, or else in those of the library.
#[derive(Debug, Drop, Error)]
pub enum Cause {
    #[error("{0}")]
    System(io::Error),
    #[error("{0}")]
    Tables(Reason),
    #[error("{0}")]
    Library(LibraryError),
    #[error("{0}: another program has it; if that is prt serve, use --server")]
    Locked(LibraryError),
    #[error("{0}: another program has it, such as prt serve")]
    InUse(LibraryError),
}

/// Finds which columns of a database, or else which rows, were refused so, if that is known.
fn tables_reason<S: Alter>(conn: &mut Connection<S>, refusal: Refusal) -> Option<Reason>
    ensures { IsOnlyRead S.Store refusal conn.old conn.new }
{
    match refusal {
        Refusal::Damaged => match rows_reason(conn) {
            Ok(reason) => reason,
            Err(_) => None,
        },
        Refusal::OpenFailed => columns_reason(conn.schema()),
        _ => None,
    }
}

/// Closes a database that was refused, and returns what of its tables was, if that is known. What the closing answers says
/// no more of that.
pub(crate) fn close_refused<S: Alter + Drop, M: DatabaseOpener<Connection<S>>>(
    opener: &mut M,
    mut conn: Connection<S>,
    refusal: Refusal,
) -> Option<Reason>
    ensures { (last : Held S) × IsOnlyRead S.Store refusal conn last × M.closes opener.old opener.new last }
{
    let reason = tables_reason(&mut conn, refusal);
    let _ = opener.close(conn);
    reason
}

/// Says what failed in the words of the library, and of a locked file who may have it. If the file is only queried, a server
/// that has it can be queried too.
fn library_cause(wanted: Wanted, error: LibraryError) -> Cause {
    match error {
        LibraryError::SqliteFailure(ErrorCode::DatabaseBusy) => match wanted {
            Wanted::Ours => Cause::Locked(error),
            Wanted::Any => Cause::InUse(error),
        },
        error => Cause::Library(error),
    }
}

/// Finds out why a database could not be opened, if that is known. The machine is asked first, since the library says no
/// more of a file than that it can't be opened.
pub(crate) fn cause_of<C, M: DatabaseOpener<C>>(
    opener: &M,
    path: &str,
    wanted: Wanted,
    refusal: Refusal,
    found: Result<Option<Reason>, LibraryError>,
) -> Option<Cause> {
    if let Refusal::OpenFailed = refusal {
        if let Some(reason) = opener.why_not(path, wanted) {
            return Some(Cause::System(reason));
        }
    }
    match found {
        Ok(reason) => reason.map(Cause::Tables),
        Err(error) => Some(library_cause(wanted, error)),
    }
}
