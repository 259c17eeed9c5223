//! Publishers over the database of a connection that is still to be had.
ghost use Rattle.std.specs.Prelude.{◌≡◌, Err, IfErr, IfOk, Ok};
ghost use Rattle.sqlite.specs.Files.{IsOpened, file_state, over_files};
ghost use Rattle.sqlite.specs.State.{HasCleanDisk};
ghost use Rattle.prt_refusals.specs.Opening.{IsOpenRefusal};
ghost use Rattle.prt_refusals.specs.declared.refusal.Refusal.TheVariants.{OpenFailed};
ghost use Rattle.prt_published.specs.Line.{line_state};
ghost use Rattle.prt_publisher.specs.Openings.{OpensOne, RefusesToOpen};
ghost use Rattle.prt_publisher.specs.Standing.{IsQuiet};
ghost use Rattle.prt_version.specs.Sound.{IsSound};

use crate::{Phase, Publisher};
use prt_command::Refusal;
use prt_grace::Domain;
use sqlite::{Alter, Connection, Error, File, FileStore};
use std::alloc::Global;

/// Opens a publisher over the database of the connection that an open returned.
///
/// # Errors
///
/// `OpenFailed` with the library's error if it returned none; otherwise, with the connection, as `Publisher::adopt`.
pub fn publisher_over<S: Alter + Drop>(
    alloc: Global,
    conn: Result<Connection<S>, Error>,
) -> Result<(Publisher<S>, Domain), (Refusal, Result<Connection<S>, Error>)>
    ensures ready { IfOk result (λ made. made.0.phase ≡ Phase.Ready) }
    ensures quiet { IfOk result (λ made. IsQuiet made.0.phase) }
    ensures sound { IfOk result (λ made. IsSound (line_state made.0.line)) }
    ensures reason { IfErr result (λ refused. IsOpenRefusal refused.0) }
    ensures ok { IfOk result (λ made. OpensOne S.Store (λ was. conn ≡ Ok was) made.0) }
    ensures err { IfErr result (λ refused. IfOk refused.1 (RefusesToOpen S.Store (λ was. conn ≡ Ok was) refused.0)) }
    ensures unopened { IfErr result (λ refused. IfErr refused.1 (λ error. (conn ≡ Err error) × (refused.0 ≡ OpenFailed))) }
{
    match conn {
        Ok(conn) => match Publisher::adopt(alloc, conn) {
            Ok(made) => Ok(made),
            Err((refusal, conn)) => Err((refusal, Ok(conn))),
        },
        Err(error) => Err((Refusal::OpenFailed, Err(error))),
    }
}

impl Publisher<FileStore<File>> {
    /// Opens a publisher over the database file at this path, which is made if there is none, as `Store::open` does, and
    /// returns its domain too.
    ///
    /// # Errors
    ///
    /// `OpenFailed` with the library's error if the path can't be opened or the file is no database; otherwise, with the
    /// connection, as `Publisher::adopt`.
    pub fn open(
        rt: &HostRuntime,
        alloc: Global,
        path: &str,
    ) -> Result<
        (Publisher<FileStore<File>>, Domain),
        (Refusal, Result<Connection<FileStore<File>>, Error>),
    >
        ensures ready { IfOk result (λ made. made.0.phase ≡ Phase.Ready) }
        ensures quiet { IfOk result (λ made. IsQuiet made.0.phase) }
        ensures sound { IfOk result (λ made. IsSound (line_state made.0.line)) }
        ensures reason { IfErr result (λ refused. IsOpenRefusal refused.0) }
        ensures ok { IfOk result (λ made. OpensOne over_files (λ was. HasCleanDisk (file_state was) → IsOpened was) made.0) }
        ensures err { IfErr result (λ refused. IfOk refused.1 (RefusesToOpen over_files (λ was. HasCleanDisk (file_state was) → IsOpened was) refused.0)) }
        ensures unopened { IfErr result (λ refused. IfErr refused.1 (λ _. refused.0 ≡ OpenFailed)) }
    {
        publisher_over(alloc, Connection::open(rt, path))
    }
}
