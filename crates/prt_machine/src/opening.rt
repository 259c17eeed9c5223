//! Publishers and desks over the databases of a machine.
ghost use Rattle.std.specs.Prelude.{◌≡◌, IfErr, IfOk, OnOk};
ghost use Rattle.prt_refusals.specs.Opening.{IsOpenRefusal};
ghost use Rattle.prt_publisher.specs.StoreDesk.{StandsFor, published};
ghost use Rattle.prt_published.specs.Line.{line_state};
ghost use Rattle.prt_machine.specs.Closing.{LeavesNoneOpen};
ghost use Rattle.prt_publisher.specs.Openings.{OpensOne};
ghost use Rattle.prt_publisher.specs.Standing.{IsQuiet};
ghost use Rattle.prt_session.specs.Open.{IsOpenOn};
ghost use Rattle.prt_version.specs.Sound.{IsSound};

use crate::cause::{Cause, cause_of, close_refused};
use crate::database_opener::{DatabaseOpener, Wanted};
use crate::telling::tell;
use prt_args::{FAULT, Fault, report};
use prt_grace::Domain;
use prt_program::{Refusal, cause_message, log_message};
use prt_publisher::{Phase, Publisher, StoreDesk, publisher_over};
use sqlite::{Alter, Connection};
use std::alloc::Global;
use std::io::Write;
use std::sync::Wait;

/// Opens a publisher over the database at a path of the machine, if it is one that is wanted.
///
/// # Errors
///
/// As of `publisher_over`, with the cause if it is known. No database is open then: one that was refused was closed
/// again, and after the refusal only read.
pub fn open_publisher<S: Alter + Drop, M: DatabaseOpener<Connection<S>>>(
    opener: &mut M,
    alloc: Global,
    path: &str,
    wanted: Wanted,
) -> Result<(Publisher<S>, Domain), (Refusal, Option<Cause>)>
    ensures ready { IfOk result (λ made. made.0.phase ≡ Phase.Ready) }
    ensures quiet { IfOk result (λ made. IsQuiet made.0.phase) }
    ensures sound { IfOk result (λ made. IsSound (line_state made.0.line)) }
    ensures opened { IfOk result (λ made. OpensOne S.Store (M.opens wanted opener.old opener.new path.now) made.0) }
    ensures there { wanted ≡ Wanted.Ours → OnOk result (M.is_there opener.old path.now) }
    ensures reason { IfErr result (λ refused. IsOpenRefusal refused.0) }
    ensures closed { IfErr result (λ refused. LeavesNoneOpen S.Store M.DatabaseOpener wanted refused.0 opener.old opener.new path.now) }
{
    match publisher_over(alloc, opener.open(path, wanted)) {
        Ok(made) => Ok(made),
        Err((refusal, Ok(conn))) => {
            let reason = close_refused(opener, conn, refusal);
            Err((refusal, cause_of(opener, path, wanted, refusal, Ok(reason))))
        }
        Err((refusal, Err(error))) => {
            Err((refusal, cause_of(opener, path, wanted, refusal, Err(error))))
        }
    }
}

/// Opens a desk over the database at a path of the machine, if it is one that is wanted.
///
/// # Errors
///
/// As of `open_publisher`.
pub fn open_desk<S: Alter + Drop, M: DatabaseOpener<Connection<S>>, H: Wait + Copy + Drop>(
    opener: &mut M,
    rt: H,
    alloc: Global,
    path: &str,
    wanted: Wanted,
) -> Result<StoreDesk<S, H>, (Refusal, Option<Cause>)>
    ensures stands { IfOk result (λ desk. IsSound (published desk) × IsOpenOn (StandsFor S.Store) desk (published desk)) }
    ensures opened { IfOk result (OpensOne S.Store (M.opens wanted opener.old opener.new path.now)) }
    ensures there { wanted ≡ Wanted.Ours → OnOk result (M.is_there opener.old path.now) }
    ensures reason { IfErr result (λ refused. IsOpenRefusal refused.0) }
    ensures closed { IfErr result (λ refused. LeavesNoneOpen S.Store M.DatabaseOpener wanted refused.0 opener.old opener.new path.now) }
{
    match open_publisher(opener, alloc, path, wanted) {
        Ok((publisher, domain)) => Ok(StoreDesk::new(rt, publisher, domain)),
        Err(refused) => Err(refused),
    }
}

/// Reports why a database could not be opened, and returns the exit status for it.
pub fn report_unopened<W: Write, E: Write>(
    alloc: Global,
    path: &str,
    refused: (Refusal, Option<Cause>),
    output: &mut W,
    errors: &mut E,
) -> u8
    ensures status { result ≡ FAULT }
    ensures unwritten { W.contents output.new ≡ W.contents output.old }
{
    let (refusal, cause) = refused;
    let status = report(&Fault::Opening(refusal), output, errors);
    if let Some(cause) = cause {
        tell(cause_message(alloc, &path, &cause), errors);
    }
    status
}

/// Closes the database at a path, and reports it if its log could not be moved into its file.
pub fn close_at<C, M: DatabaseOpener<C>, E: Write>(
    opener: &mut M,
    alloc: Global,
    path: &str,
    conn: C,
    errors: &mut E,
)
    ensures { M.closes opener.old opener.new conn }
{
    if let Err(reason) = opener.close(conn) {
        tell(log_message(alloc, path, &reason), errors);
    }
}
