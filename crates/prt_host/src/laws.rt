//! Laws of runs, which no program calls.
ghost use Rattle.prt_host.specs.Runs.{AskedIsFound, RunBegins, RunIsFound, ServiceIsFound};

use prt_machine::DatabaseOpener;
use sqlite::{Alter, Connection};

/// A run begins with the state that its opening made (`begins`). An opening after a run makes a state that the session of
/// that run left (`run`); after serving, one that the publisher may have stored at its end (`served`); after a question,
/// the one that was queried (`asked`).
///
/// Premises: the later opening is handed what was left, as it was when it was handed to its closing, or as a crash left it
/// then. Of files that are handed on `prt_publisher::files_keep` says so. The disk returns what was written, and our tables
/// are the first of the file.
pub fn runs_go_on<S: Alter, M: DatabaseOpener<Connection<S>>>()
    ensures begins { RunBegins S.Store M.DatabaseOpener }
    ensures run { RunIsFound S.Store M.DatabaseOpener }
    ensures served { ServiceIsFound S.Store }
    ensures asked { AskedIsFound S.Store }
{}
