//! Laws of the durable desk, which no program calls.

ghost use Rattle.prt_publisher.specs.Files.{FilesKeep};
ghost use Rattle.prt_publisher.specs.Stops.{LeavesAState};

use sqlite::Alter;
use sqlite_disk::Disk;

/// Files that a connection is closed to (`close_files`), and from which another one is opened (`open_files`), show what was
/// left. Premise: the disk returns what was written.
pub fn files_keep<V: Disk>()
    ensures { FilesKeep V.Disk }
{}

/// Whichever store call of commands a stop falls into, of one or of those of a file, a crash leaves the state before
/// them, or the one after all of them. The latter it leaves only if the stop fell into the call that commits. Between
/// the calls of commands it leaves the published state.
pub fn stops_leave_a_state<S: Alter>()
    ensures { LeavesAState S.Store }
{}
