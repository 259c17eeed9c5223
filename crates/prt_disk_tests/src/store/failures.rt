//! Commits on a disk that fails.

ghost use Rattle.std.specs.Prelude.{IsTrue};

use super::steps::committed;
use prt_refusals::StoreCall;
use prt_version::Refusal;
use sqlite::{Connection, Files, Options};
use sqlite_disk::{Disk, Fuse, Memory};
use std::alloc::Global;

/// Why a command is refused in the database of these files. Each page is read from the log again, so that each statement
/// calls it. For files of whatever kind, so that the proof knows nothing of them.
fn refusal_in<V: Disk + Drop>(alloc: Global, files: Files<V>) -> Option<Refusal>
    requires log { IsTrue (V.Disk.is_usable files.log) }
    requires db { IsTrue (V.Disk.is_usable files.db) }
{
    let options = Options {
        cache_pages: 1,
        spill_pages: 1,
        checkpoint_frames: 1000,
        seed: 9,
    };
    match Connection::open_files(alloc, files, options) {
        Ok(connection) => committed(alloc, connection, "route add 10/8 dev a").err(),
        Err(_) => Some(Refusal::OpenFailed),
    }
}

/// Why a command is refused in a new database whose log takes so many calls and then fails.
fn refusal_after(alloc: Global, calls: u64) -> Option<Refusal> {
    let log = Fuse::new(Memory::new(alloc), calls);
    let db = Fuse::new(Memory::new(alloc), u64::MAX);
    refusal_in(alloc, Files { log, db })
}

/// What befalls the command in turn, as the log takes more and more calls before it fails.
const IN_TURN: [Option<Refusal>; 5] = [
    Some(Refusal::OpenFailed),
    Some(Refusal::StoreFailed(StoreCall::Write)),
    Some(Refusal::StoreFailed(StoreCall::Count)),
    Some(Refusal::StoreFailed(StoreCall::Commit)),
    None,
];

#[test]
fn names_the_call_that_failed(rt: HostRuntime) {
    let mut in_turn = IN_TURN.iter();
    let mut wanted = in_turn.next();
    for calls in 0..150 {
        let refusal = refusal_after(rt.alloc(), calls);
        if wanted != Some(&refusal) {
            wanted = in_turn.next();
        }
        assert_eq!(rt; wanted, Some(&refusal), "{calls}");
    }
    assert!(rt; in_turn.next().is_none());
}
