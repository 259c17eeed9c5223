//! A command that is found after the database was closed and opened again.

ghost use Rattle.std.specs.Prelude.{IsTrue};

use super::database::{Contents, adopted, spells};
use super::reopening::reopened;
use super::steps::committed;
use prt_version::Refusal;
use sqlite::{Connection, Files, Options};
use sqlite_disk::{Disk, Memory};
use std::alloc::Global;
use std::test::Fail;

/// What a new database encodes after `rule flush`.
const FLUSHED: Contents = Contents {
    number: 1,
    rules: "0:\tfrom all lookup local\nend 1\n",
    routes: "end 0\n",
};

/// Chooses how a connection is opened: with room for each page.
fn options() -> Options {
    Options {
        cache_pages: 100,
        spill_pages: 100,
        checkpoint_frames: 1000,
        seed: 9,
    }
}

/// Checks whether the database of these files, after `rule flush`, encodes that once it is closed and opened again.
fn finds_flush<V: Disk + Drop>(alloc: Global, files: Files<V>) -> Result<bool, Refusal>
    requires log { IsTrue (V.Disk.is_usable files.log) }
    requires db { IsTrue (V.Disk.is_usable files.db) }
{
    let connection = match Connection::open_files(alloc, files, options()) {
        Ok(connection) => committed(alloc, connection, "rule flush")?,
        Err(_) => return Err(Refusal::OpenFailed),
    };
    let store = reopened(alloc, adopted(connection)?, options())?;
    Ok(spells(alloc, store.release(), &FLUSHED)?.0)
}

#[test]
fn finds_a_command_after_a_restart(rt: HostRuntime) -> Result<(), Fail> {
    let alloc = rt.alloc();
    let files = Files {
        log: Memory::new(alloc),
        db: Memory::new(alloc),
    };
    assert!(rt; finds_flush(alloc, files)?);
    Ok(())
}
