//! Desks whose database is closed and opened again.

ghost use Rattle.std.specs.Prelude.{IsTrue};

use super::desks::{opened, replies};
use super::disks::{Faults, OPTIONS, new_files};
use prt_publisher::StoreDesk;
use prt_session::{OnRefusal, Refusal, Unobserved, run_script};
use sqlite::{Connection, FileStore, Files};
use sqlite_disk::Disk;
use std::alloc::Global;
use std::io::{self, Write};
use std::sync::Wait;
use std::test::Fail;

/// A writer that fails.
#[derive(Clone, Copy)]
struct Shut;

impl Write for Shut {
    fn write(&mut self, _bytes: &[u8]) -> io::Result<usize> {
        Err(io::Error::from(io::ErrorKind::Interrupted))
    }

    fn flush(&mut self) -> io::Result<()> {
        Ok(())
    }
}

/// Makes a desk over the database of these files. For files of whatever kind, so that the proof knows nothing of them.
fn desk_in<V: Disk + Drop, H: Wait + Copy + Drop>(
    rt: H,
    alloc: Global,
    files: Files<V>,
) -> Result<StoreDesk<FileStore<V>, H>, Refusal> {
    if !files.may_be_used() {
        return Err(Refusal::OpenFailed);
    }
    match Connection::open_files(alloc, files, OPTIONS) {
        Ok(connection) => opened(rt, alloc, connection),
        Err(_) => Err(Refusal::OpenFailed),
    }
}

/// Closes the database of a desk, and makes a desk over its files again.
fn reopened<V: Disk + Drop, H: Wait + Copy + Drop>(
    rt: H,
    alloc: Global,
    desk: StoreDesk<FileStore<V>, H>,
) -> Result<StoreDesk<FileStore<V>, H>, Refusal> {
    match desk.end().close_files() {
        Ok(files) => desk_in(rt, alloc, files),
        Err((_, store)) => {
            drop(store.close());
            Err(Refusal::OpenFailed)
        }
    }
}

/// Runs a script whose replies cannot be written, closes the database and opens it again. Returns why the run ended
/// and the replies to a second script.
fn run_unheard<V: Disk + Drop, H: Wait + Copy + Drop>(
    rt: H,
    alloc: Global,
    files: Files<V>,
    script: &str,
    second: &str,
) -> Result<(Option<Refusal>, Vec<u8>), Refusal> {
    let mut desk = desk_in(rt, alloc, files)?;
    let mut lines = script.as_bytes();
    let end = run_script(
        alloc,
        &mut desk,
        &mut lines,
        &mut Shut,
        OnRefusal::GoOn,
        &mut Unobserved,
    );
    let mut again = reopened(rt, alloc, desk)?;
    Ok((end.fault, replies(alloc, &mut again, second)))
}

/// Runs a script, closes the database and opens it again, and returns the replies to it and to a second one.
fn run_twice<V: Disk + Drop, H: Wait + Copy + Drop>(
    rt: H,
    alloc: Global,
    files: Files<V>,
    script: &str,
    second: &str,
) -> Result<(Vec<u8>, Vec<u8>), Refusal> {
    let mut desk = desk_in(rt, alloc, files)?;
    let first = replies(alloc, &mut desk, script);
    let mut again = reopened(rt, alloc, desk)?;
    Ok((first, replies(alloc, &mut again, second)))
}

#[test]
fn reopened_desk(rt: HostRuntime) -> Result<(), Fail> {
    let alloc = rt.alloc();
    let files = new_files(alloc, Faults::NONE);
    let (first, second) = run_twice(
        rt,
        alloc,
        files,
        "route add default via 192.0.2.1\n",
        "route get 10.0.0.1\n",
    )?;
    assert!(rt; first.as_slice() == b"ok 1\n".as_slice());
    assert!(rt;
        second.as_slice() == b"answer 1 rule 32766 table main default via 192.0.2.1\n".as_slice()
    );
    Ok(())
}

#[test]
fn an_unheard_command_is_kept(rt: HostRuntime) -> Result<(), Fail> {
    let alloc = rt.alloc();
    let files = new_files(alloc, Faults::NONE);
    let (fault, after) = run_unheard(rt, alloc, files, "rule flush\n", "route get 10.1.2.3\n")?;
    assert!(rt; fault == Some(Refusal::WriteFault));
    assert!(rt; after.as_slice() == b"answer 1 none\n".as_slice());
    Ok(())
}
