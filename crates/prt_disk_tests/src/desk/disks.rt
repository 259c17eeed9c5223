//! Runs over the two files of a database, which come back also if they can't be opened.

use super::desks::{desk_over, run, run_together};
use prt_session::{Refusal, ScriptEnd};
use prt_store::faults::FailOnce;
use sqlite::{Connection, Error, FileStore, Files, Options};
use sqlite_disk::{Disk, Fuse, Memory};
use std::alloc::Global;
use std::io;
use std::sync::Wait;

/// Each page is read from the log again, so that each statement calls it.
pub const OPTIONS: Options = Options {
    cache_pages: 1,
    spill_pages: 1,
    checkpoint_frames: 1000,
    seed: 9,
};

/// Memory that can stop and fail. Each test has this disk, since each further one would be built with all of the database.
pub type Faulty = FailOnce<Fuse<Memory>>;

/// At which calls the two files stop or fail: each takes so many calls and fails each later one, or fails the one after
/// so many.
#[derive(Clone, Copy)]
pub struct Faults {
    pub log_stop: u64,
    pub db_stop: u64,
    pub log_failure: u64,
    pub db_failure: u64,
}

impl Faults {
    /// Nothing stops or fails.
    pub const NONE: Faults = Faults {
        log_stop: u64::MAX,
        db_stop: u64::MAX,
        log_failure: u64::MAX,
        db_failure: u64::MAX,
    };
}

/// How a script is run: its commands one after the other, or together as an atomic file.
#[derive(Clone, Copy)]
pub enum Mode {
    InTurn,
    Together,
}

/// How a script ran over a database.
#[derive(Drop)]
pub struct Ran {
    pub replies: Vec<u8>,
    pub end: ScriptEnd,
    /// What the desk then returns as the error of the commit that closed it.
    pub failure: Option<Error>,
}

/// Files of these contents, with these faults.
fn files_with(log: Memory, db: Memory, faults: Faults) -> Files<Faulty> {
    Files {
        log: FailOnce::new(Fuse::new(log, faults.log_stop), faults.log_failure),
        db: FailOnce::new(Fuse::new(db, faults.db_stop), faults.db_failure),
    }
}

/// New files with these faults.
pub fn new_files(alloc: Global, faults: Faults) -> Files<Faulty> {
    files_with(Memory::new(alloc), Memory::new(alloc), faults)
}

/// Returns the files of a connection, closed as far as their disk allows it.
pub fn closed<V: Disk + Drop>(connection: Connection<FileStore<V>>) -> Files<V> {
    match connection.close_files() {
        Ok(files) => files,
        Err((_, store)) => store.close(),
    }
}

/// Runs a script over the database of a connection. Returns how it ran, or why no desk was made; and the files.
fn run_over<V: Disk + Drop, H: Wait + Copy + Drop>(
    rt: H,
    alloc: Global,
    connection: Connection<FileStore<V>>,
    script: &str,
    mode: Mode,
) -> (Result<Ran, Refusal>, Files<V>) {
    match desk_over(rt, alloc, connection) {
        Ok(mut desk) => {
            let (replies, end) = match mode {
                Mode::InTurn => run(alloc, &mut desk, script),
                Mode::Together => run_together(alloc, &mut desk, script),
            };
            let failure = desk.failure();
            let ran = Ran {
                replies,
                end,
                failure,
            };
            (Ok(ran), closed(desk.end()))
        }
        Err((reason, connection)) => (Err(reason), closed(connection)),
    }
}

/// Runs a script over the database of these files. For files of whatever kind, so that the proof knows nothing of them.
pub fn run_in<V: Disk + Drop, H: Wait + Copy + Drop>(
    rt: H,
    alloc: Global,
    files: Files<V>,
    script: &str,
    mode: Mode,
) -> (Result<Ran, Refusal>, Files<V>) {
    if !files.may_be_used() {
        return (Err(Refusal::OpenFailed), files);
    }
    match Connection::open_files(alloc, files, OPTIONS) {
        Ok(connection) => run_over(rt, alloc, connection, script, mode),
        Err((_, left)) => (Err(Refusal::OpenFailed), left.into_files()),
    }
}

/// Memory with the bytes of a disk.
fn copied(alloc: Global, disk: &Faulty) -> io::Result<Memory> {
    let mut copy = Memory::new(alloc);
    copy.write_at(0, disk.inner().inner().bytes())?;
    Ok(copy)
}

/// Files that hold the bytes of these, with these faults.
pub fn copies(alloc: Global, files: &Files<Faulty>, faults: Faults) -> io::Result<Files<Faulty>> {
    let log = copied(alloc, &files.log)?;
    let db = copied(alloc, &files.db)?;
    Ok(files_with(log, db, faults))
}

/// Counts how many calls of the log, and of the database's file, were made of files that fail nowhere.
pub fn calls_made(files: &Files<Faulty>) -> (u64, u64) {
    let made = |disk: &Faulty| u64::MAX - disk.calls_left();
    (made(&files.log), made(&files.db))
}
