//! Files in memory of which one call fails.

use prt_store::faults::FailOnce;
use sqlite::{Connection, FileStore, Files, Options};
use sqlite_disk::{Disk, Memory};
use std::alloc::Global;
use std::io;

/// Each page is read from the log again, so that each statement calls it.
pub const OPTIONS: Options = Options {
    cache_pages: 1,
    spill_pages: 1,
    checkpoint_frames: 1000,
    seed: 9,
};

/// Memory of which one call fails.
pub type Faulty = FailOnce<Memory>;

/// Returns the files of a connection, closed as far as their disk allows it.
pub fn closed<V: Disk + Drop>(connection: Connection<FileStore<V>>) -> Files<V> {
    match connection.close_files() {
        Ok(files) => files,
        Err((_, store)) => store.close(),
    }
}

/// Memory with these bytes, which fails after so many calls.
fn faulty(alloc: Global, bytes: &[u8], calls: u64) -> io::Result<Faulty> {
    let mut memory = Memory::new(alloc);
    memory.write_at(0, bytes)?;
    Ok(FailOnce::new(memory, calls))
}

/// New files whose log fails after so many calls.
pub fn new_files(alloc: Global, calls: u64) -> io::Result<Files<Faulty>> {
    Ok(Files {
        log: faulty(alloc, b"", calls)?,
        db: faulty(alloc, b"", u64::MAX)?,
    })
}

/// Files with the bytes of these, whose log fails after so many calls.
pub fn copies(alloc: Global, files: &Files<Faulty>, calls: u64) -> io::Result<Files<Faulty>> {
    Ok(Files {
        log: faulty(alloc, files.log.inner().bytes(), calls)?,
        db: faulty(alloc, files.db.inner().bytes(), u64::MAX)?,
    })
}

/// Counts how many calls the log takes before the one that fails: all that were made, of files of which none failed.
pub fn calls_made(files: &Files<Faulty>) -> u64 {
    u64::MAX - files.log.calls_left()
}
