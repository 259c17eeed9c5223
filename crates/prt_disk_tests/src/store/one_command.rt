//! One command of a publisher over a database of which one call of the log fails. Each test is of one promise alone:
//! `tests/wrong_bodies` breaks them one by one.
ghost use Rattle.prt_publisher.specs.Standing.{IsQuiet};

use super::database::{Contents, OPENING_RULES, spells};
use super::faulty::{Faulty, OPTIONS, calls_made, closed, copies, new_files};
use prt_grace::Domain;
use prt_publisher::{Phase, Publisher};
use prt_refusals::StoreCall;
use prt_version::{Command, Refusal};
use sqlite::{Alter, Connection, Files};
use sqlite_disk::Disk;
use std::alloc::Global;
use std::sync::Wait;
use std::test::Fail;

/// What the database encodes before `rule flush`.
const BEFORE: Contents = Contents {
    number: 0,
    rules: OPENING_RULES,
    routes: "end 0\n",
};

/// What it encodes after that.
const AFTER: Contents = Contents {
    number: 1,
    rules: "0:\tfrom all lookup local\nend 1\n",
    routes: "end 0\n",
};

/// How the command is made: all of it, or as far as its commit.
#[derive(Clone, Copy)]
enum Extent {
    Submitted,
    Committed,
}

/// How the command ended: why it was refused, if it was, and the phase of the publisher then.
#[derive(Drop)]
struct Ended {
    refused: Option<Refusal>,
    phase: Phase,
}

/// What came of the command over files of which one call failed.
#[derive(Drop)]
struct Found {
    /// How it ended, or why there was no publisher.
    ended: Result<Ended, Refusal>,
    /// Whether the database then encodes the state before the command, and whether it encodes the one after it.
    is_before: bool,
    is_after: bool,
}

impl Found {
    /// Checks whether the command is stored if it was acknowledged.
    fn is_stored_if_acknowledged(&self) -> bool {
        match &self.ended {
            Ok(ended) => ended.refused.is_some() || self.is_after,
            Err(_) => true,
        }
    }

    /// Checks whether the publisher is closed if the commit failed.
    fn is_closed_if_failed(&self) -> bool {
        match &self.ended {
            Ok(ended) => match ended.refused {
                Some(Refusal::StoreFailed(_)) => ended.phase == Phase::Closed,
                Some(_) => false,
                None => ended.phase == Phase::Committed,
            },
            Err(_) => true,
        }
    }

    /// Checks whether the database encodes one of the two states: the one after the command only if it was committed, or the
    /// call that commits it failed.
    fn is_whole(&self) -> bool {
        match &self.ended {
            Ok(ended) => match ended.refused {
                Some(Refusal::StoreFailed(StoreCall::Commit)) => self.is_before || self.is_after,
                Some(_) => self.is_before,
                None => self.is_after,
            },
            Err(_) => self.is_before,
        }
    }
}

/// Makes the command. Returns why it was refused, if it was.
fn refusal_of<S: Alter + Drop, H: Wait>(
    rt: &H,
    publisher: &mut Publisher<S>,
    domain: &Domain,
    extent: Extent,
) -> Option<Refusal>
    requires { IsQuiet publisher.old.phase }
{
    let made = match extent {
        Extent::Submitted => submitted(rt, publisher, domain),
        Extent::Committed => committed(rt, publisher, domain),
    };
    made.err()
}

/// Submits the command.
fn submitted<S: Alter + Drop, H: Wait>(
    rt: &H,
    publisher: &mut Publisher<S>,
    domain: &Domain,
) -> Result<(), Refusal>
    requires { IsQuiet publisher.old.phase }
{
    match publisher.submit(rt, domain, &Command::RuleFlush) {
        Ok(_) => Ok(()),
        Err(reason) => Err(reason),
    }
}

/// Prepares the command and commits it.
fn committed<S: Alter + Drop, H: Wait>(
    rt: &H,
    publisher: &mut Publisher<S>,
    domain: &Domain,
) -> Result<(), Refusal>
    requires { IsQuiet publisher.old.phase }
{
    if let Err(reason) = publisher.prepare(rt, domain, &Command::RuleFlush) {
        return Err(reason);
    }
    publisher.commit()
}

/// Makes the command by a publisher over the database of a connection. Returns how that ended, or why there is no
/// publisher; and the connection.
fn make_over<S: Alter + Drop, H: Wait>(
    rt: &H,
    alloc: Global,
    connection: Connection<S>,
    extent: Extent,
) -> (Result<Ended, Refusal>, Connection<S>) {
    match Publisher::adopt(alloc, connection) {
        Ok((mut publisher, domain)) => {
            let refused = refusal_of(rt, &mut publisher, &domain, extent);
            let phase = publisher.phase();
            (Ok(Ended { refused, phase }), publisher.end(rt))
        }
        Err((reason, connection)) => (Err(reason), connection),
    }
}

/// The same over the database of these files. For files of whatever kind, so that the proof knows nothing of them.
fn make_in<V: Disk + Drop, H: Wait>(
    rt: &H,
    alloc: Global,
    files: Files<V>,
    extent: Extent,
) -> (Result<Ended, Refusal>, Files<V>) {
    if !files.may_be_used() {
        return (Err(Refusal::OpenFailed), files);
    }
    match Connection::open_files(alloc, files, OPTIONS) {
        Ok(connection) => {
            let (ended, connection) = make_over(rt, alloc, connection, extent);
            (ended, closed(connection))
        }
        Err((_, left)) => (Err(Refusal::OpenFailed), left.into_files()),
    }
}

/// Checks whether the database of these files encodes the state before the command, and whether it encodes the one after
/// it. Returns the files too.
fn found_in<V: Disk + Drop>(
    alloc: Global,
    files: Files<V>,
) -> Result<(bool, bool, Files<V>), Refusal> {
    if !files.may_be_used() {
        return Err(Refusal::OpenFailed);
    }
    match Connection::open_files(alloc, files, OPTIONS) {
        Ok(connection) => {
            let (is_before, same) = spells(alloc, connection, &BEFORE)?;
            let (is_after, same) = spells(alloc, same, &AFTER)?;
            Ok((is_before, is_after, closed(same)))
        }
        Err(_) => Err(Refusal::OpenFailed),
    }
}

/// Makes the files of a new database.
fn new_database(alloc: Global) -> Result<Files<Faulty>, Fail> {
    let (_, _, files) = found_in(alloc, new_files(alloc, u64::MAX)?)?;
    Ok(files)
}

/// Counts how many calls of the log are made of copies of these files if none fails.
fn calls_of<H: Wait>(
    rt: &H,
    alloc: Global,
    files: &Files<Faulty>,
    extent: Extent,
) -> Result<u64, Fail> {
    let (_ended, whole) = make_in(rt, alloc, copies(alloc, files, u64::MAX)?, extent);
    Ok(calls_made(&whole))
}

/// Makes the command over copies of these files, whose log fails once, after so many calls.
fn found_after<H: Wait>(
    rt: &H,
    alloc: Global,
    files: &Files<Faulty>,
    extent: Extent,
    calls: u64,
) -> Result<Found, Fail> {
    let (ended, left) = make_in(rt, alloc, copies(alloc, files, calls)?, extent);
    let (is_before, is_after, _files) = found_in(alloc, copies(alloc, &left, u64::MAX)?)?;
    Ok(Found {
        ended,
        is_before,
        is_after,
    })
}

#[test]
fn stores_what_it_acknowledges(rt: HostRuntime) -> Result<(), Fail> {
    let alloc = rt.alloc();
    let files = new_database(alloc)?;
    for calls in 0..=calls_of(&rt, alloc, &files, Extent::Submitted)? {
        let found = found_after(&rt, alloc, &files, Extent::Submitted, calls)?;
        assert!(rt; found.is_stored_if_acknowledged(), "{calls}");
    }
    Ok(())
}

#[test]
fn closes_at_a_failed_commit(rt: HostRuntime) -> Result<(), Fail> {
    let alloc = rt.alloc();
    let files = new_database(alloc)?;
    for calls in 0..=calls_of(&rt, alloc, &files, Extent::Committed)? {
        let found = found_after(&rt, alloc, &files, Extent::Committed, calls)?;
        assert!(rt; found.is_closed_if_failed(), "{calls}");
    }
    Ok(())
}

#[test]
fn leaves_one_command_or_none(rt: HostRuntime) -> Result<(), Fail> {
    let alloc = rt.alloc();
    let files = new_database(alloc)?;
    for calls in 0..=calls_of(&rt, alloc, &files, Extent::Committed)? {
        let found = found_after(&rt, alloc, &files, Extent::Committed, calls)?;
        assert!(rt; found.is_whole(), "{calls}");
    }
    Ok(())
}
