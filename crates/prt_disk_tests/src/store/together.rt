//! Commands that are committed together, over a log of which each call in turn is the only one that fails.

ghost use Rattle.std.specs.Prelude.{All, IfOk};
ghost use Rattle.prt_command.specs.Storable.{IsStorable};

use super::database::{Contents, OPENING_RULES, spells};
use super::faulty::{Faulty, OPTIONS, calls_made, closed, copies, new_files};
use super::steps::OPENING;
use prt_command::{Command, Request, read_line};
use prt_refusals::StoreCall;
use prt_store::Store;
use prt_store::faults::FailOnce;
use prt_version::Refusal;
use sqlite::{Alter, Connection, Files};
use sqlite_disk::Disk;
use std::alloc::Global;
use std::io;
use std::test::Fail;

/// Five commands that are accepted one after the other.
const CHURN: &str =
    "route replace 10/8 via 192.0.2.1\nroute change blackhole 10/8\nrule add priority 5 from 10/8 table 100\nrule del priority 5\nroute flush table all\n";

/// What a new database encodes after all five.
const AFTER: Contents = Contents {
    number: 5,
    rules: OPENING_RULES,
    routes: "end 0\n",
};

/// Collects the commands of a script's lines.
fn commands_of(alloc: Global, script: &str) -> Result<Vec<Command>, Refusal>
    ensures { IfOk result (λ commands. All IsStorable commands.items) }
{
    let mut commands = Vec::new(alloc);
    for line in script.lines() {
        match read_line(line.as_bytes())? {
            Some(Request::Command(command)) => commands.push(command)?,
            _ => return Err(Refusal::UnknownVerb),
        }
    }
    Ok(commands)
}

/// Commits the commands together after what the store holds.
fn submit_all<S: Alter + Drop>(
    alloc: Global,
    store: &mut Store<S>,
    commands: &Vec<Command>,
) -> Result<(), Refusal>
    requires { All IsStorable commands.now.items }
{
    let version = store.load(alloc)?;
    // Recalls that the version is sound.
    let _number = version.number();
    let (changes, last) = version.after_all(commands)?;
    if changes.is_empty() {
        return Ok(());
    }
    let _stamp = store.commit_all(&changes, last.number())?;
    Ok(())
}

/// Commits the script's commands together in the database of a connection. Returns what comes of it, and the connection.
fn submit_over<S: Alter + Drop>(
    alloc: Global,
    connection: Connection<S>,
) -> (Result<(), Refusal>, Connection<S>) {
    match Store::adopt(connection) {
        Ok(mut store) => {
            let done = match commands_of(alloc, CHURN) {
                Ok(commands) => submit_all(alloc, &mut store, &commands),
                Err(refusal) => Err(refusal),
            };
            (done, store.release())
        }
        Err((refusal, connection)) => (Err(refusal), connection),
    }
}

/// Commits the script's commands together in the database of these files. For files of whatever kind, so that the proof
/// knows nothing of them.
fn submit_in<V: Disk + Drop>(alloc: Global, files: Files<V>) -> (Result<(), Refusal>, Files<V>) {
    if !files.may_be_used() {
        return (Err(Refusal::OpenFailed), files);
    }
    match Connection::open_files(alloc, files, OPTIONS) {
        Ok(connection) => {
            let (done, connection) = submit_over(alloc, connection);
            (done, closed(connection))
        }
        Err((_, left)) => (Err(Refusal::OpenFailed), left.into_files()),
    }
}

/// Checks whether the database of these files encodes the opening state, and whether it encodes the one after all commands.
fn found_in<V: Disk + Drop>(alloc: Global, files: Files<V>) -> Result<(bool, bool), Refusal> {
    if !files.may_be_used() {
        return Err(Refusal::OpenFailed);
    }
    match Connection::open_files(alloc, files, OPTIONS) {
        Ok(connection) => {
            let (is_before, same) = spells(alloc, connection, &OPENING)?;
            Ok((is_before, spells(alloc, same, &AFTER)?.0))
        }
        Err(_) => Err(Refusal::OpenFailed),
    }
}

/// Commits the script's commands together in a new database whose log fails once, after so many calls. Returns what comes of
/// it, and the files.
fn submit_after(alloc: Global, calls: u64) -> io::Result<(Result<(), Refusal>, Files<Faulty>)> {
    Ok(submit_in(alloc, new_files(alloc, calls)?))
}

/// Checks whether a database whose log fails once, after so many calls, then encodes all of the script's commands or none,
/// as was reported; and whether that call came.
fn is_right_after(alloc: Global, calls: u64) -> Result<(bool, bool), Fail> {
    let (done, files) = submit_after(alloc, calls)?;
    let (is_before, is_after) = found_in(alloc, copies(alloc, &files, u64::MAX)?)?;
    let is_right = match done {
        Ok(()) => is_after,
        Err(Refusal::StoreFailed(StoreCall::Commit)) => is_before || is_after,
        Err(_) => is_before,
    };
    Ok((is_right, files.log.has_failed()))
}

#[test]
fn commits_all_or_none(rt: HostRuntime) -> Result<(), Fail> {
    let alloc = rt.alloc();
    let (_done, whole) = submit_after(alloc, u64::MAX)?;
    let made = calls_made(&whole);
    for calls in 0..=made {
        let met = is_right_after(alloc, calls)?;
        assert_eq!(rt; met, (true, calls < made), "{calls}");
    }
    Ok(())
}
