//! A front by itself: its readers, beside the commit of a store.
ghost use Rattle.std.specs.Prelude.{◌≡◌, ◌+◌, None, IfOk};
ghost use Rattle.prt_command.specs.Storable.{IsStorable};
ghost use Rattle.prt_version.specs.Change.{apply, refusal};

use prt_command::{Command, Refusal};
use prt_published::Front;
use prt_store::{Stamp, Store};
use prt_version::Version;
use prt_version::owners::first_owner;
use sqlite::{Alter, Connection};
use std::alloc::Global;
use std::snapshot::Snapshot;
use std::sync::Wait;
use std::test::Fail;

/// What two readers of a front find and know around a publication.
#[derive(Debug, Drop, PartialEq)]
struct Found {
    /// The number that the first fetches before it.
    before: u64,
    /// How many commands the second knows once they were reported to it, and the number that it fetches then.
    told: u64,
    fetched: u64,
    /// The number that the first fetches after it, and how many commands it knows then.
    after: u64,
    known: u64,
}

/// Commits a command to the store of a version. Returns the stamp, and the version after it.
fn commit_next<S: Alter + Drop>(
    store: &mut Store<S>,
    version: &Version,
    command: &Command,
) -> Result<(Stamp, Version), Refusal>
    requires { IsStorable command.now }
    ensures stamp { IfOk result (λ made. made.0.number ≡ version.now.count + 1) }
    ensures next { IfOk result (λ made. made.1 ≡ apply version.now command.now) }
    ensures allowed { IfOk result (λ _. refusal version.now command.now ≡ None) }
{
    let number = version.number() + 1;
    let change = version.check(command)?;
    let next = version.next(&change)?;
    let stamp = store.commit(&change, number)?;
    Ok((stamp, next))
}

/// Publishes the version after a flush of the rules, which is always accepted, in a front of its own.
fn look_around<S: Alter + Drop, H: Wait>(
    rt: &H,
    alloc: Global,
    store: &mut Store<S>,
) -> Result<Option<Found>, Refusal> {
    let loaded = store.load(alloc)?;
    let command = Command::RuleFlush;
    let (stamp, next) = commit_next(store, &loaded, &command)?;
    let mut front = Front::new(alloc, first_owner(alloc, loaded)?)?;
    let mut readers = front.readers(rt, alloc)?;
    let (Some(mut first), Some(mut second)) = (readers.pop(), readers.pop()) else {
        return Ok(None);
    };
    let before = first.fetch()?.number();
    let said = Snapshot::of(&command);
    let told = front.publish(rt, stamp, said, first_owner(alloc, next)?)?;
    second.learn(&told);
    let found = Found {
        before,
        told: second.known().count(),
        fetched: second.fetch()?.number(),
        after: first.fetch()?.number(),
        known: first.known().count(),
    };
    front.end(rt);
    Ok(Some(found))
}

/// Looks around the store that adopts a connection, in which a version is published.
fn look_over<S: Alter + Drop, H: Wait>(
    rt: &H,
    alloc: Global,
    connection: Connection<S>,
) -> Result<Option<Found>, Refusal> {
    match Store::adopt(connection) {
        Ok(mut store) => look_around(rt, alloc, &mut store),
        Err((reason, _)) => Err(reason),
    }
}

#[test]
fn readers_find_a_publication(rt: HostRuntime) -> Result<(), Fail> {
    let alloc = rt.alloc();
    let found = look_over(&rt, alloc, Connection::open_in_memory(alloc)?)?;
    assert!(rt;
        found
            == Some(Found {
                before: 0,
                told: 1,
                fetched: 1,
                after: 1,
                known: 1,
            })
    );
    Ok(())
}
