//! Each call of a publisher, and its end in each phase.
ghost use Rattle.std.specs.Prelude.{◌≡◌};
ghost use Rattle.prt_command.specs.Storable.{IsStorable};

use crate::caller::{
    adopted, host_route, prepare_one, stored_number, submit_to_publisher, submit_two_together,
};
use prt_command::{Command, Refusal};
use prt_published::READERS;
use prt_publisher::{ChangeSet, Phase};
use sqlite::{Alter, Connection};
use std::alloc::Global;
use std::sync::Wait;
use std::test::Fail;

/// Goes on to a phase, and returns the number of the published state and the connection.
fn release_at<S: Alter + Drop, H: Wait + Copy + Drop>(
    rt: H,
    alloc: Global,
    connection: Connection<S>,
    phase: Phase,
) -> Result<(u64, Connection<S>), Refusal> {
    let (mut publisher, domain) = adopted(alloc, connection)?;
    if phase == Phase::Ready {
        return Ok((publisher.published().number(), publisher.release()));
    }
    let checked = publisher.check_all(&[Command::RuleFlush])?;
    publisher.admit(&mut domain.lock(&rt), checked)?;
    if phase == Phase::Admitted {
        return Ok((publisher.published().number(), publisher.release()));
    }
    publisher.plan()?;
    if phase == Phase::Prepared {
        return Ok((publisher.published().number(), publisher.release()));
    }
    publisher.commit()?;
    if phase == Phase::Committed {
        return Ok((publisher.published().number(), publisher.release()));
    }
    publisher.show(&rt)?;
    Ok((publisher.published().number(), publisher.release()))
}

#[test]
fn releases_in_each_phase(rt: HostRuntime) -> Result<(), Fail> {
    let alloc = rt.alloc();
    for (phase, published, stored) in [
        (Phase::Ready, 0, 0),
        (Phase::Admitted, 0, 0),
        (Phase::Prepared, 0, 0),
        (Phase::Committed, 0, 1),
        (Phase::Published, 1, 1),
    ] {
        let connection = Connection::open_in_memory(alloc)?;
        let (shown, connection) = release_at(rt, alloc, connection, phase)?;
        let (kept, _) = stored_number(alloc, connection)?;
        assert_eq!(rt; (shown, kept), (published, stored));
    }
    Ok(())
}

/// Prepares, commits and publishes one command, submits another, and returns the numbers of the receipts.
fn publish_two<S: Alter + Drop, H: Wait + Copy + Drop>(
    rt: H,
    alloc: Global,
    connection: Connection<S>,
) -> Result<(u64, u64, usize), Refusal> {
    let (mut publisher, domain) = adopted(alloc, connection)?;
    prepare_one(&rt, &mut publisher, &domain)?;
    publisher.commit()?;
    let first = publisher.publish(&rt, &domain)?.number();
    let second = submit_to_publisher(&rt, &mut publisher, &domain)?;
    let mut seats = publisher.seats(&rt, alloc)?;
    let mut readers = 0usize;
    for _ in 0..100 {
        match seats.take() {
            Some(mut reader) => {
                if reader.fetch()?.number() == second {
                    readers = readers.saturating_add(1);
                }
            }
            None => break,
        }
    }
    Ok((first, second, readers))
}

#[test]
fn publishes_two_commands(rt: HostRuntime) -> Result<(), Fail> {
    let alloc = rt.alloc();
    let connection = Connection::open_in_memory(alloc)?;
    assert_eq!(rt; publish_two(rt, alloc, connection)?, (1, 2, READERS));
    Ok(())
}

/// Submits two commands together. Returns the number that is published before, those of the receipt and of what is
/// published after, and how many versions nobody can hold then.
fn publish_together<S: Alter + Drop, H: Wait + Copy + Drop>(
    rt: H,
    alloc: Global,
    connection: Connection<S>,
) -> Result<(u64, u64, u64, usize), Refusal> {
    let (mut publisher, domain) = adopted(alloc, connection)?;
    let before = publisher.published().number();
    let receipt = submit_two_together(&rt, alloc, &mut publisher, &domain)?;
    let after = publisher.published().number();
    Ok((before, receipt, after, domain.reclaim(&rt)))
}

#[test]
fn publishes_one_version_of_two_commands(rt: HostRuntime) -> Result<(), Fail> {
    let alloc = rt.alloc();
    let connection = Connection::open_in_memory(alloc)?;
    assert_eq!(rt; publish_together(rt, alloc, connection)?, (0, 2, 2, 1));
    Ok(())
}

/// Adds a command that the set has. Returns whether it is refused because its route exists.
fn is_refused_again(set: &mut ChangeSet, command: &Command) -> bool
    requires { IsStorable command.now }
    ensures { set.new.base ≡ set.old.base }
{
    match set.add(command) {
        Ok(()) => false,
        Err(reason) => reason == Refusal::Exists,
    }
}

/// Submits a set of two commands, to which one of them was tried to be added twice. Returns the number of the version that
/// it is of, how many commands it has, the number of the version after them, and that of the receipt. The last is whether
/// the second try was refused because the route exists.
fn submit_set<S: Alter + Drop, H: Wait + Copy + Drop>(
    rt: H,
    alloc: Global,
    connection: Connection<S>,
) -> Result<(u64, usize, u64, u64, bool), Refusal> {
    let (mut publisher, domain) = adopted(alloc, connection)?;
    let route = host_route(alloc, 1)?;
    let mut set = ChangeSet::new(publisher.published())?;
    set.add(&route)?;
    let is_refused = is_refused_again(&mut set, &route);
    set.add(&host_route(alloc, 2)?)?;
    let base = set.base().number();
    let last = set.last().number();
    let count = set.commands().len();
    let receipt = publisher.submit_set(&rt, &domain, set)?;
    Ok((base, count, last, receipt.number(), is_refused))
}

#[test]
fn submits_a_set_of_two(rt: HostRuntime) -> Result<(), Fail> {
    let alloc = rt.alloc();
    let connection = Connection::open_in_memory(alloc)?;
    assert!(rt; submit_set(rt, alloc, connection)? == (0, 2, 2, 2, true));
    Ok(())
}
