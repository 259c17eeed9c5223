//! Versions that wait for a looker.
ghost use Rattle.std.specs.Prelude.{◌≡◌};
ghost use Rattle.prt_publisher.specs.Standing.{IsQuiet};

use crate::caller::{adopted, host_route};
use prt_command::Refusal;
use prt_grace::Domain;
use prt_publisher::{Phase, Publisher};
use sqlite::{Alter, Connection};
use std::alloc::Global;
use std::sync::Wait;
use std::test::Fail;

/// What came of the commands beside a looker that announces nothing until one of them is refused, and then 64.
#[derive(Debug, Drop, PartialEq)]
struct Retained {
    /// The number that the looker announced when it came online.
    online_at: u64,
    /// The number of the last receipt before the refusal.
    last: u64,
    /// Why the next command was refused, and the phase after it.
    refused: Option<Refusal>,
    phase: Phase,
    /// How many retired versions the registry keeps then.
    retired: usize,
    /// The number of the receipt after the looker had announced.
    next: u64,
}

/// Adds the route of a host, and returns the number of its receipt.
fn add_host<S: Alter + Drop, H: Wait>(
    rt: &H,
    alloc: Global,
    publisher: &mut Publisher<S>,
    domain: &Domain,
    host: u8,
) -> Result<u64, Refusal>
    requires { IsQuiet publisher.old.phase }
    ensures { IsQuiet publisher.new.phase }
{
    let command = host_route(alloc, host)?;
    match publisher.submit(rt, domain, &command) {
        Ok(receipt) => Ok(receipt.number()),
        Err(reason) => Err(reason),
    }
}

/// Adds the routes of hosts until one is refused, at most 100. Returns the number of the last receipt, and why the next
/// was refused.
fn add_until_refused<S: Alter + Drop, H: Wait>(
    rt: &H,
    alloc: Global,
    publisher: &mut Publisher<S>,
    domain: &Domain,
) -> (u64, Option<Refusal>)
    requires { IsQuiet publisher.old.phase }
    ensures { IsQuiet publisher.new.phase }
{
    let mut last = 0;
    for host in 1..=100 {
        match add_host(rt, alloc, publisher, domain, host) {
            Ok(number) => last = number,
            Err(reason) => return (last, Some(reason)),
        }
    }
    (last, None)
}

/// Runs a publisher beside a place that is online at 0 and announces nothing until it has to.
fn retain<S: Alter + Drop, H: Wait + Copy + Drop>(
    rt: H,
    alloc: Global,
    connection: Connection<S>,
) -> Result<Option<Retained>, Refusal> {
    let (mut publisher, domain) = adopted(alloc, connection)?;
    let Some(mut place) = domain.join(&rt) else {
        return Ok(None);
    };
    let online_at = domain.online(&rt, &mut place);
    let (last, refused) = add_until_refused(&rt, alloc, &mut publisher, &domain);
    let phase = publisher.phase();
    let retired = domain.retention(&rt).retired;
    if last < online_at {
        return Ok(None);
    }
    domain.announce(&rt, &mut place, last);
    let next = add_host(&rt, alloc, &mut publisher, &domain, 65)?;
    Ok(Some(Retained {
        online_at,
        last,
        refused,
        phase,
        retired,
        next,
    }))
}

#[test]
fn retained_versions(rt: HostRuntime) -> Result<(), Fail> {
    let alloc = rt.alloc();
    let connection = Connection::open_in_memory(alloc)?;
    let retained = retain(rt, alloc, connection)?;
    assert!(rt;
        retained
            == Some(Retained {
                online_at: 0,
                last: 64,
                refused: Some(Refusal::Busy),
                phase: Phase::Ready,
                retired: 64,
                next: 65,
            })
    );
    Ok(())
}
