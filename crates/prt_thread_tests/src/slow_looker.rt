//! A looker that refreshes once, and then not again until commands are refused for it.
ghost use Rattle.prt_publisher.specs.Standing.{IsQuiet};
ghost use Rattle.prt_service.specs.Named.{IsNamed};

use crate::caller::{adopted, host_route, packet, service_over, stored_number};
use prt_command::Refusal;
use prt_grace::Domain;
use prt_publisher::Publisher;
use prt_service::{Service, ServiceBrand};
use sqlite::{Alter, Connection};
use std::alloc::Global;
use std::marker::Brand;
use std::sync::Wait;
use std::test::Fail;
use std::time::{Clock, Duration};

/// The number of the last of some receipts, and why the command after it was refused.
#[derive(Debug, Drop, PartialEq)]
pub(crate) struct Submitted {
    pub(crate) last: u64,
    pub(crate) refused: Option<Refusal>,
}

/// How many lookers there were at once, and why one more was refused.
#[derive(Debug, Drop, PartialEq)]
pub(crate) struct Crowd {
    pub(crate) lookers: u64,
    pub(crate) refused: Option<Refusal>,
}

/// What came of the commands beside the looker.
#[derive(Debug, Drop, PartialEq)]
struct Beside {
    /// The number that it looked with at first, and again after the commands that it missed.
    first: u64,
    missed: Submitted,
    /// Whether the refused one was tried for a second, in which the looker might have refreshed.
    has_waited: bool,
    still: u64,
    /// The number that it looked with when it had refreshed, and that of the next receipt.
    refreshed: u64,
    next: u64,
    /// Whether it was online then, and when it rested.
    was_online: bool,
    is_online: bool,
    /// The commands while it rested.
    rested: Submitted,
}

/// Adds the routes of the hosts from one to another, until one is refused.
pub(crate) fn add_hosts<S: Alter + Drop, J: ServiceBrand, H: Wait + Clock>(
    rt: &H,
    alloc: Global,
    service: &Service<S, J>,
    first: u8,
    most: u8,
) -> Result<Submitted, Refusal> {
    let mut last = 0;
    for host in first..=most {
        let command = host_route(alloc, host)?;
        match service.submit(rt, &command) {
            Ok(receipt) => last = receipt.number(),
            Err(reason) => {
                return Ok(Submitted {
                    last,
                    refused: Some(reason),
                });
            }
        }
    }
    Ok(Submitted {
        last,
        refused: None,
    })
}

/// Reads the clock that never goes back; 0 if it can't be read.
fn time<H: Clock>(rt: &H) -> Duration {
    rt.monotonic().unwrap_or(Duration::ZERO)
}

/// Makes lookers until one is refused, or so many are there. Then all of them leave.
pub(crate) fn gather<S: Alter + Drop, J: ServiceBrand, H: Wait>(
    rt: &H,
    service: &Service<S, J>,
    most: u64,
) -> Crowd {
    if most == 0 {
        return Crowd {
            lookers: 0,
            refused: None,
        };
    }
    match service.looker(rt) {
        Ok(looker) => {
            let others = gather(rt, service, most - 1);
            looker.leave(rt, service);
            Crowd {
                lookers: others.lookers.saturating_add(1),
                refused: others.refused,
            }
        }
        Err(reason) => Crowd {
            lookers: 0,
            refused: Some(reason),
        },
    }
}

/// Adds hosts beside a looker that refreshes at first, and then when one was refused; rests it, and adds as many as it held
/// up, and one more.
fn submit_beside<S: Alter + Drop, J: ServiceBrand, H: Wait + Clock>(
    rt: &H,
    alloc: Global,
    service: &Service<S, J>,
) -> Result<Beside, Refusal> {
    let mut looker = service.looker(rt)?;
    looker.refresh(rt, service)?;
    let first = looker.look(&packet()).number;
    let begun = time(rt);
    let missed = add_hosts(rt, alloc, service, 1, 100)?;
    let has_waited = time(rt).saturating_sub(begun) >= Duration::from_secs(1);
    let still = looker.look(&packet()).number;
    looker.refresh(rt, service)?;
    let refreshed = looker.look(&packet()).number;
    let next = add_hosts(rt, alloc, service, 65, 65)?.last;
    let was_online = looker.is_online();
    looker.rest(rt, service);
    let is_online = looker.is_online();
    let rested = add_hosts(rt, alloc, service, 66, 130)?;
    looker.leave(rt, service);
    Ok(Beside {
        first,
        missed,
        has_waited,
        still,
        refreshed,
        next,
        was_online,
        is_online,
        rested,
    })
}

/// What came of the commands, how many lookers there could be after them, once more, and beside one that was let go
/// without leaving; and the number of the state that is stored at the end.
#[derive(Debug, Drop, PartialEq)]
struct Outcome {
    beside: Beside,
    crowds: [Crowd; 3],
    stored: u64,
}

/// Runs a service of the named front.
fn serve<J: ServiceBrand, S: Alter + Drop, H: Wait + Clock + Copy + Drop>(
    rt: H,
    alloc: Global,
    publisher: Publisher<S>,
    domain: Domain,
) -> Result<Outcome, Refusal>
    requires quiet { IsQuiet publisher.phase }
    requires of { IsNamed J.book J.base J.ours_first publisher }
{
    let service: Service<S, J> = service_over(&rt, publisher, domain)?;
    let beside = submit_beside(&rt, alloc, &service)?;
    let first = gather(&rt, &service, 100);
    let again = gather(&rt, &service, 100);
    drop(service.looker(&rt)?);
    let beside_one = gather(&rt, &service, 100);
    let left = service.end(&rt);
    let (stored, _connection) = stored_number(alloc, left.conn)?;
    Ok(Outcome {
        beside,
        crowds: [first, again, beside_one],
        stored,
    })
}

/// Runs a service over the database of a connection.
fn serve_connection<S: Alter + Drop, H: Wait + Clock + Copy + Drop>(
    rt: H,
    alloc: Global,
    connection: Connection<S>,
) -> Result<Outcome, Refusal> {
    let (publisher, domain) = adopted(alloc, connection)?;
    serve::<Brand, S, H>(rt, alloc, publisher, domain)
}

#[test]
fn slow_looker(rt: HostRuntime) -> Result<(), Fail> {
    let alloc = rt.alloc();
    let outcome = serve_connection(rt, alloc, Connection::open_in_memory(alloc)?)?;
    let full = |lookers| Crowd {
        lookers,
        refused: Some(Refusal::Full),
    };
    assert!(rt;
        outcome
            == Outcome {
                beside: Beside {
                    first: 0,
                    missed: Submitted {
                        last: 64,
                        refused: Some(Refusal::Busy),
                    },
                    has_waited: true,
                    still: 0,
                    refreshed: 64,
                    next: 65,
                    was_online: true,
                    is_online: false,
                    rested: Submitted {
                        last: 130,
                        refused: None,
                    },
                },
                crowds: [full(64), full(64), full(63)],
                stored: 130,
            }
    );
    Ok(())
}
