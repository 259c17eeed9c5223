//! A looker that keeps its version while others publish, as for the text of a long listing.
ghost use Rattle.prt_publisher.specs.Standing.{IsQuiet};
ghost use Rattle.prt_service.specs.Named.{IsNamed};

use crate::caller::{adopted, packet, service_over};
use crate::slow_looker::{Submitted, add_hosts};
use prt_command::Refusal;
use prt_grace::Domain;
use prt_publisher::Publisher;
use prt_service::{Service, ServiceBrand};
use sqlite::{Alter, Connection};
use std::alloc::Global;
use std::marker::Brand;
use std::sync::Wait;
use std::test::Fail;
use std::time::Clock;

/// What came of commands beside a version that was kept.
#[derive(Debug, Drop, PartialEq)]
struct Kept {
    was_online: bool,
    is_online: bool,
    commands: Submitted,
    /// The number of the version after those commands.
    number: u64,
    /// The number that the looker looks with when it has refreshed.
    refreshed: u64,
}

/// Runs a service of the named front: a looker keeps the opening version beside twice as many commands as may be held up.
fn serve<J: ServiceBrand, S: Alter + Drop, H: Wait + Clock + Copy + Drop>(
    rt: H,
    alloc: Global,
    publisher: Publisher<S>,
    domain: Domain,
) -> Result<Kept, Refusal>
    requires quiet { IsQuiet publisher.phase }
    requires of { IsNamed J.book J.base J.ours_first publisher }
{
    let service: Service<S, J> = service_over(&rt, publisher, domain)?;
    let mut looker = service.looker(&rt)?;
    looker.refresh(&rt, &service)?;
    let was_online = looker.is_online();
    let version = looker.keep(&rt, &service);
    let is_online = looker.is_online();
    let commands = add_hosts(&rt, alloc, &service, 1, 128)?;
    let number = version.number();
    drop(version);
    looker.refresh(&rt, &service)?;
    let refreshed = looker.look(&packet()).number;
    looker.leave(&rt, &service);
    Ok(Kept {
        was_online,
        is_online,
        commands,
        number,
        refreshed,
    })
}

/// Runs a service over the database of a connection.
fn serve_connection<S: Alter + Drop, H: Wait + Clock + Copy + Drop>(
    rt: H,
    alloc: Global,
    connection: Connection<S>,
) -> Result<Kept, Refusal> {
    let (publisher, domain) = adopted(alloc, connection)?;
    serve::<Brand, S, H>(rt, alloc, publisher, domain)
}

#[test]
fn kept_version_holds_nothing_up(rt: HostRuntime) -> Result<(), Fail> {
    let alloc = rt.alloc();
    let kept = serve_connection(rt, alloc, Connection::open_in_memory(alloc)?)?;
    assert!(rt;
        kept == Kept {
            was_online: true,
            is_online: false,
            commands: Submitted {
                last: 128,
                refused: None,
            },
            number: 0,
            refreshed: 128,
        }
    );
    Ok(())
}
