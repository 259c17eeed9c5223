//! A looker beside commands that are made together.
ghost use Rattle.std.specs.Prelude.{◌≡◌};
ghost use Rattle.prt_publisher.specs.Standing.{IsQuiet};
ghost use Rattle.prt_service.specs.Named.{IsNamed};

use crate::caller::{adopted, packet, service_over};
use prt_command::{Refusal, Request, read_line};
use prt_grace::Domain;
use prt_publisher::Publisher;
use prt_service::{Looker, Service, ServiceBrand};
use prt_version::Verdict;
use sqlite::{Alter, Connection};
use std::alloc::Global;
use std::marker::Brand;
use std::sync::Wait;
use std::test::Fail;
use std::time::Clock;

/// The number of a version, how many rules it has, and whether a packet to 10.1.0.0 goes by a route of it.
type Seen = (u64, usize, bool);

/// Returns what a looker sees, which takes the published version first.
fn seen<S: Alter + Drop, J: ServiceBrand, H: Wait>(
    rt: &H,
    service: &Service<S, J>,
    looker: &mut Looker,
) -> Result<Seen, Refusal>
    requires { (looker.old.known.book ≡ J.book) × (looker.old.known.base ≡ J.base) }
    ensures { (looker.new.known.book ≡ looker.old.known.book) × (looker.new.known.base ≡ looker.old.known.base) }
{
    looker.refresh(rt, service)?;
    let has_route = matches!(looker.look(&packet()).verdict, Verdict::Route(_, _));
    let version = looker.version();
    Ok((version.number(), version.rules().len(), has_route))
}

/// Runs a service of the named front. Returns the number of the receipt of two commands, and what a looker sees before
/// them and after.
fn serve<J: ServiceBrand, S: Alter + Drop, H: Wait + Clock + Copy + Drop>(
    rt: H,
    alloc: Global,
    publisher: Publisher<S>,
    domain: Domain,
) -> Result<Option<(Seen, u64, Seen)>, Refusal>
    requires quiet { IsQuiet publisher.phase }
    requires of { IsNamed J.book J.base J.ours_first publisher }
{
    let Some(Request::Command(route)) = read_line(b"route add 10/8 dev a1")? else {
        return Ok(None);
    };
    let Some(Request::Command(rule)) = read_line(b"rule add table 7")? else {
        return Ok(None);
    };
    let commands = Vec::from_slice(alloc, &[route, rule])?;
    let service: Service<S, J> = service_over(&rt, publisher, domain)?;
    let mut looker = service.looker(&rt)?;
    let before = seen(&rt, &service, &mut looker)?;
    let number = service.submit_all(&rt, commands.as_slice())?.number();
    let after = seen(&rt, &service, &mut looker)?;
    Ok(Some((before, number, after)))
}

/// Runs a service over the database of a connection.
fn serve_connection<S: Alter + Drop, H: Wait + Clock + Copy + Drop>(
    rt: H,
    alloc: Global,
    connection: Connection<S>,
) -> Result<Option<(Seen, u64, Seen)>, Refusal> {
    let (publisher, domain) = adopted(alloc, connection)?;
    serve::<Brand, S, H>(rt, alloc, publisher, domain)
}

#[test]
fn shows_commands_together(rt: HostRuntime) -> Result<(), Fail> {
    let alloc = rt.alloc();
    let found = serve_connection(rt, alloc, Connection::open_in_memory(alloc)?)?;
    assert!(rt; found == Some(((0, 3, false), 2, (2, 4, true))));
    Ok(())
}
