//! A looker to which a command is reported.
ghost use Rattle.prt_publisher.specs.Standing.{IsQuiet};
ghost use Rattle.prt_service.specs.Named.{IsNamed};

use crate::caller::{adopted, packet, service_over, submit_to_service};
use prt_command::{Addr, Refusal, Request, read_line};
use prt_grace::Domain;
use prt_publisher::Publisher;
use prt_service::{Service, ServiceBrand};
use prt_version::{Answer, Verdict};
use sqlite::{Alter, Connection};
use std::alloc::Global;
use std::marker::Brand;
use std::sync::Wait;
use std::test::Fail;
use std::time::Clock;

/// The number of a version, and over which next hop a packet to 10.1.0.0 goes by it.
type Seen = (u64, Option<Addr>);

/// Extracts what the answer says.
fn seen(answer: &Answer) -> Seen {
    (answer.number, next_hop(&answer.verdict))
}

/// Returns the next hop of the route that was found.
fn next_hop(verdict: &Verdict) -> Option<Addr> {
    match verdict {
        Verdict::Route(_, route) => route.via,
        Verdict::RuleSays(_, _) | Verdict::NoRoute => None,
    }
}

/// Runs a service of the named front: a looker learns the receipt of a route, refreshes and looks; then the rules are
/// flushed, and it looks, refreshes and looks.
fn serve<J: ServiceBrand, S: Alter + Drop, H: Wait + Clock + Copy + Drop>(
    rt: H,
    publisher: Publisher<S>,
    domain: Domain,
) -> Result<Option<[Seen; 3]>, Refusal>
    requires quiet { IsQuiet publisher.phase }
    requires of { IsNamed J.book J.base J.ours_first publisher }
{
    let Some(Request::Command(command)) = read_line(b"route add 10/8 via 192.0.2.1")? else {
        return Ok(None);
    };
    let service: Service<S, J> = service_over(&rt, publisher, domain)?;
    let mut looker = service.looker(&rt)?;
    looker.learn(service.submit(&rt, &command)?);
    looker.refresh(&rt, &service)?;
    let with_route = looker.look(&packet());
    submit_to_service(&rt, &service)?;
    let still = looker.look(&packet());
    looker.refresh(&rt, &service)?;
    let without_rules = looker.look(&packet());
    looker.leave(&rt, &service);
    Ok(Some([seen(&with_route), seen(&still), seen(&without_rules)]))
}

/// Runs a service over the database of a connection.
fn serve_connection<S: Alter + Drop, H: Wait + Clock + Copy + Drop>(
    rt: H,
    alloc: Global,
    connection: Connection<S>,
) -> Result<Option<[Seen; 3]>, Refusal> {
    let (publisher, domain) = adopted(alloc, connection)?;
    serve::<Brand, S, H>(rt, publisher, domain)
}

#[test]
fn learns_a_receipt(rt: HostRuntime) -> Result<(), Fail> {
    let alloc = rt.alloc();
    let seen = serve_connection(rt, alloc, Connection::open_in_memory(alloc)?)?;
    let next_hop = Some(Addr(0xc000_0201));
    assert!(rt; seen == Some([(1, next_hop), (1, next_hop), (2, None)]));
    Ok(())
}
