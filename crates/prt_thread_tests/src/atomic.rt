//! Atomic files over a service.
ghost use Rattle.std.specs.Prelude.{◌≡◌};
ghost use Rattle.prt_publisher.specs.Standing.{IsQuiet};
ghost use Rattle.prt_service.specs.Named.{IsNamed};

use crate::caller::{adopted, service_over};
use prt_command::Refusal;
use prt_grace::Domain;
use prt_publisher::Publisher;
use prt_serve::{OpenGate, ServiceContext, serve_atomic};
use prt_service::{Looker, Service, ServiceBrand};
use sqlite::{Alter, Connection};
use std::alloc::Global;
use std::marker::Brand;
use std::net::{Ipv4Addr, SocketAddr};
use std::sync::Wait;
use std::test::Fail;
use std::time::Clock;

/// Serves a file, and returns what its client reads.
fn replies<S: Alter + Drop, J: ServiceBrand, H: Wait + Clock>(
    rt: &H,
    alloc: Global,
    service: &Service<S, J>,
    looker: &mut Looker,
    file: &[u8],
) -> Vec<u8>
    requires { (looker.old.known.book ≡ J.book) × (looker.old.known.base ≡ J.base) }
    ensures { (looker.new.known.book ≡ J.book) × (looker.new.known.base ≡ J.base) }
{
    let mut text = Vec::new(alloc);
    let client = SocketAddr::from((Ipv4Addr::LOCALHOST, 0));
    let context = ServiceContext::new(rt, alloc, service, &OpenGate);
    let _served = serve_atomic(&context, looker, 1, client, file, &mut text);
    text
}

/// Serves files, one after another, over a service of the named front. Returns what their clients read, and the number of
/// the published version after them.
fn serve<J: ServiceBrand, S: Alter + Drop, H: Wait + Clock + Copy + Drop>(
    rt: H,
    alloc: Global,
    publisher: Publisher<S>,
    domain: Domain,
) -> Result<([Vec<u8>; 8], u64), Refusal>
    requires quiet { IsQuiet publisher.phase }
    requires of { IsNamed J.book J.base J.ours_first publisher }
{
    let service: Service<S, J> = service_over(&rt, publisher, domain)?;
    let mut looker = service.looker(&rt)?;
    let looks = &mut looker;
    let two = b"route add 10/8 via 192.0.2.1\n# a comment\nrule add table 7\n";
    let made = replies(&rt, alloc, &service, looks, two);
    let at_two = replies(&rt, alloc, &service, looks, b"at 2\nroute add 11/8 dev a1");
    let moved = replies(&rt, alloc, &service, looks, b"at 2\nrule flush\n");
    let twice = b"route add 12/8 dev a1\nroute add 10/8 dev a1\n";
    let refused = replies(&rt, alloc, &service, looks, twice);
    let query = replies(&rt, alloc, &service, looks, b"rule flush\nroute get 10\n");
    let alone = replies(&rt, alloc, &service, looks, b"at 3");
    let cut_off = replies(
        &rt,
        alloc,
        &service,
        looks,
        b"at 3\ncommands 2\nrule flush\n",
    );
    let whole = replies(
        &rt,
        alloc,
        &service,
        looks,
        b"commands 1\nrule del table 7\n",
    );
    looker.leave(&rt, &service);
    Ok((
        [made, at_two, moved, refused, query, alone, cut_off, whole],
        service.number(&rt),
    ))
}

/// Serves them over the database of a connection.
fn serve_connection<S: Alter + Drop, H: Wait + Clock + Copy + Drop>(
    rt: H,
    alloc: Global,
    connection: Connection<S>,
) -> Result<([Vec<u8>; 8], u64), Refusal> {
    let (publisher, domain) = adopted(alloc, connection)?;
    serve::<Brand, S, H>(rt, alloc, publisher, domain)
}

#[test]
fn makes_a_file_or_nothing_of_it(rt: HostRuntime) -> Result<(), Fail> {
    let alloc = rt.alloc();
    let (texts, number) = serve_connection(rt, alloc, Connection::open_in_memory(alloc)?)?;
    let [made, at_two, moved, refused, query, alone, cut_off, whole] = &texts;
    assert_eq!(rt; made.as_slice(), b"ok 1\nok 2\n".as_slice());
    assert_eq!(rt; at_two.as_slice(), b"ok 3\n".as_slice());
    assert_eq!(rt; moved.as_slice(), b"at 3\n".as_slice());
    assert_eq!(rt; refused.as_slice(), b"error 21 Exists\n".as_slice());
    assert_eq!(rt; query.as_slice(), b"error 4 UnknownVerb\n".as_slice());
    assert_eq!(rt; alone.as_slice(), b"".as_slice());
    assert_eq!(rt; cut_off.as_slice(), b"error 32 ReadFault\n".as_slice());
    assert_eq!(rt; whole.as_slice(), b"ok 4\n".as_slice());
    assert_eq!(rt; number, 4);
    Ok(())
}
