//! A session over TCP.
ghost use Rattle.prt_publisher.specs.Standing.{IsQuiet};
ghost use Rattle.prt_service.specs.Named.{IsNamed};

use crate::caller::{adopted, service_over};
use prt_command::Refusal;
use prt_grace::Domain;
use prt_publisher::Publisher;
use prt_serve::{
    Accepting, Limits, OpenGate, ServiceContext, SessionKind, SessionListener, serve_sessions,
};
use prt_service::{Service, ServiceBrand};
use sqlite::{Alter, Connection};
use std::alloc::Global;
use std::io::{self, ErrorKind, Read, Write};
use std::marker::Brand;
use std::net::{Ipv4Addr, Net, Shutdown, SocketAddr, TcpListener, TcpStream};
use std::slice;
use std::sync::Wait;
use std::test::Fail;
use std::thread::Threads;
use std::time::Clock;

/// Returns what a client reads that sends these lines and then waits for the end, and whether the listener ended with it.
///
/// The lines and the replies fit into what the system keeps for a connection, so client and server take turns in one
/// thread, with one worker beside it.
fn converse<
    H: Net<Listener = TcpListener, Stream = TcpStream> + Threads + Wait + Clock + Sync,
    S: Alter + Drop + Send,
    J: ServiceBrand + Send,
>(rt: &H, alloc: Global, service: &Service<S, J>, lines: &[u8]) -> io::Result<(Vec<u8>, bool)> {
    let listener = TcpListener::bind(rt, SocketAddr::from((Ipv4Addr::LOCALHOST, 0)))?;
    let mut client = TcpStream::connect(rt, listener.local_addr()?)?;
    client.write_all(lines)?;
    client.shutdown(Shutdown::Write)?;
    let limits = Limits {
        workers: 1,
        sessions: 1,
        idle: None,
    };
    let only = SessionListener {
        listener,
        kind: SessionKind::InTurn,
    };
    let listeners = slice::from_ref(&only);
    let context = ServiceContext::new(rt, alloc, service, &OpenGate);
    let end = serve_sessions(&context, listeners, limits).end;
    let mut text = Vec::new(alloc);
    client.read_to_end(&mut text)?;
    let is_ended = matches!(end.accepting, Accepting::Ended) && end.refused.is_none();
    Ok((text, is_ended))
}

/// Has that talk with a service of the publisher.
fn converse_with<
    H: Net<Listener = TcpListener, Stream = TcpStream> + Threads + Wait + Clock + Sync,
    S: Alter + Drop + Send,
    J: ServiceBrand + Send,
>(
    rt: &H,
    alloc: Global,
    publisher: Publisher<S>,
    domain: Domain,
    lines: &[u8],
) -> io::Result<(Vec<u8>, bool)>
    requires quiet { IsQuiet publisher.phase }
    requires of { IsNamed J.book J.base J.ours_first publisher }
{
    let made: Result<Service<S, J>, Refusal> = service_over(rt, publisher, domain);
    let Ok(service) = made else {
        return Err(io::Error::from(ErrorKind::OutOfMemory));
    };
    converse(rt, alloc, &service, lines)
}

#[test]
fn loopback(rt: HostRuntime) -> Result<(), Fail> {
    let alloc = rt.alloc();
    let connection = Connection::open_in_memory(alloc)?;
    let (publisher, domain) = adopted(alloc, connection)?;
    let lines =
        b"route add default via 192.0.2.1 dev eth0\nroute get 198.51.100.7\nrule flush\nrule flush\n";
    let (text, is_ended) = converse_with::<_, _, Brand>(&rt, alloc, publisher, domain, lines)?;
    assert_eq!(rt;
        text.as_slice(),
        b"ok 1\nanswer 1 rule 32766 table main default via 192.0.2.1 dev eth0\nok 2\nok 3\n".as_slice()
    );
    assert!(rt; is_ended);
    Ok(())
}
