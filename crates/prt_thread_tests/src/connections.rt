//! What becomes of connections when something about them is refused.
ghost use Rattle.prt_publisher.specs.Standing.{IsQuiet};
ghost use Rattle.prt_service.specs.Named.{IsNamed};

use crate::caller::{adopted, service_over};
use crossbeam_channel::bounded;
use prt_command::Refusal;
use prt_grace::Domain;
use prt_publisher::Publisher;
use prt_serve::{
    Accepting, Limits, OpenGate, ServiceContext, SessionKind, SessionListener, Turnstile, accept,
    serve_sessions,
};
use prt_service::{Service, ServiceBrand};
use sqlite::{Alter, Connection};
use std::alloc::{AllocError, Global};
use std::io::{self, ErrorKind, Read, Write};
use std::marker::Brand;
use std::net::{Ipv4Addr, OpenListener, OpenStream, SocketAddr};
use std::slice;
use std::sync::Wait;
use std::sync::atomic::{AtomicU64, Ordering};
use std::test::Fail;
use std::thread::Threads;
use std::time::Clock;

/// A connection whose client has nothing to say. Small packets can't be hurried.
#[derive(Drop)]
struct Silent {
    has_second_end: bool,
}

impl Read for Silent {
    fn read(&mut self, _bytes: &mut [u8]) -> io::Result<usize> {
        Ok(0)
    }
}

impl Write for Silent {
    fn write(&mut self, bytes: &[u8]) -> io::Result<usize> {
        Ok(bytes.len())
    }

    fn flush(&mut self) -> io::Result<()> {
        Ok(())
    }
}

impl OpenStream for Silent {
    fn try_clone(&self) -> io::Result<Silent> {
        if !self.has_second_end {
            return Err(io::Error::from(ErrorKind::Other));
        }
        Ok(Silent {
            has_second_end: true,
        })
    }
}

/// A listener that has so many connections, one of them without a second end, and then fails.
#[derive(Drop)]
struct Queue {
    accepted: AtomicU64,
    most: u64,
    without_second_end: u64,
}

impl Queue {
    fn new(most: u64, without_second_end: u64) -> Queue {
        Queue {
            accepted: AtomicU64::new(0),
            most,
            without_second_end,
        }
    }
}

impl OpenListener for Queue {
    type Stream = Silent;

    fn accept(&self) -> io::Result<(Silent, SocketAddr)> {
        let before = self.accepted.fetch_add(1, Ordering::SeqCst);
        if before >= self.most {
            return Err(io::Error::from(ErrorKind::Other));
        }
        let stream = Silent {
            has_second_end: before != self.without_second_end,
        };
        Ok((stream, SocketAddr::from((Ipv4Addr::LOCALHOST, 0))))
    }
}

/// Makes a listener one of sessions that execute each line once it is read.
fn session_listener(listener: Queue) -> SessionListener<Queue> {
    SessionListener {
        listener,
        kind: SessionKind::InTurn,
    }
}

/// Builds the limits of one worker, and so many sessions.
fn limited_to(sessions: u64) -> Limits {
    Limits {
        workers: 1,
        sessions,
        idle: None,
    }
}

/// Collects the sessions that are handed over, and checks whether accepting ended by itself.
fn handed_over<H: Wait + Clock>(
    rt: &H,
    alloc: Global,
    listener: Queue,
    sessions: u64,
) -> Result<(Vec<u64>, bool), AllocError> {
    let (to, from) = bounded(alloc, 64)?;
    let is_ended = matches!(
        accept(
            rt,
            &OpenGate,
            &session_listener(listener),
            to,
            &Turnstile::new(sessions)
        ),
        Accepting::Ended
    );
    let mut numbers = Vec::new(alloc);
    for arrival in from.iter(rt) {
        numbers.push(arrival.session)?;
    }
    Ok((numbers, is_ended))
}

#[test]
fn connections_are_numbered(rt: HostRuntime) -> Result<(), Fail> {
    let alloc = rt.alloc();
    let (numbers, is_ended) = handed_over(&rt, alloc, Queue::new(5, 9), 3)?;
    assert_eq!(rt; numbers.as_slice(), [1, 2, 3].as_slice());
    assert!(rt; is_ended);
    // Without an end, until the listener fails.
    let (numbers, is_ended) = handed_over(&rt, alloc, Queue::new(4, 9), 0)?;
    assert_eq!(rt; numbers.as_slice(), [1, 2, 3, 4].as_slice());
    assert!(rt; !is_ended);
    Ok(())
}

#[test]
fn nobody_takes_a_connection(rt: HostRuntime) -> Result<(), Fail> {
    let alloc = rt.alloc();
    let only = session_listener(Queue::new(5, 9));
    let (to, from) = bounded(alloc, 64)?;
    drop(from);
    let end = accept(&rt, &OpenGate, &only, to, &Turnstile::new(5));
    assert!(rt; matches!(end, Accepting::NoWorkers));
    assert_eq!(rt; only.listener.accepted.load(Ordering::SeqCst), 1);
    Ok(())
}

/// Serves, by one worker, over a service all of whose lookers are taken.
fn serve_without_looker<
    H: Threads + Wait + Clock + Sync,
    S: Alter + Drop + Send,
    J: ServiceBrand + Send,
>(
    rt: &H,
    alloc: Global,
    publisher: Publisher<S>,
    domain: Domain,
    listeners: &[SessionListener<Queue>],
) -> Result<Option<Refusal>, Refusal>
    requires quiet { IsQuiet publisher.phase }
    requires of { IsNamed J.book J.base J.ours_first publisher }
{
    let service: Service<S, J> = service_over(rt, publisher, domain)?;
    let mut lookers = Vec::new(alloc);
    for _ in 0..64 {
        let looker = service.looker(rt)?;
        if lookers.push(looker).is_err() {
            return Err(Refusal::NoMemory);
        }
    }
    let context = ServiceContext::new(rt, alloc, &service, &OpenGate);
    let end = serve_sessions(&context, listeners, limited_to(0)).end;
    match end.accepting {
        Accepting::NoWorkers => Ok(end.refused),
        Accepting::Ended | Accepting::Failed => Ok(None),
    }
}

/// How many connections are accepted at most if no worker takes any: one in hand, 64 before the waiting room, 1,024 in
/// it, one on its way out, and 64 behind it.
const UNSERVED: u64 = 1154;

#[test]
fn worker_without_looker(rt: HostRuntime) -> Result<(), Fail> {
    let alloc = rt.alloc();
    let connection = Connection::open_in_memory(alloc)?;
    let (publisher, domain) = adopted(alloc, connection)?;
    // More connections than may wait: a send fails once the worker is gone.
    let only = session_listener(Queue::new(10_000, 10_000));
    let listeners = slice::from_ref(&only);
    let refused = serve_without_looker::<_, _, Brand>(&rt, alloc, publisher, domain, listeners)?;
    assert_eq!(rt; refused, Some(Refusal::Full));
    assert!(rt; only.listener.accepted.load(Ordering::SeqCst) <= UNSERVED);
    Ok(())
}
