//! Sessions of which one begins while the other is at its line.
ghost use Rattle.prt_publisher.specs.Standing.{IsQuiet};
ghost use Rattle.prt_service.specs.Named.{IsNamed};

use crate::caller::{adopted, service_over};
use crossbeam_channel::{Receiver, Sender, bounded};
use prt_command::Refusal;
use prt_grace::Domain;
use prt_publisher::Publisher;
use prt_serve::{Gate, Job, Served, ServiceContext, SessionKind};
use prt_service::{Service, ServiceBrand};
use prt_session::Reply;
use sqlite::{Alter, Connection};
use std::alloc::Global;
use std::io::{self, Read, Write};
use std::marker::Brand;
use std::net::{Ipv4Addr, SocketAddr};
use std::sync::atomic::{AtomicU64, Ordering};
use std::sync::{Arc, Mutex, Wait};
use std::test::Fail;
use std::thread::{self, Threads};
use std::time::Clock;

const MOST_TURNS: u64 = 1_000_000;

/// Holds session 1 before its line until session 2 was replied to, and session 2 until session 1 has come to its line.
#[derive(Drop)]
struct Meeting {
    first_came: AtomicU64,
    second_came: AtomicU64,
    second_left: AtomicU64,
    gave_up: AtomicU64,
}

impl Meeting {
    fn new() -> Meeting {
        Meeting {
            first_came: AtomicU64::new(0),
            second_came: AtomicU64::new(0),
            second_left: AtomicU64::new(0),
            gave_up: AtomicU64::new(0),
        }
    }

    fn wait_for(&self, mark: &AtomicU64) {
        for _ in 0..MOST_TURNS {
            if mark.load(Ordering::SeqCst) == 1 {
                return;
            }
            thread::yield_now();
        }
        self.gave_up.store(1, Ordering::SeqCst);
    }
}

impl Gate for Meeting {
    fn before(&self, session: u64, _line: u64) {
        if session == 1 {
            self.first_came.store(1, Ordering::SeqCst);
            self.wait_for(&self.second_left);
        } else {
            self.second_came.store(1, Ordering::SeqCst);
            self.wait_for(&self.first_came);
        }
    }

    fn after(&self, session: u64, _client: &SocketAddr, _line: u64, _text: &[u8], _reply: &Reply) {
        if session == 2 {
            self.second_left.store(1, Ordering::SeqCst);
        }
    }
}

/// A text that a worker writes and the test reads.
type Text = Arc<Mutex<Vec<u8>>, Global>;

/// The end of a connection that replies go to.
#[derive(Drop)]
struct Client<H: Wait + Copy + Drop> {
    rt: H,
    text: Text,
}

impl<H: Wait + Copy + Drop> Write for Client<H> {
    fn write(&mut self, bytes: &[u8]) -> io::Result<usize> {
        self.text.lock(&self.rt).extend_from_slice(bytes)?;
        Ok(bytes.len())
    }

    fn flush(&mut self) -> io::Result<()> {
        Ok(())
    }
}

/// Hands over a session whose client asks once. Returns whether somebody may take it.
fn hand_over<H: Wait + Copy + Drop>(
    rt: H,
    jobs: &Sender<Job<&'static [u8], Client<H>>>,
    session: u64,
    text: &Text,
) -> Result<bool, Fail> {
    let job = Job {
        session,
        client: SocketAddr::from((Ipv4Addr::LOCALHOST, 0)),
        kind: SessionKind::InTurn,
        until: None,
        reader: b"route get 10.0.0.1\n".as_slice(),
        writer: Client {
            rt,
            text: Arc::try_clone(text)?,
        },
        pipeline: None,
    };
    Ok(jobs.send(&rt, job).is_ok())
}

/// Lets a job go that was served. The prover gives up on a closure here.
fn let_go<R: Read + Drop, W: Write + Drop>(_served: Served<R, W>) {}

/// Serves jobs until the channel is closed. Returns why no looker was had, if none was.
fn serve_jobs<H: Wait + Clock + Copy + Drop, S: Alter + Drop, J: ServiceBrand>(
    rt: &H,
    alloc: Global,
    service: &Service<S, J>,
    jobs: Receiver<Job<&'static [u8], Client<H>>>,
    gate: &Meeting,
) -> Option<Refusal> {
    let context = ServiceContext::new(rt, alloc, service, gate);
    match context.work(jobs.iter(rt), let_go) {
        Ok(_) => None,
        Err(reason) => Some(reason),
    }
}

/// Serves the jobs over a service of the publisher, by two workers. Returns whether both had a looker.
fn meet<
    H: Threads + Wait + Clock + Copy + Drop + Send + Sync + 'static,
    S: Alter + Drop + Send,
    J: ServiceBrand + Send,
>(
    rt: &H,
    alloc: Global,
    publisher: Publisher<S>,
    domain: Domain,
    gate: &Meeting,
    jobs: Receiver<Job<&'static [u8], Client<H>>>,
) -> bool
    requires quiet { IsQuiet publisher.phase }
    requires of { IsNamed J.book J.base J.ours_first publisher }
{
    let made: Result<Service<S, J>, Refusal> = service_over(rt, publisher, domain);
    let Ok(service) = made else {
        return false;
    };
    let Ok(others) = jobs.clone() else {
        return false;
    };
    let shared = &service;
    let (first, second) = thread::join(
        rt,
        move || serve_jobs(rt, alloc, shared, jobs, gate),
        move || serve_jobs(rt, alloc, shared, others, gate),
    );
    first.is_none() && second.is_none()
}

#[test]
fn overlapping_sessions(rt: HostRuntime) -> Result<(), Fail> {
    let alloc = rt.alloc();
    let connection = Connection::open_in_memory(alloc)?;
    let (publisher, domain) = adopted(alloc, connection)?;
    let gate = Meeting::new();
    let first = Arc::new(alloc, Mutex::new(Vec::new(alloc)))?;
    let second = Arc::new(alloc, Mutex::new(Vec::new(alloc)))?;
    let (to_workers, jobs) = bounded(alloc, 2)?;
    assert!(rt; hand_over(rt, &to_workers, 1, &first)?);
    assert!(rt; hand_over(rt, &to_workers, 2, &second)?);
    // Closes the channel, so that the workers end after both.
    drop(to_workers);
    assert!(rt; meet::<_, _, Brand>(&rt, alloc, publisher, domain, &gate, jobs));
    assert_eq!(rt; first.lock(&rt).as_slice(), b"answer 0 none\n".as_slice());
    assert_eq!(rt; second.lock(&rt).as_slice(), b"answer 0 none\n".as_slice());
    assert_eq!(rt; gate.first_came.load(Ordering::SeqCst), 1);
    assert_eq!(rt; gate.second_came.load(Ordering::SeqCst), 1);
    assert_eq!(rt; gate.gave_up.load(Ordering::SeqCst), 0);
    Ok(())
}
