//! A session whose lines come in blocks, beside commands of others.
ghost use Rattle.prt_publisher.specs.Standing.{IsQuiet};
ghost use Rattle.prt_service.specs.Named.{IsNamed};

use crate::caller::{adopted, service_over, submit_to_service};
use prt_command::Refusal;
use prt_grace::Domain;
use prt_publisher::Publisher;
use prt_serve::{Gate, ServiceContext, SessionKind, ends_over, serve_session};
use prt_service::{Service, ServiceBrand};
use prt_session::Reply;
use sqlite::{Alter, Connection};
use std::alloc::Global;
use std::io::{self, Read, Write};
use std::marker::Brand;
use std::net::{Ipv4Addr, SocketAddr};
use std::sync::atomic::{AtomicBool, Ordering};
use std::sync::{Mutex, Wait};
use std::test::Fail;
use std::time::Clock;

/// What was seen of a session.
#[derive(Drop)]
struct Seen {
    replies: Mutex<Vec<u8>>,
    /// Whether the looker was online while the client was read from or written to, or after a line that was refused.
    held: AtomicBool,
}

impl Seen {
    /// Notes whether a looker of the service is online.
    fn note<H: Wait, S: Alter + Drop, J: ServiceBrand>(&self, rt: &H, service: &Service<S, J>) {
        if service.retention(rt).lowest.is_some() {
            self.held.store(true, Ordering::SeqCst);
        }
    }
}

/// An end of a connection. Each read returns a block of lines; the end to write to is never read.
#[derive(Drop)]
struct End<'a, 'b, H: Wait, S: Alter + Drop, J: ServiceBrand> {
    rt: &'a H,
    service: &'a Service<S, J>,
    seen: &'a Seen,
    blocks: &'b [Vec<u8>],
}

impl<'a, 'b, H: Wait, S: Alter + Drop, J: ServiceBrand> Read for End<'a, 'b, H, S, J> {
    fn read(&mut self, bytes: &mut [u8]) -> io::Result<usize> {
        self.seen.note(self.rt, self.service);
        let blocks = self.blocks;
        let Some((block, rest)) = blocks.split_first() else {
            return Ok(0);
        };
        self.blocks = rest;
        let count = block.len().min(bytes.len());
        bytes[..count].copy_from_slice(&block.as_slice()[..count]);
        Ok(count)
    }
}

impl<'a, 'b, H: Wait, S: Alter + Drop, J: ServiceBrand> Write for End<'a, 'b, H, S, J> {
    fn write(&mut self, bytes: &[u8]) -> io::Result<usize> {
        self.seen.note(self.rt, self.service);
        self.seen.replies.lock(self.rt).extend_from_slice(bytes)?;
        Ok(bytes.len())
    }

    fn flush(&mut self) -> io::Result<()> {
        Ok(())
    }
}

/// Another client, which has a command made before each sixteenth line.
#[derive(Drop)]
struct Neighbour<'a, H: Wait + Clock, S: Alter + Drop, J: ServiceBrand> {
    rt: &'a H,
    service: &'a Service<S, J>,
    seen: &'a Seen,
}

impl<'a, H: Wait + Clock, S: Alter + Drop, J: ServiceBrand> Gate for Neighbour<'a, H, S, J> {
    fn before(&self, _session: u64, line: u64) {
        if line % 16 == 1 {
            let _made = submit_to_service(self.rt, self.service).is_ok();
        }
    }

    fn after(&self, _session: u64, _client: &SocketAddr, _line: u64, _text: &[u8], reply: &Reply) {
        if let Reply::Refused(_) = reply {
            self.seen.note(self.rt, self.service);
        }
    }
}

/// Serves a session of these blocks over a service of the named front, beside the other client. Returns the replies, and
/// whether a version was held while the client might have been waited for.
fn serve<J: ServiceBrand, S: Alter + Drop, H: Wait + Clock + Copy + Drop>(
    rt: H,
    alloc: Global,
    publisher: Publisher<S>,
    domain: Domain,
    blocks: &[Vec<u8>],
) -> Result<(Vec<u8>, bool), Fail>
    requires quiet { IsQuiet publisher.phase }
    requires of { IsNamed J.book J.base J.ours_first publisher }
{
    let service: Service<S, J> = service_over(&rt, publisher, domain)?;
    let mut looker = service.looker(&rt)?;
    let seen = Seen {
        replies: Mutex::new(Vec::new(alloc)),
        held: AtomicBool::new(false),
    };
    let (rt, service, shown) = (&rt, &service, &seen);
    let from = End {
        rt,
        service,
        seen: shown,
        blocks,
    };
    let to = End {
        rt,
        service,
        seen: shown,
        blocks,
    };
    let gate = Neighbour {
        rt,
        service,
        seen: shown,
    };
    let mut ends = ends_over(alloc, from, to, SessionKind::InTurn)?;
    let lent = &mut ends;
    let client = SocketAddr::from((Ipv4Addr::LOCALHOST, 0));
    let context = ServiceContext::new(rt, alloc, service, &gate);
    let _end = serve_session(
        &context,
        &mut looker,
        1,
        client,
        Some(&*lent.pipeline),
        &mut lent.lines,
        &mut lent.replies,
    );
    looker.leave(rt, service);
    drop(ends);
    drop(gate);
    let held = seen.held.load(Ordering::SeqCst);
    Ok((seen.replies.into_inner(), held))
}

/// Serves them over the database of a connection.
fn serve_connection<S: Alter + Drop, H: Wait + Clock + Copy + Drop>(
    rt: H,
    alloc: Global,
    connection: Connection<S>,
    blocks: &[Vec<u8>],
) -> Result<(Vec<u8>, bool), Fail> {
    let (publisher, domain) = adopted(alloc, connection)?;
    serve::<Brand, S, H>(rt, alloc, publisher, domain, blocks)
}

/// Repeats a text.
fn repeated(alloc: Global, text: &[u8], times: usize) -> Result<Vec<u8>, Fail> {
    let mut repeated = Vec::new(alloc);
    for _ in 0..times {
        repeated.extend_from_slice(text)?;
    }
    Ok(repeated)
}

/// Counts how often a line differs from the one before it.
fn changes(text: &[u8]) -> usize {
    let mut lines = text.split(|byte| *byte == b'\n');
    let mut last = lines.next();
    let mut changes: usize = 0;
    for line in lines {
        if last != Some(line) {
            changes = changes.saturating_add(1);
        }
        last = Some(line);
    }
    changes
}

#[test]
fn a_block_is_answered_from_one_version(rt: HostRuntime) -> Result<(), Fail> {
    let alloc = rt.alloc();
    let first = repeated(alloc, b"route get 10.0.0.1\n", 200)?;
    let second = b"route get 1\nroute add 10/8 dev a1\nroute get 1\nlink show\nroute get 1\n";
    let blocks = Vec::from_array(alloc, [first, Vec::from_slice(alloc, second)?])?;
    let connection = Connection::open_in_memory(alloc)?;
    let (replies, held) = serve_connection(rt, alloc, connection, blocks.as_slice())?;
    // The neighbour's commands before the lines 17 to 193 show in the second block alone, one's own at once.
    let mut expected = repeated(alloc, b"answer 1 none\n", 200)?;
    expected.extend_from_slice(
        b"answer 13 none\nok 14\nanswer 14 none\nerror 3 UnknownObject\nanswer 14 none\n",
    )?;
    assert_eq!(rt; replies.as_slice(), expected.as_slice());
    assert!(rt; !held);
    Ok(())
}

#[test]
fn no_version_is_held_while_replies_go_out(rt: HostRuntime) -> Result<(), Fail> {
    let alloc = rt.alloc();
    // Replies for more than one block of theirs.
    let queries = repeated(alloc, b"route get 1\n", 600)?;
    let blocks = Vec::from_array(alloc, [queries])?;
    let connection = Connection::open_in_memory(alloc)?;
    let (replies, held) = serve_connection(rt, alloc, connection, blocks.as_slice())?;
    assert!(rt; !held);
    // The version that was fetched then, and the empty line after the last.
    assert_eq!(rt; changes(replies.as_slice()), 2);
    Ok(())
}
