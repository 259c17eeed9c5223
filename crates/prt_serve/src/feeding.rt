//! The loop that accepts connections of a feed, and the threads that feed them.
ghost use Rattle.std.specs.Prelude.{◌≡◌, ◌≢◌, None, vec_len};

use crate::accept_loop::{Accepting, SessionListener};
use crate::accepting::{AcceptResult, accept_one};
use crate::context::{ServiceContext, Serving, SharedServing};
use crate::feed::serve_feed;
use crate::follower_slots::FollowerSlots;
use crate::gate::Gate;
use crate::threads::{Limits, ServeEnd, Worked, serve_sessions};
use crossbeam_channel::{Receiver, Sender, bounded};
use std::io::{self, Read, Write};
use std::net::{OpenListener, OpenStream};
use std::sync::Wait;
use std::sync::atomic::{AtomicBool, Ordering};
use std::thread;
use std::time::{Clock, Duration};

/// How many connections follow at once.
const FOLLOWERS: u64 = 16;

/// How many connections are fed at once: beside those that follow, 64 that read the tables.
const FEEDERS: usize = 80;

/// How many seconds one write to a connection may wait. The first of two that wait may have put a part of its bytes into
/// the system's buffer, so a connection that takes nothing is closed after 10 seconds at most.
const PATIENCE: u64 = 5;

/// How many milliseconds the loop pauses if no connection waits.
const PAUSE: u64 = 50;

/// How many seconds a connection waits for a feeder that is free.
const FOR_FEEDER: u64 = 10;

/// The two ends of a connection that is fed.
#[derive(Drop)]
struct FeedEnds<T: Drop> {
    /// The end at which it is checked whether the peer is there. A read hardly waits.
    reader: T,
    writer: T,
}

/// Makes the ends of a connection, with the time limits of both.
fn feed_ends<T: OpenStream + Drop>(stream: T) -> io::Result<FeedEnds<T>> {
    // Sends all the same if this is refused: a change then may come late.
    let _at_once = stream.set_nodelay(true).is_ok();
    stream.set_read_timeout(Some(Duration::from_millis(1)))?;
    // A thread that waited for its client without end would never end.
    stream.set_write_timeout(Some(Duration::from_secs(PATIENCE)))?;
    Ok(FeedEnds {
        reader: stream.try_clone()?,
        writer: stream,
    })
}

/// Feeds one connection after another, until no more come. A fault ends its own feed alone, and closes its connection.
fn feed_streams<C: Serving, T: Read + Write + OpenStream + Drop>(
    context: &ServiceContext<'_, C>,
    slots: &FollowerSlots,
    streams: &Receiver<T>,
) {
    for stream in streams.iter(context.rt) {
        if let Ok(
            FeedEnds {
                mut reader,
                mut writer,
            },
        ) = feed_ends(stream)
        {
            let _fed = serve_feed(context, slots, &mut reader, &mut writer).is_ok();
        }
    }
}

/// What came of a round over the listeners.
#[derive(Clone, Copy)]
enum Round {
    /// A connection came by one of them.
    Came,
    /// Nobody did.
    Nobody,
    /// One of them failed for good.
    Never,
}

/// Accepts a connection at each listener, if one waits there, and hands it to a feeder. One for which no feeder gets free
/// in time is closed.
fn accept_round<H: Wait + Clock, G: Gate, L: OpenListener>(
    rt: &H,
    gate: &G,
    listeners: &[L],
    streams: &Sender<L::Stream>,
) -> Round {
    let patience = Duration::from_secs(FOR_FEEDER);
    let mut round = Round::Nobody;
    for listener in listeners {
        match accept_one(rt, gate, listener) {
            AcceptResult::Stream(stream, _) => {
                round = Round::Came;
                drop(streams.send_timeout(rt, stream, patience));
            }
            AcceptResult::Nobody => {}
            AcceptResult::Never => return Round::Never,
        }
    }
    round
}

/// Has calls on the listeners wait for no client. Returns whether all of them do.
fn stop_waiting<L: OpenListener>(listeners: &[L]) -> bool {
    for listener in listeners {
        if listener.set_nonblocking(true).is_err() {
            return false;
        }
    }
    true
}

/// Accepts connections, and hands each to a feeder that is free or soon is, until it has to end. One for which no feeder
/// is free is closed. Closes the channel behind it.
fn accept_feeds<H: Wait + Clock, G: Gate, L: OpenListener>(
    rt: &H,
    gate: &G,
    listeners: &[L],
    streams: Sender<L::Stream>,
    is_ended: &AtomicBool,
) -> Accepting {
    // Waits for no client, so that it sees when it is to end.
    if !stop_waiting(listeners) {
        return Accepting::Failed;
    }
    for _ in rt.forever() {
        if is_ended.load(Ordering::SeqCst) {
            return Accepting::Ended;
        }
        match accept_round(rt, gate, listeners, &streams) {
            Round::Came => {}
            Round::Nobody => thread::sleep(rt, Duration::from_millis(PAUSE)),
            Round::Never => return Accepting::Failed,
        }
    }
    unreachable!()
}

/// Feeds the connections of listeners until it has to end, and following has ended.
fn feed_all<
    C: SharedServing,
    T: Read + Write + OpenStream + Drop + Send,
    L: OpenListener<Stream = T> + Sync,
>(context: &ServiceContext<'_, C>, listeners: &[L], is_ended: &AtomicBool) -> Accepting {
    let Ok((sender, streams)) = bounded(context.alloc, 0) else {
        return Accepting::Failed;
    };
    let slots = FollowerSlots::new(FOLLOWERS);
    let (has_fed, accepting) = thread::join(
        context.rt,
        || {
            let feeder = |_| feed_streams(context, &slots, &streams);
            thread::map_indices(context.rt, context.alloc, FEEDERS, &feeder).is_ok()
        },
        move || accept_feeds(context.rt, context.gate, listeners, sender, is_ended),
    );
    if has_fed {
        accepting
    } else {
        Accepting::Failed
    }
}

/// Serves the connections of listeners as `serve_sessions` does, and beside it feeds those of others: up to 80 at once, of
/// which 16 follow once they have read the tables. A further one waits up to 10 seconds for a thread, and is closed then.
/// A feed has a thread of its own, and its faults end it alone. All threads have ended when it returns.
pub fn serve_and_feed<
    C: SharedServing,
    T: Read + Write + OpenStream + Drop + Send,
    L: OpenListener<Stream = T> + Drop + Sync,
>(
    context: &ServiceContext<'_, C>,
    listeners: &[SessionListener<L>],
    limits: Limits,
    feeds: &[L],
) -> Worked<C::Brand>
    ensures { result.end.accepting ≢ Accepting.Failed → result.end.refused ≡ None → vec_len result.shifts ≡ limits.workers }
{
    let is_ended = AtomicBool::new(false);
    let (own, is_over) = (*context, &is_ended);
    let (feeding, Worked { end, shifts }) = thread::join(
        context.rt,
        || feed_all(context, feeds, &is_ended),
        // The prover keeps what a closure ensures only if the closure owns its context.
        move || {
            let worked = serve_sessions(&own, listeners, limits);
            is_over.store(true, Ordering::SeqCst);
            own.service.end_following(own.rt);
            worked
        },
    );
    Worked {
        end: ServeEnd { feeding, ..end },
        shifts,
    }
}
