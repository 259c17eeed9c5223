//! The loops that accept the connections of sessions, one for each listener.
ghost use Rattle.std.specs.Prelude.{◌≡◌};
ghost use Rattle.prt_serve.specs.Accepting.{worse};

use crate::accepting::{AcceptResult, accept_one};
use crate::gate::Gate;
use crate::room::Arrival;
use crate::turnstile::Turnstile;
use crate::worker::SessionKind;
use crossbeam_channel::Sender;
use std::net::OpenListener;
use std::sync::{Mutex, Wait};
use std::thread::{self, Threads};
use std::time::Clock;

/// A listener for sessions.
#[derive(Drop)]
pub struct SessionListener<L: Drop> {
    pub listener: L,
    /// How the sessions that come by it execute their lines.
    pub kind: SessionKind,
}

/// How accepting ended.
#[derive(Clone, Copy)]
pub enum Accepting {
    /// As many connections were accepted as were asked for.
    Ended,
    /// The listener failed for good, or a thread or a channel could not be made.
    Failed,
    /// No worker was left to take a connection.
    NoWorkers,
}

impl Accepting {
    /// Chooses the worse of two ends: a failure, or that no worker is left.
    pub(crate) fn worse(self, other: Accepting) -> Accepting
        ensures { result ≡ worse self other }
    {
        match (self, other) {
            (Accepting::Failed, _) | (_, Accepting::Failed) => Accepting::Failed,
            (Accepting::NoWorkers, _) | (_, Accepting::NoWorkers) => Accepting::NoWorkers,
            (Accepting::Ended, Accepting::Ended) => Accepting::Ended,
        }
    }
}

/// Accepts connections until the turnstile is shut, or this ends by itself.
fn accept_each<H: Wait + Clock, G: Gate, L: OpenListener + Drop>(
    rt: &H,
    gate: &G,
    from: &SessionListener<L>,
    arrivals: &Sender<Arrival<L::Stream>>,
    turnstile: &Turnstile,
) -> Accepting {
    let kind = from.kind;
    for _ in rt.forever() {
        if turnstile.is_shut() {
            return Accepting::Ended;
        }
        let (stream, client) = match accept_one(rt, gate, &from.listener) {
            AcceptResult::Stream(stream, client) => (stream, client),
            AcceptResult::Nobody => continue,
            AcceptResult::Never => return Accepting::Failed,
        };
        let Some(session) = turnstile.pass() else {
            return Accepting::Ended;
        };
        let arrival = Arrival {
            session,
            client,
            kind,
            stream,
        };
        if arrivals.send(rt, arrival).is_err() {
            return Accepting::NoWorkers;
        }
        if turnstile.is_last(session) {
            return Accepting::Ended;
        }
    }
    unreachable!()
}

/// Accepts connections at one of several listeners, numbers them with the others' from 1 and hands them over. Ends after
/// the last that may come, and then or after a failure has the others end too. Closes the channel behind it.
///
/// After an error that may pass it notifies the gate, pauses and tries again. It sees that it is to end once its listener
/// returns, by a connection or an error.
pub fn accept<H: Wait + Clock, G: Gate, L: OpenListener + Drop>(
    rt: &H,
    gate: &G,
    from: &SessionListener<L>,
    arrivals: Sender<Arrival<L::Stream>>,
    turnstile: &Turnstile,
) -> Accepting {
    let accepting = accept_each(rt, gate, from, &arrivals, turnstile);
    drop(arrivals);
    turnstile.shut();
    accepting
}

/// One who accepts at a listener, whose thread is still to be started.
#[derive(Drop)]
struct Doorkeeper<'a, H: Wait + Clock, G: Gate, L: OpenListener + Drop> {
    rt: &'a H,
    gate: &'a G,
    from: &'a SessionListener<L>,
    arrivals: Sender<Arrival<L::Stream>>,
    turnstile: &'a Turnstile,
    /// Where it notes how it ended.
    ended: &'a Mutex<Accepting>,
}

impl<'a, H: Wait + Clock, G: Gate, L: OpenListener + Drop> Doorkeeper<'a, H, G, L> {
    /// Accepts until it or another ends.
    fn serve(self) {
        let accepting = accept(self.rt, self.gate, self.from, self.arrivals, self.turnstile);
        note_end(self.rt, self.ended, accepting);
    }
}

/// Notes how one of those who accept ended.
fn note_end<H: Wait>(rt: &H, ended: &Mutex<Accepting>, accepting: Accepting) {
    let mut ended = ended.lock(rt);
    *ended = ended.worse(accepting);
}

/// Accepts connections at all listeners, each in a thread of its own. Returns once all of these have ended.
pub(crate) fn accept_all<
    H: Threads + Wait + Clock + Sync,
    G: Gate + Sync,
    L: OpenListener<Stream: Send> + Drop + Sync,
>(
    rt: &H,
    gate: &G,
    listeners: &[SessionListener<L>],
    arrivals: Sender<Arrival<L::Stream>>,
    sessions: u64,
) -> Accepting {
    let (turnstile, ended) = (Turnstile::new(sessions), Mutex::new(Accepting::Ended));
    let (turnstile, noted) = (&turnstile, &ended);
    thread::scope(thread::scope_env(), rt, |scope| {
        for from in listeners {
            let is_started = match arrivals.clone() {
                Ok(arrivals) => {
                    let doorkeeper = Doorkeeper {
                        rt,
                        gate,
                        from,
                        arrivals,
                        turnstile,
                        ended: noted,
                    };
                    scope.spawn(move || doorkeeper.serve()).is_ok()
                }
                Err(_) => false,
            };
            if !is_started {
                turnstile.shut();
                note_end(rt, noted, Accepting::Failed);
            }
        }
    });
    ended.into_inner()
}
