//! The waiting room: connections whose clients have sent nothing yet take no worker.

use crate::accepting::is_permanent;
use crate::connection::{Ends, Lines, Replies, ends_over};
use crate::context::{ServiceContext, Serving};
use crate::gate::{Gate, Queued};
use crate::idle::idle_line;
use crate::worker::{Job, SessionKind};
use crossbeam_channel::{Receiver, RecvTimeoutError, Sender, TrySendError};
use std::alloc::Global;
use std::collections::VecDeque;
use std::io::{self, ErrorKind, Read, Write};
use std::net::{OpenStream, SocketAddr};
use std::sync::Wait;
use std::thread;
use std::time::{Clock, Duration};

/// How many silent connections wait at most, and how many that have sent something.
const MOST_WAITING: usize = 1024;

/// How many milliseconds a silent connection is a young one, which is looked at often.
const YOUNG_MILLISECONDS: u64 = 100;

/// How many milliseconds lie between two looks at a young connection.
const YOUNG_PAUSE: u64 = 1;

/// How many milliseconds lie between two looks at any other.
const OLD_PAUSE: u64 = 50;

/// How many milliseconds lie between two tries to hand a connection to the workers.
const BUSY_PAUSE: u64 = 5;

/// How many milliseconds one whose client has spoken waits for a descriptor, if none is free.
const DESCRIPTOR_PATIENCE: u64 = 1000;

/// For how many seconds an atomic script waits for a worker, once its client has spoken. `prt` waits longer for the reply, so
/// no script is made after it has given up.
const SCRIPT_PATIENCE: u64 = 10;

/// How many connections are handed to the workers between two looks.
const MOST_HANDED_OVER: usize = 64;

/// A connection whose session waits for a worker.
pub type Connected<T> = Job<Lines<T>, Replies<T>>;

/// A connection that was accepted, with the number of its session, from 1.
#[derive(Drop)]
pub struct Arrival<T: Drop> {
    pub session: u64,
    /// Where its client is; 0.0.0.0:0 for one at a Unix socket.
    pub client: SocketAddr,
    /// How its commands are made.
    pub kind: SessionKind,
    pub stream: T,
}

/// A connection in the room.
#[derive(Drop)]
struct Guest<T: Drop> {
    session: u64,
    client: SocketAddr,
    kind: SessionKind,
    stream: T,
    /// When it came or, once its client has spoken, when that was seen, by the clock that never goes back.
    since: Duration,
    /// Whether a call on it returns an error if it would wait.
    is_nonblocking: bool,
}

impl<T: OpenStream + Drop> Guest<T> {
    /// Lets a connection in: calls on it don't wait from now on, if it has a mode for that.
    fn new(arrival: Arrival<T>, now: Duration) -> Guest<T> {
        let Arrival {
            session,
            client,
            kind,
            stream,
        } = arrival;
        let is_nonblocking = stream.set_nonblocking(true).is_ok();
        Guest {
            session,
            client,
            kind,
            stream,
            since: now,
            is_nonblocking,
        }
    }

    /// Checks whether its client has sent something, has ended or broken the connection off, or can't be looked at.
    fn has_spoken(&self) -> bool {
        if !self.is_nonblocking {
            return true;
        }
        let mut byte = [0u8; 1];
        match self.stream.peek(&mut byte) {
            Ok(_) => true,
            Err(error) => !matches!(
                error.kind(),
                ErrorKind::WouldBlock | ErrorKind::TimedOut | ErrorKind::Interrupted
            ),
        }
    }

    /// Computes how long it has been here or, once its client has spoken, how long ago that was.
    fn age(&self, now: Duration) -> Duration {
        now.saturating_sub(self.since)
    }
}

/// Readies a connection for its session: calls on it wait again, each for so long at most.
fn make_ready<T: OpenStream + Drop>(guest: Guest<T>, idle: Option<Duration>) -> io::Result<T> {
    let Guest {
        stream,
        is_nonblocking,
        ..
    } = guest;
    if is_nonblocking {
        stream.set_nonblocking(false)?;
    }
    if idle.is_some() {
        stream.set_read_timeout(idle)?;
        stream.set_write_timeout(idle)?;
    }
    // Serves all the same if this is refused: a reply then may come late.
    let _at_once = stream.set_nodelay(true).is_ok();
    Ok(stream)
}

/// Computes until when a worker may begin with what such a client sends, who spoke at this time.
fn until(kind: SessionKind, since: Duration) -> Option<Duration> {
    match kind {
        SessionKind::InTurn => None,
        SessionKind::Together => Some(since.saturating_add(Duration::from_secs(SCRIPT_PATIENCE))),
    }
}

/// Makes a session of a connection and its second end, which is for writing.
fn connected<T: Read + Write + OpenStream + Drop>(
    alloc: Global,
    guest: Guest<T>,
    to: T,
    idle: Option<Duration>,
) -> io::Result<Connected<T>> {
    let (session, client, kind) = (guest.session, guest.client, guest.kind);
    let until = until(kind, guest.since);
    let stream = make_ready(guest, idle)?;
    let Ends {
        lines,
        replies,
        pipeline,
    } = ends_over(alloc, stream, to, kind)?;
    Ok(Job {
        session,
        client,
        kind,
        until,
        reader: lines,
        writer: replies,
        pipeline: Some(pipeline),
    })
}

/// What became of the first of those that have spoken.
#[derive(Drop)]
enum Readied<T: Read + Write + OpenStream + Drop> {
    Session(Connected<T>),
    /// It is gone: no session can be made of it.
    Closed,
    /// It stays for a while: a second end may be made later, once a descriptor is free.
    Waits,
}

/// Informs the client of a connection that nothing came from it for so long, and closes it.
fn turn_out<T: Write + Drop>(mut guest: Guest<T>, idle: Duration) {
    // A client that has read nothing has room for one line.
    let line = idle_line(idle.as_secs());
    let _told = guest.stream.write(line.as_bytes()).is_ok();
}

/// What a receiver of arrivals got.
#[derive(Drop)]
enum Came<T: Drop> {
    Guest(Guest<T>),
    Nobody,
    /// No more will come.
    Closed,
}

/// The connections that wait, and what was seen of them.
#[derive(Drop)]
struct Room<T: Read + Write + OpenStream + Drop> {
    alloc: Global,
    /// For how long a client may send nothing.
    idle: Option<Duration>,
    /// Those whose clients have sent nothing, in the order in which they came.
    silent: VecDeque<Guest<T>>,
    /// Those whose clients have sent something or ended, in the order in which that was seen.
    spoken: VecDeque<Guest<T>>,
    /// The first of those, for which there was no room among the workers' jobs.
    next: Option<Connected<T>>,
    /// When the young ones were looked at.
    saw_young: Duration,
    /// When all were.
    saw_all: Duration,
    /// How many were handed to the workers.
    handed_over: u64,
}

impl<T: Read + Write + OpenStream + Drop> Room<T> {
    fn new(alloc: Global, idle: Option<Duration>) -> Room<T> {
        Room {
            alloc,
            idle,
            silent: VecDeque::new(alloc),
            spoken: VecDeque::new(alloc),
            next: None,
            saw_young: Duration::ZERO,
            saw_all: Duration::ZERO,
            handed_over: 0,
        }
    }

    fn has_spoken_ones(&self) -> bool {
        self.next.is_some() || !self.spoken.is_empty()
    }

    fn is_empty(&self) -> bool {
        self.silent.is_empty() && !self.has_spoken_ones()
    }

    /// Counts those that wait, and those that have gone to the workers.
    fn queued(&self) -> Queued {
        let next = usize::from(self.next.is_some());
        let in_room = self.silent.len().saturating_add(self.spoken.len());
        Queued {
            in_room: in_room.saturating_add(next),
            handed_over: self.handed_over,
        }
    }

    /// Chooses how long to wait before the next look.
    fn pause(&self, now: Duration) -> Duration {
        let youngest = self.silent.back();
        let is_young = youngest.is_some_and(|guest| guest.age(now)
            < Duration::from_millis(YOUNG_MILLISECONDS));
        let pause = if is_young {
            YOUNG_PAUSE
        } else if self.has_spoken_ones() {
            BUSY_PAUSE
        } else {
            OLD_PAUSE
        };
        Duration::from_millis(pause)
    }

    /// Puts one that was looked at and sent nothing back to its place; the oldest goes if there are too many.
    fn keep_silent(&mut self, guest: Guest<T>) {
        if self.silent.len() >= MOST_WAITING {
            drop(self.silent.pop_front());
        }
        // Closed if there is no memory for it.
        let _kept = self.silent.push_back(guest).is_ok();
    }

    /// Takes one in, by what is seen of it.
    fn sort_in(&mut self, mut guest: Guest<T>, now: Duration) {
        if guest.has_spoken() {
            guest.since = now;
            let _kept = self.spoken.push_back(guest).is_ok();
            return;
        }
        let idle = self.idle;
        if let Some(idle) = idle {
            if guest.age(now) > idle {
                turn_out(guest, idle);
                return;
            }
        }
        self.keep_silent(guest);
    }

    /// Looks at those that are due.
    fn look(&mut self, now: Duration) {
        let sees_all = now.saturating_sub(self.saw_all) >= Duration::from_millis(OLD_PAUSE);
        if now.saturating_sub(self.saw_young) < Duration::from_millis(YOUNG_PAUSE) {
            return;
        }
        self.saw_young = now;
        if sees_all {
            self.saw_all = now;
        }
        for _ in 0..self.silent.len() {
            let Some(guest) = self.silent.pop_front() else {
                return;
            };
            if sees_all || guest.age(now) < Duration::from_millis(YOUNG_MILLISECONDS) {
                self.sort_in(guest, now);
            } else {
                self.keep_silent(guest);
            }
        }
    }

    /// Makes a session of one that has spoken. If no descriptor is free for its second end, it waits for one, but not for
    /// long: all that wait hold descriptors themselves.
    fn make_session(&mut self, guest: Guest<T>, now: Duration) -> Readied<T> {
        let to = match guest.stream.try_clone() {
            Ok(to) => to,
            Err(error) => {
                let has_waited = guest.age(now) >= Duration::from_millis(DESCRIPTOR_PATIENCE);
                if has_waited || is_permanent(&error) {
                    return Readied::Closed;
                }
                let _kept = self.spoken.push_front(guest).is_ok();
                return Readied::Waits;
            }
        };
        match connected(self.alloc, guest, to, self.idle) {
            Ok(job) => Readied::Session(job),
            Err(_) => Readied::Closed,
        }
    }

    /// Takes the first session for the workers, if one is ready. A connection of which none can be made is closed.
    fn next_job(&mut self, now: Duration) -> Option<Connected<T>> {
        if let Some(job) = self.next.take() {
            return Some(job);
        }
        for _ in 0..self.spoken.len() {
            let guest = self.spoken.pop_front()?;
            match self.make_session(guest, now) {
                Readied::Session(job) => return Some(job),
                Readied::Closed => {}
                Readied::Waits => return None,
            }
        }
        None
    }

    /// Hands those that have spoken to the workers, as far as there is room. Returns whether a worker is left.
    fn hand_over<H: Wait>(&mut self, rt: &H, jobs: &Sender<Connected<T>>, now: Duration) -> bool {
        for _ in 0..MOST_HANDED_OVER {
            let Some(job) = self.next_job(now) else {
                return true;
            };
            match jobs.try_send(rt, job) {
                Ok(()) => self.handed_over = self.handed_over.saturating_add(1),
                Err(TrySendError::Disconnected(_)) => return false,
                Err(refused) => {
                    self.next = Some(refused.into_inner());
                    return true;
                }
            }
        }
        true
    }

    /// Waits for one to come, or for the next look.
    fn wait<H: Wait + Clock>(&self, rt: &H, arrivals: &Receiver<Arrival<T>>) -> Came<T> {
        if self.is_empty() {
            return match arrivals.recv(rt) {
                Ok(arrival) => Came::Guest(Guest::new(arrival, time(rt))),
                Err(_) => Came::Closed,
            };
        }
        let pause = self.pause(time(rt));
        if self.spoken.len() >= MOST_WAITING {
            thread::sleep(rt, pause);
            return Came::Nobody;
        }
        match arrivals.recv_timeout(rt, pause) {
            Ok(arrival) => Came::Guest(Guest::new(arrival, time(rt))),
            Err(RecvTimeoutError::Timeout) => Came::Nobody,
            Err(RecvTimeoutError::Disconnected) => {
                thread::sleep(rt, pause);
                Came::Closed
            }
        }
    }
}

/// Reads the clock that never goes back; 0 if it can't be read.
fn time<H: Clock>(rt: &H) -> Duration {
    rt.monotonic().unwrap_or(Duration::ZERO)
}

/// Keeps connections until their clients have sent something, and then hands each to the workers, until no more come and
/// none waits. Ends if no worker is left.
///
/// One whose client sends nothing for longer than `idle` is closed. So is the oldest of 1,024 of them if one more
/// comes. After each look the gate learns how many wait.
pub(crate) fn attend<C: Serving, T: Read + Write + OpenStream + Drop>(
    context: &ServiceContext<'_, C>,
    arrivals: Receiver<Arrival<T>>,
    jobs: Sender<Connected<T>>,
    idle: Option<Duration>,
) {
    let mut room = Room::new(context.alloc, idle);
    for _ in context.rt.forever() {
        let came = room.wait(context.rt, &arrivals);
        let now = time(context.rt);
        let is_closed = matches!(came, Came::Closed);
        if let Came::Guest(guest) = came {
            room.sort_in(guest, now);
        }
        room.look(now);
        let has_workers = room.hand_over(context.rt, &jobs, now);
        context.gate.queued(room.queued());
        if !has_workers || (is_closed && room.is_empty()) {
            break;
        }
    }
}
