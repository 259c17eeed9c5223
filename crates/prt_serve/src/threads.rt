//! The threads that serve sessions: those of the waiting room, of the workers, and of the loops that accept.
ghost use Rattle.std.specs.Prelude.{◌≡◌, ◌≢◌, ◌+◌, IfOk, None, true, vec_len};
ghost use denote.Param.Send.{IsSend, IsSync};

use crate::accept_loop::{Accepting, SessionListener, accept_all};
use crate::connection::{Lines, Replies};
use crate::context::{ServiceContext, Serving, SharedServing};
use crate::idle::close;
use crate::room::{Arrival, Connected, attend};
use crate::shift::Shift;
use crate::worker::Served;
use crossbeam_channel::{Receiver, Sender, bounded};
use prt_service::ServiceBrand;
use prt_session::Refusal;
use std::alloc::{AllocError, Global};
use std::io::{Read, Write};
use std::net::{OpenListener, OpenStream};
use std::thread::{self, JoinHandle, Scope, Threads};
use std::time::Duration;

/// How many connections may wait for a worker, or to be let into the waiting room.
const WAITING: usize = 64;

/// How much is served.
#[derive(Clone, Copy)]
pub struct Limits {
    /// How many threads serve sessions.
    pub workers: usize,
    /// After how many accepted connections no more are; 0 is no end.
    pub sessions: u64,
    /// How long a client may send nothing, and how long it may take nothing of a reply, before its session ends as by a
    /// fault of its reader or its writer. `None` is no limit.
    pub idle: Option<Duration>,
}

/// How serving ended. Each of its parts may be a fault.
#[derive(Clone, Copy)]
pub struct ServeEnd {
    /// How accepting sessions ended.
    pub accepting: Accepting,
    /// How accepting connections of feeds and for the status ended: by `Failed` or `Ended`, which it is too if there are none.
    pub feeding: Accepting,
    /// Why a worker got no looker, if one got none.
    pub refused: Option<Refusal>,
}

/// How serving ended, and what came of the workers.
#[derive(Drop)]
pub struct Worked<J: ServiceBrand> {
    pub end: ServeEnd,
    /// The shift of each worker that got a looker.
    pub shifts: Vec<Shift<J>>,
}

impl<J: ServiceBrand> Worked<J> {
    /// Makes that of workers for which there is no memory.
    fn failed(alloc: Global) -> Worked<J>
        ensures { result.end.accepting ≡ Accepting.Failed }
    {
        Worked {
            end: ServeEnd {
                accepting: Accepting::Failed,
                feeding: Accepting::Ended,
                refused: None,
            },
            shifts: Vec::new(alloc),
        }
    }
}

/// A worker whose thread is still to be started.
#[derive(Drop)]
struct WorkerThread<'a, C: Serving, T: Read + Write + Drop> {
    context: ServiceContext<'a, C>,
    jobs: Receiver<Connected<T>>,
    idle: Option<Duration>,
}

impl<'a, C: Serving, T: Read + Write + Drop> WorkerThread<'a, C, T> {
    fn new(
        context: ServiceContext<'a, C>,
        jobs: Receiver<Connected<T>>,
        idle: Option<Duration>,
    ) -> WorkerThread<'a, C, T> {
        WorkerThread {
            context,
            jobs,
            idle,
        }
    }

    /// Serves jobs until the channel is closed, as `ServiceContext::work` does.
    fn serve(self) -> Result<Shift<C::Brand>, Refusal> {
        let jobs = self.jobs.iter(self.context.rt);
        let idle = self.idle;
        let after = |served: Served<Lines<T>, Replies<T>>| close(served, idle);
        self.context.work(jobs, after)
    }
}

/// The waiting room, whose thread is still to be started.
#[derive(Drop)]
struct RoomThread<'a, C: Serving, T: Read + Write + OpenStream + Drop> {
    context: ServiceContext<'a, C>,
    arrivals: Receiver<Arrival<T>>,
    jobs: Sender<Connected<T>>,
    idle: Option<Duration>,
}

impl<'a, C: Serving, T: Read + Write + OpenStream + Drop> RoomThread<'a, C, T> {
    fn new(
        context: ServiceContext<'a, C>,
        arrivals: Receiver<Arrival<T>>,
        jobs: Sender<Connected<T>>,
        idle: Option<Duration>,
    ) -> RoomThread<'a, C, T> {
        RoomThread {
            context,
            arrivals,
            jobs,
            idle,
        }
    }

    /// Attends to connections until no more come.
    fn serve(self) {
        let RoomThread {
            context,
            arrivals,
            jobs,
            idle,
        } = self;
        attend(&context, arrivals, jobs, idle);
    }
}

/// The ways of a connection: from the listener to the waiting room, and from there to a worker.
#[derive(Drop)]
struct Channels<T: Read + Write + OpenStream + Drop> {
    to_room: Sender<Arrival<T>>,
    arrivals: Receiver<Arrival<T>>,
    to_workers: Sender<Connected<T>>,
    jobs: Receiver<Connected<T>>,
}

impl<T: Read + Write + OpenStream + Drop> Channels<T> {
    fn new(alloc: Global) -> Result<Channels<T>, AllocError> {
        let (to_room, arrivals) = bounded(alloc, WAITING)?;
        let (to_workers, jobs) = bounded(alloc, WAITING)?;
        Ok(Channels {
            to_room,
            arrivals,
            to_workers,
            jobs,
        })
    }
}

/// The threads of workers, and memory for their shifts.
#[derive(Drop)]
struct Crew<J: ServiceBrand> {
    threads: Vec<JoinHandle<Result<Shift<J>, Refusal>>>,
    shifts: Vec<Shift<J>>,
}

impl<J: ServiceBrand> Crew<J> {
    /// Gets memory for this number of workers.
    fn new(alloc: Global, workers: usize) -> Result<Crew<J>, AllocError>
        ensures { IfOk result (λ crew. (vec_len crew.threads ≡ 0) × (vec_len crew.shifts ≡ 0)) }
    {
        Ok(Crew {
            threads: Vec::with_capacity(alloc, workers)?,
            shifts: Vec::with_capacity(alloc, workers)?,
        })
    }

    /// Adds the thread of a worker, and returns whether it did. It does within the memory that it got.
    fn add(&mut self, thread: JoinHandle<Result<Shift<J>, Refusal>>) -> bool
        ensures added { result ≡ true → vec_len self.new.threads ≡ vec_len self.old.threads + 1 }
        ensures shifts { vec_len self.new.shifts ≡ vec_len self.old.shifts }
    {
        self.threads.push(thread).is_ok()
    }

    /// Adds the thread of a worker as `add` does, if it was started.
    fn add_started(&mut self, thread: Option<JoinHandle<Result<Shift<J>, Refusal>>>) -> bool
        ensures added { result ≡ true → vec_len self.new.threads ≡ vec_len self.old.threads + 1 }
        ensures shifts { vec_len self.new.shifts ≡ vec_len self.old.shifts }
    {
        match thread {
            Some(thread) => self.add(thread),
            None => false,
        }
    }

    /// Waits until its threads have ended, and returns their shifts, beside how accepting ended.
    fn join<H: Threads>(self, rt: &H, accepting: Accepting) -> Worked<J>
        requires { vec_len self.shifts ≡ 0 }
        ensures accepting { result.end.accepting ≡ accepting }
        ensures all { result.end.refused ≡ None → vec_len result.shifts ≡ vec_len self.threads }
    {
        let Crew {
            threads,
            mut shifts,
        } = self;
        let mut refused = None;
        for thread in threads {
            match thread.join(rt) {
                Ok(shift) => {
                    if shifts.push(shift).is_err() {
                        refused = Some(Refusal::NoMemory);
                    }
                }
                Err(reason) => refused = Some(reason),
            }
        }
        Worked {
            end: ServeEnd {
                accepting,
                feeding: Accepting::Ended,
                refused,
            },
            shifts,
        }
    }
}

/// The workers that were started, and how accepting ended among them.
#[derive(Drop)]
struct Manned<J: ServiceBrand> {
    crew: Crew<J>,
    accepting: Accepting,
}

impl<J: ServiceBrand> Manned<J> {
    /// Makes that of workers of which one, or what is to accept for them, could not be started.
    fn failed(crew: Crew<J>) -> Manned<J>
        ensures { result ≡ record { crew = crew; accepting = Accepting.Failed } }
    {
        Manned {
            crew,
            accepting: Accepting::Failed,
        }
    }

    /// Waits until the workers have ended, as `Crew::join` does.
    fn join<H: Threads>(self, rt: &H) -> Worked<J>
        requires { vec_len self.crew.shifts ≡ 0 }
        ensures accepting { result.end.accepting ≡ self.accepting }
        ensures all { result.end.refused ≡ None → vec_len result.shifts ≡ vec_len self.crew.threads }
    {
        self.crew.join(rt, self.accepting)
    }
}

/// Starts `workers` copies of this worker, and adds their threads to the crew; returns whether all of that went well. The
/// worker itself is dropped, so a send fails once no copy is left.
fn start_workers<'s, E: 's, C: SharedServing + 's, T: Read + Write + OpenStream + Drop + Send + 's>(
    scope: &Scope<'s, E>,
    like: WorkerThread<'s, C, T>,
    workers: usize,
    crew: &mut Crew<C::Brand>,
) -> bool
    ensures added { result ≡ true → vec_len crew.new.threads ≡ vec_len crew.old.threads + workers }
    ensures shifts { vec_len crew.new.shifts ≡ vec_len crew.old.shifts }
{
    for _ in 0..workers {
        let Ok(jobs) = like.jobs.clone() else {
            return false;
        };
        let worker = WorkerThread::new(like.context, jobs, like.idle);
        if !crew.add_started(scope.spawn(move || worker.serve()).ok()) {
            return false;
        }
    }
    true
}

/// Accepts connections, while each of the threads works. Returns once all of them have ended.
fn accept_among_workers<
    C: SharedServing,
    T: Read + Write + OpenStream + Drop + Send,
    L: OpenListener<Stream = T> + Drop + Sync,
>(
    context: &ServiceContext<'_, C>,
    listeners: &[SessionListener<L>],
    limits: Limits,
    channels: Channels<T>,
    mut crew: Crew<C::Brand>,
) -> Manned<C::Brand>
    requires { (vec_len crew.threads ≡ 0) × (vec_len crew.shifts ≡ 0) }
    ensures shifts { vec_len result.crew.shifts ≡ 0 }
    ensures all { result.accepting ≢ Accepting.Failed → vec_len result.crew.threads ≡ limits.workers }
{
    let Channels {
        to_room,
        arrivals,
        to_workers,
        jobs,
    } = channels;
    // The prover keeps what the closure ensures only if it borrows no context.
    let (rt, gate) = (context.rt, context.gate);
    let worker = WorkerThread::new(*context, jobs, limits.idle);
    let attendant = RoomThread::new(*context, arrivals, to_workers, limits.idle);
    thread::scope(
        thread::scope_env(),
        rt,
        |scope| -> Manned<C::Brand>
            requires crew { (vec_len crew.threads ≡ 0) × (vec_len crew.shifts ≡ 0) }
            requires send { IsSync C.row × IsSync C.Handle.row × IsSend C.Store.row × IsSend C.Brand.row × IsSync C.Gate.row × IsSend T.row × IsSync L.row }
            ensures { (vec_len result.crew.shifts ≡ 0) × (result.accepting ≢ Accepting.Failed → vec_len result.crew.threads ≡ limits.workers) }
        {
            if !start_workers(scope, worker, limits.workers, &mut crew) {
                return Manned::failed(crew);
            }
            if scope.spawn(move || attendant.serve()).is_err() {
                return Manned::failed(crew);
            }
            let accepting = accept_all(rt, gate, listeners, to_room, limits.sessions);
            Manned { crew, accepting }
        },
    )
}

/// Serves the connections of listeners by the workers of `limits`, each a session of its own, until the last that may come has
/// ended. All threads have ended then. The listeners share one numbering and one limit; each `accept` is to return within a
/// short time, also if nobody comes.
///
/// A connection takes a worker once its client has sent something or ended; up to 1,024 wait for that. One whose second
/// end can't be made for want of a descriptor waits for one. One whose buffer or time limit is refused is closed without a
/// reply; it keeps its number and counts.
///
/// Accepting stops for good if a listener fails for good, if a thread or a channel can't be made, or if no worker is
/// left. A worker that gets no looker ends, and the others serve on. The memory for the workers' shifts is requested before
/// they start: if there is none, accepting fails.
pub fn serve_sessions<
    C: SharedServing,
    T: Read + Write + OpenStream + Drop + Send,
    L: OpenListener<Stream = T> + Drop + Sync,
>(
    context: &ServiceContext<'_, C>,
    listeners: &[SessionListener<L>],
    limits: Limits,
) -> Worked<C::Brand>
    ensures { result.end.accepting ≢ Accepting.Failed → result.end.refused ≡ None → vec_len result.shifts ≡ limits.workers }
{
    let Ok(channels) = Channels::new(context.alloc) else {
        return Worked::failed(context.alloc);
    };
    let Ok(crew) = Crew::new(context.alloc, limits.workers) else {
        return Worked::failed(context.alloc);
    };
    let manned = accept_among_workers(context, listeners, limits, channels, crew);
    manned.join(context.rt)
}
