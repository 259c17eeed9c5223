//! Workers: each serves one connection after another, a session or an atomic script.
ghost use Rattle.std.specs.Prelude.{◌≡◌, ◌^◌, ◌-◌, List, None, IfErr, IfOk, length, min};
ghost use Rattle.std.specs.Iterator.{Drains, IsFinite};
ghost use Rattle.prt_published.specs.Line.{Begins, Line};
ghost use Rattle.prt_serve.specs.Jobs.{ServesAll, ServesCounted};
ghost use Rattle.prt_serve.specs.Serving.{Serves};
ghost use Rattle.prt_serve.specs.Together.{ServesTogether};

use crate::atomic::{ScriptServed, serve_atomic, turn_away};
use crate::connection::Pipeline;
use crate::context::{ServiceContext, Serving};
use crate::gate::Gate;
use crate::session::serve_session;
use crate::shift::Shift;
use prt_service::Looker;
use prt_session::{Refusal, ScriptEnd};
use std::io::{Read, Write};
use std::net::SocketAddr;
use std::sync::Arc;
use std::time::{Clock, Duration};

/// How the commands of a connection are made.
#[derive(Clone, Copy)]
pub enum SessionKind {
    /// One after another: each line is replied to before the next is read.
    InTurn,
    /// All together or none, once the last line is read.
    Together,
}

/// A session that waits for a worker.
#[derive(Drop)]
pub struct Job<R: Read + Drop, W: Write + Drop> {
    /// The number of the session, from 1.
    pub session: u64,
    /// Where its client is; 0.0.0.0:0 for one at a Unix socket.
    pub client: SocketAddr,
    pub kind: SessionKind,
    /// Until when a worker may begin with an atomic script, by the clock that never goes back: its client may give up after
    /// that. `None` is no limit, as a session has none.
    pub until: Option<Duration>,
    pub reader: R,
    pub writer: W,
    /// What the two report of the connection, if they do.
    pub pipeline: Option<Arc<Pipeline>>,
}

/// A job whose session has ended: what its reader has left, what its writer was given, and how the session ended.
#[derive(Drop)]
pub struct Served<R: Read + Drop, W: Write + Drop> {
    pub job: Job<R, W>,
    pub end: ScriptEnd,
}

/// Serves the session of a job, as `serve_session` does: its lines are read from the job's own reader, and its replies go
/// to the job's own writer.
fn serve_job<C: Serving, R: Read + Drop, W: Write + Drop>(
    context: &ServiceContext<'_, C>,
    looker: &mut Looker,
    job: &mut Job<R, W>,
) -> ScriptEnd
    requires { (looker.old.known.book ≡ C.Brand.book) × (looker.old.known.base ≡ C.Brand.base) }
    ensures of { (looker.new.known.book ≡ C.Brand.book) × (looker.new.known.base ≡ C.Brand.base) }
    ensures offline { (looker.new.held ≡ None) × (looker.new.announced ≡ None) }
    ensures session { job.new.session ≡ job.old.session }
    ensures kind { job.new.kind ≡ job.old.kind }
    ensures served { Serves looker.old.known looker.new.known (R.remaining job.old.reader) (R.remaining job.new.reader)
        (W.contents job.old.writer) (W.contents job.new.writer) result }
{
    context.gate.begins(job.session);
    let end = serve_session(
        context,
        looker,
        job.session,
        job.client,
        job.pipeline.as_deref(),
        &mut job.reader,
        &mut job.writer,
    );
    context.gate.ends(job.session);
    end
}

/// Checks whether it is later than this. If the clock can't be read it isn't.
fn is_past<H: Clock>(rt: &H, until: Option<Duration>) -> bool {
    match (until, rt.monotonic()) {
        (Some(until), Ok(now)) => now > until,
        _ => false,
    }
}

/// Serves the atomic script of a job, as `serve_atomic` does. If it is too late to begin, nothing of it is made, as if it
/// could not be read.
fn serve_together<C: Serving, R: Read + Drop, W: Write + Drop>(
    context: &ServiceContext<'_, C>,
    looker: &mut Looker,
    job: Job<R, W>,
) -> Served<R, W>
    requires { (looker.old.known.book ≡ C.Brand.book) × (looker.old.known.base ≡ C.Brand.base) }
    ensures of { (looker.new.known.book ≡ C.Brand.book) × (looker.new.known.base ≡ C.Brand.base) }
    ensures offline { (looker.new.held ≡ None) × (looker.new.announced ≡ None) }
    ensures grows { Begins looker.old.known looker.new.known }
    ensures session { result.job.session ≡ job.session }
    ensures kind { result.job.kind ≡ job.kind }
    ensures served { ServesTogether looker.old.known looker.new.known (R.remaining job.reader) (R.remaining result.job.reader)
        (W.contents job.writer) (W.contents result.job.writer) result.end }
{
    let Job {
        session,
        client,
        kind,
        until,
        reader,
        mut writer,
        pipeline,
    } = job;
    context.gate.begins(session);
    let ScriptServed { end, reader } = if is_past(context.rt, until) {
        turn_away(context, looker, session, client, reader, &mut writer)
    } else {
        serve_atomic(context, looker, session, client, reader, &mut writer)
    };
    context.gate.ends(session);
    Served {
        job: Job {
            session,
            client,
            kind,
            until,
            reader,
            writer,
            pipeline,
        },
        end,
    }
}

impl<'a, C: Serving> ServiceContext<'a, C> {
    /// Serves jobs until no more come, each with all that the looker learned from those before. A fault ends its own session
    /// alone. Passes each job to `after` once its session has ended. Returns how many it served, as far as 64 bits count them.
    fn serve_jobs<
        R: Read + Drop,
        W: Write + Drop,
        I: Iterator<Item = Job<R, W>>,
        F: FnMut(Served<R, W>),
    >(&self, looker: &mut Looker, jobs: I, mut after: F) -> u64
        requires of { (looker.old.known.book ≡ C.Brand.book) × (looker.old.known.base ≡ C.Brand.base) }
        requires can { I.can_next jobs }
        requires ends { IsFinite (I.remaining jobs) }
        requires callable { F.IsAlwaysCallable after }
        ensures of { (looker.new.known.book ≡ C.Brand.book) × (looker.new.known.base ≡ C.Brand.base) }
        ensures grows { Begins looker.old.known looker.new.known }
        ensures served { ServesCounted I.next_gives R.remaining W.contents
            (λ to left later. F.step to left tt later) jobs looker.old.known after looker.new.known result }
    {
        let mut served: u64 = 0;
        for mut job in jobs {
            served = served.saturating_add(1);
            match job.kind {
                SessionKind::InTurn => {
                    let end = serve_job(self, looker, &mut job);
                    after(Served { job, end });
                }
                SessionKind::Together => after(serve_together(self, looker, job)),
            }
        }
        served
    }

    /// Serves jobs until no more come, with a looker that then leaves.
    fn work_with<
        R: Read + Drop,
        W: Write + Drop,
        I: Iterator<Item = Job<R, W>>,
        F: FnMut(Served<R, W>),
    >(&self, mut looker: Looker, jobs: I, after: F) -> Shift<C::Brand>
        requires of { (looker.known.book ≡ C.Brand.book) × (looker.known.base ≡ C.Brand.base) }
        requires can { I.can_next jobs }
        requires ends { IsFinite (I.remaining jobs) }
        requires callable { F.IsAlwaysCallable after }
        ensures served { ServesCounted I.next_gives R.remaining W.contents
            (λ to left later. F.step to left tt later) jobs looker.known after result.known result.served }
    {
        let served = self.serve_jobs(&mut looker, jobs, after);
        Shift::new(looker.leave(self.rt, self.service), served)
    }

    /// Serves jobs until no more come, with a looker of its own, which then leaves. Passes each job to `after` once its session
    /// has ended. The shift has the list that the looker knew at the end, and the number of the jobs.
    ///
    /// # Errors
    ///
    /// `Full` if the service has no looker left; no job is taken then.
    pub fn work<
        R: Read + Drop,
        W: Write + Drop,
        I: Iterator<Item = Job<R, W>>,
        F: FnMut(Served<R, W>),
    >(&self, jobs: I, after: F) -> Result<Shift<C::Brand>, Refusal>
        requires can { I.can_next jobs }
        requires ends { IsFinite (I.remaining jobs) }
        requires callable { F.IsAlwaysCallable after }
        ensures served { IfOk result (λ left.
            (known : Line) × (known.book ≡ C.Brand.book) × (known.base ≡ C.Brand.base)
            × ServesAll I.next_gives R.remaining W.contents (λ to left later. F.step to left tt later) jobs known after left.known) }
        ensures counted { IfOk result (λ left. (served : List (Job R W)) × Drains I.next_gives jobs served × (left.served ≡ min (length served) (2 ^ 64 - 1))) }
        ensures reason { IfErr result (λ reason. reason ≡ Refusal.Full) }
    {
        let looker = match self.service.looker(self.rt) {
            Ok(looker) => looker,
            Err(reason) => return Err(reason),
        };
        Ok(self.work_with(looker, jobs, after))
    }
}
