//! Serving what listeners accept, over a publisher.
ghost use Rattle.std.specs.Prelude.{◌≡◌, ◌≢◌, All, List, None, length, true, vec_len};
ghost use Rattle.prt_host.specs.Serving.{IsLeft, fault_of, further_of, is_failed, is_listeners, lacks_workers, looker_fault};
ghost use Rattle.prt_publisher.specs.Standing.{IsQuiet};
ghost use Rattle.prt_serve.specs.Kept.{Keeps, Work};
ghost use Rattle.prt_service.specs.Named.{IsNamed};

use crate::context::ServerContext;
use crate::counts::Counts;
use crate::listening::Listening;
use crate::reporting_gate::ReportingGate;
use prt_args::{Fault, ServeArgs};
use prt_grace::Domain;
use prt_machine::Host;
use prt_program::Refusal;
use prt_published::Known;
use prt_publisher::{Publisher, Seats};
use prt_serve::{Accepting, Limits, ServeEnd, ServiceContext, Shift, Worked, serve_listeners};
use prt_service::{Released, Service, ServiceBrand};
use sqlite::Connection;
use std::sync::Mutex;
use std::sync::atomic::AtomicBool;
use std::time::Duration;

/// Computes how long a client may send nothing or take nothing; 0 seconds are without end.
fn idle_of(seconds: u64) -> Option<Duration> {
    if seconds == 0 {
        None
    } else {
        Some(Duration::from_secs(seconds))
    }
}

/// Computes how much is to be served.
fn limits_of(asked: &ServeArgs<'_>) -> Limits
    ensures { result.workers ≡ asked.now.workers }
{
    Limits {
        workers: asked.workers as usize,
        sessions: asked.sessions,
        idle: idle_of(asked.idle),
    }
}

/// Serves what comes where it listens by a service, with a gate that reports why a commit failed, and why nothing is accepted.
fn serve_with_gate<H: Host, J: ServiceBrand + Send>(
    context: &ServerContext<'_, '_, '_, H>,
    service: &Service<H::Store, J>,
    listening: &Listening<H::Net>,
) -> Worked<J>
    ensures { result.end.accepting ≢ Accepting.Failed → result.end.refused ≡ None → vec_len result.shifts ≡ context.now.asked.now.workers }
{
    let gate = ReportingGate {
        rt: context.rt,
        alloc: context.alloc,
        service,
        files: context.files,
        path: context.asked.database,
        errors: context.errors,
        is_logged: context.asked.is_logged,
        counts: Counts::new(),
        is_failure_told: AtomicBool::new(false),
        accept_told: Mutex::new(None),
    };
    let sessions = ServiceContext::new(context.rt, context.alloc, service, &gate);
    serve_listeners(&sessions, &listening.listeners, limits_of(context.asked))
}

/// Checks whether the published list keeps all that the workers replied `ok` to.
fn are_kept<J: ServiceBrand>(published: &Known, shifts: &[Shift<J>]) -> bool
    requires { published.now.book ≡ J.book }
    ensures { result ≡ true → All (Keeps published.now) shifts.now }
{
    for shift in shifts {
        if !shift.is_kept_by(published) {
            return false;
        }
    }
    true
}

/// Makes the end of a server of which it isn't known whether all that was replied `ok` to is kept. No service ends so.
fn not_kept(end: ServeEnd) -> ServeEnd
    ensures { fault_of result ≢ None }
{
    ServeEnd {
        refused: Some(Refusal::NotPublished),
        ..end
    }
}

/// Runs a service of the named front for what comes where it listens, and ends it. Returns how that ended, and the connection.
///
/// At the end the list that each worker knew is compared with the published one: if it weren't a prefix, that is a fault.
pub(crate) fn run_service<H: Host, J: ServiceBrand + Send>(
    context: &ServerContext<'_, '_, '_, H>,
    publisher: Publisher<H::Store>,
    seats: Seats,
    domain: Domain,
    listening: &Listening<H::Net>,
) -> (ServeEnd, Connection<H::Store>)
    requires quiet { IsQuiet publisher.phase }
    requires of { IsNamed J.book J.base J.ours_first publisher }
    requires seats { (seats.book ≡ J.book) × (seats.base ≡ J.base) }
    ensures { (shifts : List Work) × IsLeft H.Store.Store J.book J.base J.ours_first shifts result.1
        × (fault_of result.0 ≡ None → length shifts ≡ context.now.asked.now.workers) }
{
    let service: Service<H::Store, J> = Service::new(publisher, seats, domain);
    let Worked { end, shifts } = serve_with_gate(context, &service, listening);
    let Released { conn, published } = service.end(context.rt);
    if are_kept(&published, shifts.as_slice()) {
        (end, conn)
    } else {
        (not_kept(end), conn)
    }
}

/// Returns whether accepting failed.
fn is_failed(accepting: Accepting) -> bool
    ensures { result ≡ is_failed accepting }
{
    match accepting {
        Accepting::Failed => true,
        Accepting::Ended | Accepting::NoWorkers => false,
    }
}

/// Checks whether no worker is left, though none was refused its looker.
fn lacks_workers(end: ServeEnd) -> bool
    ensures { result ≡ lacks_workers end.accepting end.refused }
{
    match (end.accepting, end.refused) {
        (Accepting::NoWorkers, None) => true,
        _ => false,
    }
}

/// Checks whether a listener is to blame: that of the sessions, or that of the feed.
fn is_listeners(end: ServeEnd) -> bool
    ensures { result ≡ is_listeners end }
{
    is_failed(end.accepting) || is_failed(end.feeding) || lacks_workers(end)
}

/// Returns the fault of a worker that was refused its looker.
fn looker_fault(refused: Option<Refusal>) -> Option<Fault>
    ensures { result ≡ looker_fault refused }
{
    match refused {
        Some(reason) => Some(Fault::Opening(reason)),
        None => None,
    }
}

/// Finds why not all that was asked for was served, and what failed besides.
pub(crate) fn faults_of(end: ServeEnd) -> (Option<Fault>, Option<Fault>)
    ensures first { result.0 ≡ fault_of end }
    ensures further { result.1 ≡ further_of end }
{
    let refused = looker_fault(end.refused);
    if is_listeners(end) {
        (Some(Fault::Listener), refused)
    } else {
        (refused, None)
    }
}
