//! The server: a database that is opened, served and closed.
ghost use Rattle.std.specs.Prelude.{◌≡◌, ◌≢◌, IfErr, IfSome, List, None, OnOk, Some, length};
ghost use Rattle.prt_host.specs.Serving.{IsFaultOfServing, IsLeft, IsNotServed, IsServedBy, fault_of};
ghost use Rattle.prt_args.specs.Faults.{fault_status};
ghost use Rattle.prt_args.specs.declared.fault.Fault.{Fault};
ghost use Rattle.prt_publisher.specs.Standing.{IsQuiet};
ghost use Rattle.prt_serve.specs.Kept.{Work};

use crate::context::ServerContext;
use crate::listening::{Listening, PlaceError, listen};
use crate::serving::{faults_of, run_service};
use crate::telling::tell_shared;
use prt_args::{DONE, FAULT, Fault, ServeArgs, report};
use prt_grace::Domain;
use prt_machine::{Cause, DatabaseFiles, DatabaseOpener, Host, Wanted, open_publisher};
use prt_program::{Refusal, cause_message, log_message};
use prt_publisher::Publisher;
use prt_serve::ServeEnd;
use sqlite::Connection;
use std::alloc::Global;
use std::fmt::Display;
use std::io::{self, Write};
use std::marker::Brand;
use std::sync::Mutex;

/// Why nothing is served, or no more.
#[derive(Drop)]
struct ServeError {
    fault: Fault,
    /// What failed besides.
    further: Option<Fault>,
    /// What is reported to a person of the cause, if one is known.
    message: Option<String>,
}

impl ServeError {
    /// Makes a fault with its cause, which befell what is at this place.
    fn new<P: Display, Q: Display>(
        alloc: Global,
        fault: Fault,
        place: &P,
        cause: Option<&Q>,
    ) -> ServeError
        ensures { result.fault ≡ fault }
    {
        let message = match cause {
            Some(cause) => cause_message(alloc, place, cause).ok(),
            None => None,
        };
        ServeError {
            fault,
            further: None,
            message,
        }
    }

    /// Makes that of a database at a path that was refused, with the cause if it is known.
    fn of_opening(alloc: Global, path: &str, refused: (Refusal, Option<Cause>)) -> ServeError
        ensures { result.fault ≡ Fault.Opening refused.0 }
    {
        let (refusal, cause) = refused;
        ServeError::new(alloc, Fault::Opening(refusal), &path, cause.as_ref())
    }

    /// Makes that of an end of serving, unless all that was asked for was served.
    fn of_end(end: ServeEnd) -> Option<ServeError>
        ensures fault { IfSome result (λ failure. fault_of end ≡ Some failure.fault) }
        ensures none { result ≡ None → fault_of end ≡ None }
    {
        let (fault, further) = faults_of(end);
        match fault {
            Some(fault) => Some(ServeError {
                fault,
                further,
                message: None,
            }),
            None => None,
        }
    }

    /// Reports it, and returns the exit status for it.
    fn report<W: Write, E: Write>(&self, output: &mut W, errors: &mut E) -> u8
        ensures { result ≡ fault_status self.now.fault }
    {
        let status = report(&self.fault, output, errors);
        if let Some(further) = &self.further {
            let _ = report(further, output, errors);
        }
        if let Some(message) = &self.message {
            let _ = errors.write_all(message.as_bytes());
        }
        status
    }
}

/// Takes the publisher's readers, and serves what comes there by a service over it. Returns why not all that was
/// asked for was served, and the connection.
fn take_seats_and_serve<H: Host>(
    context: &ServerContext<'_, '_, '_, H>,
    mut publisher: Publisher<H::Store>,
    domain: Domain,
    listening: &Listening<H::Net>,
) -> (Option<ServeError>, Connection<H::Store>)
    requires { IsQuiet publisher.phase }
    ensures fault { IfSome result.0 (λ failure. IsFaultOfServing failure.fault) }
    ensures left { (shifts : List Work) × IsLeft H.Store.Store publisher.line.book publisher.line.base publisher.ours_first shifts result.1
        × (result.0 ≡ None → length shifts ≡ context.now.asked.now.workers) }
{
    let (rt, alloc) = (context.rt, context.alloc);
    let seats = match publisher.seats(rt, alloc) {
        Ok(seats) => seats,
        Err(refusal) => {
            let opening = Fault::Opening(refusal);
            let failure = ServeError::new(
                alloc,
                opening,
                &context.asked.database,
                None::<&io::Error>,
            );
            return (Some(failure), publisher.end(rt));
        }
    };
    let (end, conn) = run_service::<H, Brand>(context, publisher, seats, domain, listening);
    (ServeError::of_end(end), conn)
}

/// Listens where it is asked for, and serves what comes over a publisher. Returns why not all that was asked for was served,
/// and the connection.
fn listen_and_serve<H: Host>(
    context: &ServerContext<'_, '_, '_, H>,
    publisher: Publisher<H::Store>,
    domain: Domain,
    output: &mut H::Output,
) -> (Option<ServeError>, Connection<H::Store>)
    requires { IsQuiet publisher.phase }
    ensures fault { IfSome result.0 (λ failure. IsFaultOfServing failure.fault) }
    ensures left { (shifts : List Work) × IsLeft H.Store.Store publisher.line.book publisher.line.base publisher.ours_first shifts result.1
        × (result.0 ≡ None → length shifts ≡ context.now.asked.now.workers) }
{
    let (rt, alloc) = (context.rt, context.alloc);
    let listening = match listen(rt, alloc, context.asked, output) {
        Ok(listening) => listening,
        Err(PlaceError { place, error }) => {
            let failure = ServeError::new(alloc, Fault::Listener, &place, Some(&error));
            return (Some(failure), publisher.end(rt));
        }
    };
    let served = take_seats_and_serve(context, publisher, domain, &listening);
    listening.remove_files(rt);
    served
}

/// Opens the database that is asked for, serves it, and closes it.
///
/// # Errors
///
/// The fault that ended it, with its cause if one is known. The database is closed then too.
fn open_and_serve<'x, H: Host>(
    databases: &mut DatabaseFiles<'_, H>,
    alloc: Global,
    asked: &'x ServeArgs<'_>,
    output: &mut H::Output,
    errors: &'x Mutex<H::Errors>,
) -> Result<(), ServeError>
    ensures ok { OnOk result
        (IsServedBy H.Store.Store H.Opener.DatabaseOpener asked.now.workers databases.old.opener databases.new.opener asked.now.database.now) }
    ensures err { IfErr result (λ failure.
        IsNotServed H.Store.Store H.Opener.DatabaseOpener databases.old.opener databases.new.opener asked.now.database.now failure.fault) }
{
    let rt = databases.rt;
    let opened = open_publisher(&mut databases.opener, alloc, asked.database, Wanted::Any);
    let (publisher, domain) = match opened {
        Ok(made) => made,
        Err(refused) => return Err(ServeError::of_opening(alloc, asked.database, refused)),
    };
    let context: ServerContext<'_, '_, '_, H> = ServerContext {
        rt: &rt,
        alloc,
        files: databases.files,
        asked: &*asked,
        errors: &*errors,
    };
    let (failure, conn) = listen_and_serve(&context, publisher, domain, output);
    if let Err(reason) = databases.opener.close(conn) {
        tell_shared(&rt, log_message(alloc, asked.database, &reason), errors);
    }
    match failure {
        Some(failure) => Err(failure),
        None => Ok(()),
    }
}

/// Serves the database that is asked for, and returns the exit status. Listens once the database is open.
///
/// The status is 0 if as many sessions as were asked for have ended, and 3 for a fault: of opening, of the listener and
/// what brings its connections to the workers, or of a worker that got no looker. The database is closed at the end.
///
/// With status 0 the list that was published at the end has each command that a worker replied `ok N` to, at the number N,
/// and the tables that are left stand for it.
pub(crate) fn serve<H: Host>(
    databases: &mut DatabaseFiles<'_, H>,
    alloc: Global,
    asked: &ServeArgs<'_>,
    output: &mut H::Output,
    errors: H::Errors,
) -> u8
    ensures done { result ≡ DONE →
        IsServedBy H.Store.Store H.Opener.DatabaseOpener asked.now.workers databases.old.opener databases.new.opener asked.now.database.now }
    ensures fault { result ≢ DONE → result ≡ FAULT }
    ensures why { result ≢ DONE → (fault : Fault)
        × IsNotServed H.Store.Store H.Opener.DatabaseOpener databases.old.opener databases.new.opener asked.now.database.now fault }
{
    let errors = Mutex::new(errors);
    let served = open_and_serve(databases, alloc, asked, output, &errors);
    let mut errors = errors.into_inner();
    match served {
        Ok(()) => DONE,
        Err(failure) => failure.report(output, &mut errors),
    }
}
