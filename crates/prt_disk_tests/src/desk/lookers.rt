//! A looker beside commands over files of which one call fails.
ghost use Rattle.std.specs.Prelude.{◌≡◌, IfOk};
ghost use Rattle.prt_command.specs.Storable.{IsStorable};
ghost use Rattle.prt_publisher.specs.Standing.{IsQuiet};
ghost use Rattle.prt_service.specs.Named.{IsNamed};

use super::disks::{Faults, OPTIONS, new_files};
use super::each_call::{most_calls, place_of};
use super::world::COMMANDS;
use prt_command::{Addr, Command, Dev, Packet, Refusal, Request, read_line};
use prt_grace::Domain;
use prt_listing::answer_text;
use prt_publisher::{Phase, Publisher};
use prt_service::{Service, ServiceBrand};
use sqlite::{Alter, Connection, FileStore, Files};
use sqlite_disk::Disk;
use std::alloc::Global;
use std::marker::Brand;
use std::sync::Wait;
use std::test::Fail;
use std::time::Clock;

/// What becomes of a packet to 10.1.2.3 after so many of the five commands.
const ANSWERS: [&str; 6] = [
    "answer 0 none",
    "answer 1 rule 32766 table main 10.0.0.0/8 via 192.0.2.1",
    "answer 2 rule 32766 table main blackhole 10.0.0.0/8",
    "answer 3 rule 32766 table main blackhole 10.0.0.0/8",
    "answer 4 rule 32766 table main blackhole 10.0.0.0/8",
    "answer 5 none",
];

/// What came of the five commands beside a looker.
#[derive(Drop)]
struct Seen {
    /// How many commands were acknowledged, and why the one after them was refused.
    acknowledged: usize,
    refused: Option<Refusal>,
    /// Why a further one was refused after that.
    further: Option<Refusal>,
    /// What the looker then answers, once it has refreshed.
    answer: Vec<u8>,
}

impl Seen {
    /// Checks whether the looker answers from the published version, and a failed commit closed the service.
    fn is_as_promised(&self) -> bool {
        let is_published = place_of(&ANSWERS, self.answer.as_slice()) == Some(self.acknowledged);
        let has_ended = match self.refused {
            None => self.acknowledged == COMMANDS.len(),
            Some(Refusal::StoreFailed(_)) => self.further == Some(Refusal::Closed),
            Some(_) => false,
        };
        is_published && has_ended
    }
}

/// Reads the command of a line.
fn command_of(line: &str) -> Result<Command, Refusal>
    ensures { IfOk result IsStorable }
{
    match read_line(line.as_bytes())? {
        Some(Request::Command(command)) => Ok(command),
        Some(Request::Query(_)) | None => Err(Refusal::UnknownVerb),
    }
}

/// Makes a publisher over the database of a connection, and its domain.
fn adopted<S: Alter + Drop>(
    alloc: Global,
    connection: Connection<S>,
) -> Result<(Publisher<S>, Domain), Refusal>
    ensures { IfOk result (λ made. made.0.phase ≡ Phase.Ready) }
{
    match Publisher::adopt(alloc, connection) {
        Ok(made) => Ok(made),
        Err((reason, _)) => Err(reason),
    }
}

/// Submits a command, and returns why it was refused, if it was.
fn refusal_of<S: Alter + Drop, J: ServiceBrand, H: Wait + Clock>(
    rt: &H,
    service: &Service<S, J>,
    command: &Command,
) -> Option<Refusal>
    requires { IsStorable command.now }
{
    match service.submit(rt, command) {
        Ok(_) => None,
        Err(reason) => Some(reason),
    }
}

/// Submits the five commands until one is refused. Returns how many were acknowledged, and why that one was refused.
fn submit_until_refused<S: Alter + Drop, J: ServiceBrand, H: Wait + Clock>(
    rt: &H,
    service: &Service<S, J>,
) -> Result<(usize, Option<Refusal>), Refusal> {
    for (place, line) in COMMANDS.iter().enumerate() {
        let command = command_of(line)?;
        let refused = refusal_of(rt, service, &command);
        if refused.is_some() {
            return Ok((place, refused));
        }
    }
    Ok((COMMANDS.len(), None))
}

/// Submits the five commands beside a looker, and a further one if one of them is refused. Then the looker refreshes and
/// looks.
fn look_beside<S: Alter + Drop, J: ServiceBrand, H: Wait + Clock>(
    rt: &H,
    alloc: Global,
    service: &Service<S, J>,
) -> Result<Seen, Refusal> {
    let mut looker = service.looker(rt)?;
    looker.refresh(rt, service)?;
    let (acknowledged, refused) = submit_until_refused(rt, service)?;
    let further = match refused {
        Some(_) => refusal_of(rt, service, &Command::RuleFlush),
        None => None,
    };
    looker.refresh(rt, service)?;
    let packet = Packet {
        dst: Addr(0x0a01_0203),
        src: Addr(0),
        iif: Dev::loopback(),
        mark: 0,
    };
    let mut answer = Vec::new(alloc);
    answer_text(&mut answer, &looker.look(&packet))?;
    looker.leave(rt, service);
    Ok(Seen {
        acknowledged,
        refused,
        further,
        answer,
    })
}

/// Looks beside a service of the named front.
fn serve<J: ServiceBrand, S: Alter + Drop, H: Wait + Clock + Copy + Drop>(
    rt: H,
    alloc: Global,
    mut publisher: Publisher<S>,
    domain: Domain,
) -> Result<Seen, Refusal>
    requires quiet { IsQuiet publisher.phase }
    requires of { IsNamed J.book J.base J.ours_first publisher }
{
    let seats = match publisher.seats(&rt, alloc) {
        Ok(seats) => seats,
        Err(reason) => return Err(reason),
    };
    let service: Service<S, J> = Service::new(publisher, seats, domain);
    look_beside(&rt, alloc, &service)
}

/// Looks beside a service over the database of a connection.
fn serve_connection<S: Alter + Drop, H: Wait + Clock + Copy + Drop>(
    rt: H,
    alloc: Global,
    connection: Connection<S>,
) -> Result<Seen, Refusal> {
    let (publisher, domain) = adopted(alloc, connection)?;
    serve::<Brand, S, H>(rt, alloc, publisher, domain)
}

/// Looks beside a service over the database of these files. For files of whatever kind, so that the proof knows nothing of
/// them.
fn serve_in<V: Disk + Drop, H: Wait + Clock + Copy + Drop>(
    rt: H,
    alloc: Global,
    files: Files<V>,
) -> Result<Seen, Refusal> {
    if !files.may_be_used() {
        return Err(Refusal::OpenFailed);
    }
    match Connection::open_files(alloc, files, OPTIONS) {
        Ok(connection) => serve_connection::<FileStore<V>, H>(rt, alloc, connection),
        Err(_) => Err(Refusal::OpenFailed),
    }
}

/// Looks beside a service over new files with these faults. Checks whether they can't be opened or all is as promised, and
/// whether a commit failed.
fn looks_with<H: Wait + Clock + Copy + Drop>(rt: H, alloc: Global, faults: Faults) -> (bool, bool) {
    match serve_in(rt, alloc, new_files(alloc, faults)) {
        Ok(seen) => (seen.is_as_promised(), seen.refused.is_some()),
        Err(reason) => (reason == Refusal::OpenFailed, false),
    }
}

#[test]
fn looks_after_each_failed_commit(rt: HostRuntime) -> Result<(), Fail> {
    let alloc = rt.alloc();
    let mut has_failed = false;
    for calls in 0..=most_calls(rt, alloc) {
        let of_log = Faults {
            log_failure: calls,
            ..Faults::NONE
        };
        let (is_right, did_fail) = looks_with(rt, alloc, of_log);
        assert!(rt; is_right, "the log, after {calls}");
        has_failed = has_failed || did_fail;
        let of_db = Faults {
            db_failure: calls,
            ..Faults::NONE
        };
        assert!(rt; looks_with(rt, alloc, of_db).0, "the file, after {calls}");
    }
    assert!(rt; has_failed);
    Ok(())
}
