//! Publishers and services, for connections and handles of any kind. A call that refuses for memory has changed
//! nothing, and is made again.
ghost use Rattle.std.specs.Prelude.{◌≡◌, IfOk, IsSome};
ghost use Rattle.prt_command.specs.Storable.{IsStorable};
ghost use Rattle.prt_publisher.specs.Standing.{IsQuiet};
ghost use Rattle.prt_service.specs.Named.{IsNamed};

use prt_command::{Addr, Command, Dev, Packet, Refusal, Request, read_line};
use prt_grace::Domain;
use prt_publisher::{Phase, Publisher, Receipt};
use prt_service::{Looker, Service, ServiceBrand};
use sqlite::{Alter, Connection};
use std::alloc::Global;
use std::sync::Wait;
use std::time::Clock;

/// A publisher over the database of a connection, and its domain.
pub(crate) fn adopted<S: Alter + Drop>(
    alloc: Global,
    connection: Connection<S>,
) -> Result<(Publisher<S>, Domain), Refusal>
    ensures { IfOk result (λ made. made.0.phase ≡ Phase.Ready) }
{
    match Publisher::adopt(alloc, connection) {
        Ok(made) => Ok(made),
        Err((reason, _)) => Err(reason),
    }
}

/// Makes a service of the named front over a publisher.
///
/// # Errors
///
/// `NoMemory`. The publisher is gone then.
pub(crate) fn service_over<J: ServiceBrand, S: Alter + Drop, H: Wait>(
    rt: &H,
    mut publisher: Publisher<S>,
    domain: Domain,
) -> Result<Service<S, J>, Refusal>
    requires quiet { IsQuiet publisher.phase }
    requires of { IsNamed J.book J.base J.ours_first publisher }
{
    let alloc = *publisher.published().shared_rules().allocator();
    let seats = match publisher.seats(rt, alloc) {
        Ok(seats) => seats,
        Err(reason) => return Err(reason),
    };
    Ok(Service::new(publisher, seats, domain))
}

/// The command that a line asks for.
pub(crate) fn command_of(line: &str) -> Result<Command, Refusal>
    ensures { IfOk result (λ command. IsStorable command) }
{
    match read_line(line.as_bytes())? {
        Some(Request::Command(command)) => Ok(command),
        _ => Err(Refusal::UnknownVerb),
    }
}

/// Submits a command, and once more if memory was refused.
pub(crate) fn submit<S: Alter + Drop, J: ServiceBrand, H: Wait + Clock>(
    rt: &H,
    service: &Service<S, J>,
    command: &Command,
) -> Result<Receipt, Refusal>
    requires { IsStorable command.now }
    ensures { IfOk result (λ receipt. receipt.book ≡ J.book) }
{
    match service.submit(rt, command) {
        Err(Refusal::NoMemory) => service.submit(rt, command),
        other => other,
    }
}

/// Refreshes a looker, and once more if nothing was fetched, and returns the number of the version that it looks with.
pub(crate) fn look<S: Alter + Drop, J: ServiceBrand, H: Wait>(
    rt: &H,
    service: &Service<S, J>,
    looker: &mut Looker,
) -> Result<u64, Refusal>
    requires { (looker.old.known.book ≡ J.book) × (looker.old.known.base ≡ J.base) }
    ensures same { (looker.new.known.book ≡ looker.old.known.book) × (looker.new.known.base ≡ looker.old.known.base) }
    ensures online { IfOk result (λ number. IsSome looker.new.held) }
{
    let refreshed = match looker.refresh(rt, service) {
        Err(Refusal::NotFetched) => looker.refresh(rt, service),
        other => other,
    };
    match refreshed {
        Ok(()) => Ok(looker.look(&packet()).number),
        Err(reason) => Err(reason),
    }
}

/// A packet to 10.1.2.3.
pub(crate) fn packet() -> Packet {
    Packet {
        dst: Addr(0x0a01_0203),
        src: Addr(0),
        iif: Dev::loopback(),
        mark: 0,
    }
}
