//! Calls of a publisher and of a service, for connections and handles of any kind.
ghost use Rattle.std.specs.Prelude.{◌≡◌, IfOk, OnOk};
ghost use Rattle.prt_command.specs.Storable.{IsStorable};
ghost use Rattle.prt_publisher.specs.Standing.{IsQuiet};
ghost use Rattle.prt_service.specs.Named.{IsNamed};

use prt_addr::addr_text;
use prt_command::{Addr, Command, Dev, Packet, Refusal, Request, read_line};
use prt_grace::Domain;
use prt_publisher::{Phase, Publisher};
use prt_service::{Service, ServiceBrand};
use sqlite::{Alter, Connection};
use std::alloc::Global;
use std::sync::Wait;
use std::time::Clock;

/// Makes a publisher over the database of a connection, and its domain.
pub fn adopted<S: Alter + Drop>(
    alloc: Global,
    connection: Connection<S>,
) -> Result<(Publisher<S>, Domain), Refusal>
    ensures { IfOk result (λ made. made.0.phase ≡ Phase.Ready) }
{
    match Publisher::adopt(alloc, connection) {
        Ok(made) => Ok(made),
        Err((reason, _)) => Err(reason),
    }
}

/// Makes a service of the named front over a publisher.
///
/// # Errors
///
/// `NoMemory`.
pub fn service_over<J: ServiceBrand, S: Alter + Drop, H: Wait>(
    rt: &H,
    mut publisher: Publisher<S>,
    domain: Domain,
) -> Result<Service<S, J>, Refusal>
    requires quiet { IsQuiet publisher.phase }
    requires of { IsNamed J.book J.base J.ours_first publisher }
{
    let alloc = *publisher.published().shared_rules().allocator();
    let seats = match publisher.seats(rt, alloc) {
        Ok(seats) => seats,
        Err(reason) => return Err(reason),
    };
    Ok(Service::new(publisher, seats, domain))
}

/// Reads the number of the state that is stored in the database of a connection, and returns the connection too.
pub fn stored_number<S: Alter + Drop>(
    alloc: Global,
    connection: Connection<S>,
) -> Result<(u64, Connection<S>), Refusal> {
    let (publisher, _domain) = adopted(alloc, connection)?;
    Ok((publisher.published().number(), publisher.release()))
}

/// Builds the command of `route add 10.0.0.N/32 dev eth0`.
pub fn host_route(alloc: Global, host: u8) -> Result<Command, Refusal>
    ensures { IfOk result IsStorable }
{
    let mut line = Vec::new(alloc);
    line.extend_from_slice(b"route add ")?;
    line.extend_from_slice(addr_text(Addr(0x0a00_0000 | host as u32)).as_bytes())?;
    line.extend_from_slice(b"/32 dev eth0")?;
    match read_line(line.as_slice())? {
        Some(Request::Command(command)) => Ok(command),
        Some(Request::Query(_)) | None => Err(Refusal::UnknownVerb),
    }
}

/// Submits a flush of the rules to a publisher, which is always accepted, and returns the number of its receipt.
pub fn submit_to_publisher<S: Alter + Drop, H: Wait>(
    rt: &H,
    publisher: &mut Publisher<S>,
    domain: &Domain,
) -> Result<u64, Refusal>
    requires { IsQuiet publisher.old.phase }
    ensures quiet { IsQuiet publisher.new.phase }
    ensures ready { OnOk result (publisher.new.phase ≡ Phase.Ready) }
{
    match publisher.submit(rt, domain, &Command::RuleFlush) {
        Ok(receipt) => Ok(receipt.number()),
        Err(reason) => Err(reason),
    }
}

/// Submits two flushes of the rules together to a publisher, and returns the number of their receipt.
pub fn submit_two_together<S: Alter + Drop, H: Wait>(
    rt: &H,
    alloc: Global,
    publisher: &mut Publisher<S>,
    domain: &Domain,
) -> Result<u64, Refusal>
    requires { IsQuiet publisher.old.phase }
{
    let commands = Vec::from_slice(alloc, &[Command::RuleFlush, Command::RuleFlush])?;
    match publisher.submit_all(rt, domain, commands.as_slice()) {
        Ok(receipt) => Ok(receipt.number()),
        Err(reason) => Err(reason),
    }
}

/// Prepares a flush of the rules.
pub fn prepare_one<S: Alter + Drop, H: Wait>(
    rt: &H,
    publisher: &mut Publisher<S>,
    domain: &Domain,
) -> Result<(), Refusal>
    requires { IsQuiet publisher.old.phase }
    ensures { OnOk result (publisher.new.phase ≡ Phase.Prepared) }
{
    publisher.prepare(rt, domain, &Command::RuleFlush)
}

/// Submits a flush of the rules to a service, which is always accepted, and returns the number of its receipt.
pub fn submit_to_service<S: Alter + Drop, J: ServiceBrand, H: Wait + Clock>(
    rt: &H,
    service: &Service<S, J>,
) -> Result<u64, Refusal> {
    match service.submit(rt, &Command::RuleFlush) {
        Ok(receipt) => Ok(receipt.number()),
        Err(reason) => Err(reason),
    }
}

/// Makes a packet to 10.1.0.0.
pub fn packet() -> Packet {
    Packet {
        dst: Addr(0x0a01_0000),
        src: Addr(0),
        iif: Dev::loopback(),
        mark: 0,
    }
}
