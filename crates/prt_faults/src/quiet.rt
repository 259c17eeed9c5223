//! The calls that take no memory: what they answer before the mark they answer after it, when none is granted.
ghost use Rattle.std.specs.Prelude.{◌≡◌, IfOk};
ghost use Rattle.prt_command.specs.Storable.{IsStorable};
ghost use Rattle.prt_publisher.specs.Standing.{IsQuiet};
ghost use Rattle.prt_service.specs.Named.{IsNamed};

use crate::output::{tell, tell_number};
use crate::registries::{domain_keeps, registry_keeps};
use crate::service::{adopted, command_of, look, service_over, submit};
use crate::versions::{finds_route, selects_route};
use crate::words::{are_lines_read, are_read};
use prt_command::{Command, Refusal};
use prt_grace::Domain;
use prt_publisher::{Phase, Publisher, Receipt, Seats};
use prt_service::{Looker, Service, ServiceBrand};
use prt_session::Reply;
use prt_store::{Stamp, Store};
use prt_version::Version;
use prt_version::owners::first_owner;
use sqlite::{Alter, Connection};
use std::alloc::Global;
use std::io::Write;
use std::marker::Brand;
use std::sync::{Arc, Wait};
use std::time::Clock;

/// After this text no memory is granted.
const MARK: &[u8; 20] = b"no memory from here\n";

/// The line that adds a route, and the one that removes it.
const LINES: [&str; 2] = ["route add 10/8 dev eth0", "route del 10/8"];

/// The opening version, and the one after a command that adds a route.
#[derive(Drop)]
struct Versions {
    first: Arc<Version>,
    second: Arc<Version>,
}

/// Checks whether words, lines, versions, tables, registries and domains answer.
fn answer<H: Wait>(rt: &H, versions: &Versions, remove: &Command) -> Result<bool, Refusal> {
    let (first, second) = (&versions.first, &versions.second);
    let are_made = are_read() && are_lines_read() && selects_route(second);
    let are_found = finds_route(second, remove);
    let are_kept = registry_keeps(first, second)? && domain_keeps(rt, first, second)?;
    Ok(are_made && are_found && are_kept)
}

/// Commits a command to a store whose tables encode this version.
fn commit_one<S: Alter + Drop>(
    store: &mut Store<S>,
    version: &Version,
    command: &Command,
) -> Result<Stamp, Refusal>
    requires { IsStorable command.now }
{
    let number = version.number() + 1;
    let change = version.check(command)?;
    store.commit(&change, number)
}

/// A store that has committed a command, the stamp of that, and the versions before and after.
fn committed<S: Alter + Drop>(
    alloc: Global,
    connection: Connection<S>,
) -> Result<(Store<S>, Stamp, Versions), Refusal> {
    let mut store = match Store::adopt(connection) {
        Ok(store) => store,
        Err((reason, _)) => return Err(reason),
    };
    let first = store.load(alloc)?;
    let stamp = commit_one(&mut store, &first, &command_of(LINES[0])?)?;
    let second = store.load(alloc)?;
    let versions = Versions {
        first: first_owner(alloc, first)?,
        second: first_owner(alloc, second)?,
    };
    Ok((store, stamp, versions))
}

/// Checks whether a looker that learns a receipt sees its command, holds the version, and goes.
fn sees_command<S: Alter + Drop, J: ServiceBrand, H: Wait>(
    rt: &H,
    service: &Service<S, J>,
    mut looker: Looker,
    receipt: Receipt,
) -> bool
    requires of { (looker.known.book ≡ J.book) × (looker.known.base ≡ J.base) }
    requires told { receipt.book ≡ looker.known.book }
{
    let number = receipt.number();
    looker.learn(receipt);
    let is_seen = look(rt, service, &mut looker) == Ok(number);
    let is_held = looker.is_online() && looker.version().number() == number;
    looker.rest(rt, service);
    let is_resting = !looker.is_online();
    looker.leave(rt, service);
    is_seen && is_held && is_resting
}

/// Checks whether a service is made of a publisher and its readers, provides a looker, and returns the connection.
fn is_served<J: ServiceBrand, S: Alter + Drop, H: Wait>(
    rt: &H,
    publisher: Publisher<S>,
    seats: Seats,
    domain: Domain,
) -> bool
    requires quiet { IsQuiet publisher.phase }
    requires of { IsNamed J.book J.base J.ours_first publisher }
    requires seats { (seats.book ≡ J.book) × (seats.base ≡ J.base) }
{
    let service: Service<S, J> = Service::new(publisher, seats, domain);
    let is_seen = match service.looker(rt) {
        Ok(mut looker) => {
            let is_seen = look(rt, &service, &mut looker) == Ok(0);
            looker.leave(rt, &service);
            is_seen
        }
        Err(_) => false,
    };
    drop(service.end(rt));
    is_seen
}

/// What is there to be ended after the mark: a publisher, a store and its stamp; and a publisher for a service.
#[derive(Drop)]
struct Ended<S: Alter + Drop> {
    publisher: Publisher<S>,
    store: Store<S>,
    stamp: Stamp,
}

/// Makes what is to be ended, and the versions before and after the command of its store.
fn made_to_end<S: Alter + Drop>(
    alloc: Global,
    first: Connection<S>,
    second: Connection<S>,
) -> Result<(Ended<S>, Versions), Refusal> {
    let (publisher, _domain) = adopted(alloc, first)?;
    let (store, stamp, versions) = committed(alloc, second)?;
    let ended = Ended {
        publisher,
        store,
        stamp,
    };
    Ok((ended, versions))
}

/// Checks whether a publisher and a store show what they have, and return their connections.
fn are_ended<S: Alter + Drop>(ended: Ended<S>) -> bool {
    let Ended {
        publisher,
        store,
        stamp,
    } = ended;
    let is_shown = matches!(publisher.phase(), Phase::Ready) && publisher.published().number() == 0;
    drop(publisher.release());
    drop(store.release());
    is_shown && stamp.number() == 1
}

/// Has a command accepted by a service, sets the mark, and checks whether its receipt is learned after it.
fn serve<J: ServiceBrand, S: Alter + Drop, H: Wait + Clock + Copy + Drop, W: Write>(
    rt: H,
    publisher: Publisher<S>,
    domain: Domain,
    versions: &Versions,
    output: &mut W,
) -> Result<bool, Refusal>
    requires quiet { IsQuiet publisher.phase }
    requires of { IsNamed J.book J.base J.ours_first publisher }
{
    let service: Service<S, J> = service_over(&rt, publisher, domain)?;
    let looker = service.looker(&rt)?;
    let (add, remove) = (command_of(LINES[0])?, command_of(LINES[1])?);
    let receipt = submit(&rt, &service, &add)?;
    if !answer(&rt, versions, &remove)? {
        return Ok(false);
    }
    if output.write_all(MARK).is_err() || output.flush().is_err() {
        return Err(Refusal::WriteFault);
    }
    let is_seen = sees_command(&rt, &service, looker, receipt);
    let is_refused = match submit(&rt, &service, &add) {
        Ok(_) => false,
        Err(reason) => reason == Refusal::Exists,
    };
    Ok(is_seen && is_refused && answer(&rt, versions, &remove)?)
}

/// The databases of a publisher and a store that are ended after the mark, of a service that is made after it, and of
/// one that is there before.
#[derive(Drop)]
pub(crate) struct Databases<S: Alter + Drop> {
    pub(crate) published: Connection<S>,
    pub(crate) stored: Connection<S>,
    pub(crate) spare: Connection<S>,
    pub(crate) served: Connection<S>,
}

/// Makes the calls before the mark and after it.
///
/// # Errors
///
/// Why a call was refused before the mark; `NoMemory` if one answered otherwise after it.
pub(crate) fn run<S: Alter + Drop, H: Wait + Clock + Copy + Drop, W: Write>(
    rt: H,
    alloc: Global,
    databases: Databases<S>,
    output: &mut W,
) -> Result<(), Refusal> {
    let Databases {
        published,
        stored,
        spare,
        served,
    } = databases;
    let (ended, versions) = made_to_end(alloc, published, stored)?;
    let (mut spare, spare_domain) = adopted(alloc, spare)?;
    let seats = match spare.seats(&rt, alloc) {
        Ok(seats) => seats,
        Err(reason) => return Err(reason),
    };
    let (publisher, domain) = adopted(alloc, served)?;
    let is_seen = serve::<Brand, S, H, W>(rt, publisher, domain, &versions, output)?;
    let is_made = is_served::<Brand, S, H>(&rt, spare, seats, spare_domain);
    tell_number(output, 1)?;
    tell(output, &Reply::Refused(Refusal::Exists))?;
    if is_seen && is_made && are_ended(ended) {
        Ok(())
    } else {
        Err(Refusal::NoMemory)
    }
}
