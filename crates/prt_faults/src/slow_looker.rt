//! A looker that refreshes once, and then not until commands are refused for it; and more lookers than there are places.
//!
//! What is written, as a line `ok N`, is the number of each version that the looker looks with, that of the last
//! receipt, and how many lookers there were; and why the call after it was refused.
ghost use Rattle.std.specs.Prelude.{◌≡◌};
ghost use Rattle.prt_publisher.specs.Standing.{IsQuiet};
ghost use Rattle.prt_service.specs.Named.{IsNamed};

use crate::output::{tell, tell_number};
use crate::service::{adopted, command_of, look, packet, service_over, submit};
use prt_command::Refusal;
use prt_grace::Domain;
use prt_publisher::Publisher;
use prt_service::{Looker, Service, ServiceBrand};
use prt_session::Reply;
use sqlite::{Alter, Connection};
use std::alloc::Global;
use std::io::{self, Write};
use std::marker::Brand;
use std::sync::Wait;
use std::time::{Clock, Duration};

/// A handle whose clock doesn't sleep: a command that waits for room tries again at once.
#[derive(Clone, Copy, Drop)]
struct Hasty<H: Wait + Clock + Copy + Drop> {
    rt: H,
}

impl<H: Wait + Clock + Copy + Drop> Wait for Hasty<H> {}

impl<H: Wait + Clock + Copy + Drop> Clock for Hasty<H> {
    fn monotonic(&self) -> io::Result<Duration> {
        self.rt.monotonic()
    }

    fn since_1970(&self) -> io::Result<Duration> {
        self.rt.since_1970()
    }

    // Leaves `sleep` out, which returns at once.
}

/// What calls a service.
#[derive(Drop)]
struct Caller<'r, 's, S: Alter + Drop, J: ServiceBrand, H> {
    rt: &'r H,
    service: &'s Service<S, J>,
}

impl<'r, 's, S: Alter + Drop, J: ServiceBrand, H: Wait + Clock> Caller<'r, 's, S, J, H> {
    /// Submits the command after so many: a route is added and removed in turn. Returns the number of its receipt.
    fn submit_next(&self, accepted: u64) -> Result<u64, Refusal> {
        let line = if accepted % 2 == 0 {
            "route add 10.0.0.1 dev eth0"
        } else {
            "route del 10.0.0.1"
        };
        let command = command_of(line)?;
        match submit(self.rt, self.service, &command) {
            Ok(receipt) => Ok(receipt.number()),
            Err(reason) => Err(reason),
        }
    }

    /// Submits commands after so many until one is refused, or the last of them was accepted. Writes the number of the
    /// last receipt, and why the next command was refused. Returns that number.
    ///
    /// # Errors
    ///
    /// Why a command was refused, other than `Busy`.
    fn submit_until<W: Write>(
        &self,
        accepted: u64,
        last: u64,
        output: &mut W,
    ) -> Result<u64, Refusal> {
        let mut number = accepted;
        let mut refused = None;
        for before in accepted..last {
            match self.submit_next(before) {
                Ok(next) => number = next,
                Err(reason) => {
                    refused = Some(reason);
                    break;
                }
            }
        }
        tell_number(output, number)?;
        match refused {
            None => Ok(number),
            Some(reason) => {
                tell(output, &Reply::Refused(reason))?;
                if reason == Refusal::Busy {
                    Ok(number)
                } else {
                    Err(reason)
                }
            }
        }
    }

    /// Submits commands beside a looker that refreshes at first, and then when a command was refused; rests it, and
    /// submits further ones.
    fn submit_beside<W: Write>(&self, looker: &mut Looker, output: &mut W) -> Result<(), Refusal>
        requires { (looker.old.known.book ≡ J.book) × (looker.old.known.base ≡ J.base) }
        ensures { (looker.new.known.book ≡ looker.old.known.book) × (looker.new.known.base ≡ looker.old.known.base) }
    {
        tell_number(output, look(self.rt, self.service, looker)?)?;
        let missed = self.submit_until(0, 100, output)?;
        if looker.is_online() {
            tell_number(output, looker.look(&packet()).number)?;
        }
        tell_number(output, look(self.rt, self.service, looker)?)?;
        let next = self.submit_until(missed, missed.saturating_add(1), output)?;
        looker.rest(self.rt, self.service);
        let _last = self.submit_until(next, next.saturating_add(65), output)?;
        Ok(())
    }

    /// Makes lookers until one is refused, or so many are there. Then all of them leave. Returns how many there were.
    fn gather(&self, most: u64) -> u64 {
        if most == 0 {
            return 0;
        }
        match self.service.looker(self.rt) {
            Ok(looker) => {
                let others = self.gather(most - 1);
                looker.leave(self.rt, self.service);
                others.saturating_add(1)
            }
            Err(_) => 0,
        }
    }

    /// Goes on if the publisher was closed: a further command is refused, and the looker has the published version.
    fn go_on_closed<W: Write>(&self, looker: &mut Looker, output: &mut W) -> Result<(), Refusal>
        requires { (looker.old.known.book ≡ J.book) × (looker.old.known.base ≡ J.base) }
    {
        if let Err(reason) = self.submit_next(0) {
            tell(output, &Reply::Refused(reason))?;
        }
        tell_number(output, look(self.rt, self.service, looker)?)
    }
}

/// Runs a service of the named front.
fn serve<J: ServiceBrand, S: Alter + Drop, H: Wait + Clock + Copy + Drop, W: Write>(
    rt: H,
    publisher: Publisher<S>,
    domain: Domain,
    output: &mut W,
) -> Result<(), Refusal>
    requires quiet { IsQuiet publisher.phase }
    requires of { IsNamed J.book J.base J.ours_first publisher }
{
    let service: Service<S, J> = service_over(&rt, publisher, domain)?;
    let mut looker = service.looker(&rt)?;
    let caller = Caller {
        rt: &rt,
        service: &service,
    };
    match caller.submit_beside(&mut looker, output) {
        Err(Refusal::StoreFailed(_) | Refusal::NotPublished) => {
            caller.go_on_closed(&mut looker, output)
        }
        Err(reason) => Err(reason),
        Ok(()) => {
            looker.leave(&rt, &service);
            tell_number(output, caller.gather(100))?;
            tell_number(output, caller.gather(100))
        }
    }
}

/// Runs a service over the database of a connection.
pub(crate) fn run<S: Alter + Drop, H: Wait + Clock + Copy + Drop, W: Write>(
    rt: H,
    alloc: Global,
    connection: Connection<S>,
    output: &mut W,
) -> Result<(), Refusal> {
    let rt = Hasty { rt };
    let (publisher, domain) = adopted(alloc, connection)?;
    serve::<Brand, S, Hasty<H>, W>(rt, publisher, domain, output)
}
