//! Readers of one version at a time.
ghost use Rattle.std.specs.Prelude.{◌≡◌, ◌↔◌, None, Some, IfErr, IfSome, IsSome, IsTrue, MatchResult};
ghost use Rattle.std.specs.Arc.{arc_value};
ghost use Rattle.prt_published.specs.Line.{Begins, line_state};
ghost use Rattle.prt_service.specs.Look.{Look};
ghost use Rattle.prt_version.specs.Select.{select};

use crate::held::HeldVersion;
use crate::{Departure, Service, ServiceBrand};
use prt_grace::Place;
use prt_published::FrontReader;
use prt_publisher::Receipt;
use prt_version::{Answer, Packet, Refusal, Version};
use sqlite::Alter;
use std::marker::Model;
use std::mem;
use std::sync::{Arc, Wait};

/// Reads one published version at a time, while others are published. One thread has it.
///
/// Online it holds a version, and has announced its number: that version and each later one wait for it. Offline it
/// holds none, and nothing waits. One that is let go without `leave` keeps its place, its reader and what it announced.
#[derive(Drop)]
pub struct Looker {
    reader: FrontReader,
    place: Place,
    held: Option<HeldVersion>,
}

impl Model for Looker {
    ghost use Rattle.prt_service.specs.Look.{IsSteady, Look};

    ghost Value = { Look };

    ghost view = { λ l. record { known = l.reader; held = l.held; announced = l.place.announced } };

    ghost invariant = { λ l. IsSteady (record { known = l.reader; held = l.held; announced = l.place.announced }) };
}

/// Holds a version in place of the one before, which is released.
fn hold(held: &mut Option<HeldVersion>, next: HeldVersion)
    ensures { held.new ≡ Some next }
{
    drop(mem::replace(held, Some(next)));
}

impl Looker {
    pub(crate) fn new(reader: FrontReader, place: Place) -> Looker
        requires { place.announced ≡ None }
        ensures { result ≡ record { known = reader; held = None; announced = None } }
    {
        Looker {
            reader,
            place,
            held: None,
        }
    }

    /// Returns whether it holds a version.
    pub fn is_online(&self) -> bool
        ensures { IsTrue result ↔ IsSome self.now.held }
    {
        self.held.is_some()
    }

    /// Returns the version that it holds, until it refreshes or rests. It is online.
    pub fn version(&self) -> &Version
        requires { IsSome self.now.held }
        ensures { IfSome self.now.held (λ line. result.now ≡ line_state line) }
    {
        match &self.held {
            Some(held) => held.version(),
            None => unreachable!(),
        }
    }

    /// Finds what becomes of a packet by the version that it holds, and the number of that version. It is online. Takes
    /// no lock and no memory.
    pub fn look(&self, packet: &Packet) -> Answer
        requires { IsSome self.now.held }
        ensures number { IfSome self.now.held (λ line. result.number ≡ (line_state line).count) }
        ensures verdict { IfSome self.now.held (λ line. result.verdict ≡ select (line_state line) packet.now) }
    {
        self.version().select(packet)
    }

    /// Learns the list of a receipt: each version that it takes from then on has it. What it holds stays.
    pub fn learn(&mut self, receipt: Receipt)
        requires { receipt.book ≡ self.old.known.book }
        ensures mine { Begins self.old.known self.new.known }
        ensures told { Begins receipt self.new.known }
        ensures held { (self.new.held ≡ self.old.held) × (self.new.announced ≡ self.old.announced) }
    {
        self.reader.learn(receipt.told());
    }

    /// Takes the published version in place of the one that it holds, if any, and announces its number. Its list has all
    /// that was known. Takes no memory, and the domain's lock alone.
    ///
    /// # Errors
    ///
    /// `NotFetched` if the front can't be entered, its version has as many owners as can be counted, or the version is
    /// older than what the looker has announced. It then holds and has announced what it had, and may know more.
    pub fn refresh<S: Alter + Drop, J: ServiceBrand, H: Wait>(
        &mut self,
        rt: &H,
        service: &Service<S, J>,
    ) -> Result<(), Refusal>
        requires { (self.old.known.book ≡ J.book) × (self.old.known.base ≡ J.base) }
        ensures known { Begins self.old.known self.new.known }
        ensures held { MatchResult result (λ _. (self.new.held ≡ Some self.new.known) × (self.new.announced ≡ Some (line_state self.new.known).count))
            (λ _. (self.new.held ≡ self.old.held) × (self.new.announced ≡ self.old.announced)) }
        ensures reason { IfErr result (λ reason. reason ≡ Refusal.NotFetched) }
    {
        let domain = service.domain();
        let before = self.place.announced();
        let least = domain.online(rt, &mut self.place);
        if let Ok(version) = self.reader.fetch() {
            let number = version.number();
            if least <= number {
                // Releases the old version before it says so.
                hold(
                    &mut self.held,
                    HeldVersion::new(version, self.reader.known()),
                );
                domain.announce(rt, &mut self.place, number);
                return Ok(());
            }
        }
        if before.is_none() {
            domain.offline(rt, &mut self.place);
        }
        Err(Refusal::NotFetched)
    }

    /// Releases its version, and goes offline. What it knows stays.
    pub fn rest<S: Alter + Drop, J: ServiceBrand, H: Wait>(
        &mut self,
        rt: &H,
        service: &Service<S, J>,
    )
        requires { (self.old.known.book ≡ J.book) × (self.old.known.base ≡ J.base) }
        ensures { self.new ≡ record self.old { held = None; announced = None } }
    {
        drop(self.held.take());
        service.domain().offline(rt, &mut self.place);
    }

    /// Hands the version that it holds to the caller, and goes offline: however long the caller keeps the version, no
    /// publication waits for it. What it knows stays. It is online.
    pub fn keep<S: Alter + Drop, J: ServiceBrand, H: Wait>(
        &mut self,
        rt: &H,
        service: &Service<S, J>,
    ) -> Arc<Version>
        requires online { IsSome self.old.held }
        requires of { (self.old.known.book ≡ J.book) × (self.old.known.base ≡ J.base) }
        ensures version { IfSome self.old.held (λ line. arc_value result ≡ line_state line) }
        ensures looker { self.new ≡ record self.old { held = None; announced = None } }
    {
        let Some(held) = self.held.take() else {
            unreachable!();
        };
        let place = &mut self.place;
        service.domain().offline(rt, place);
        held.into_version()
    }

    /// Hands its version, then its reader, and then its place back to the service that it is of: a looker that gets the
    /// place finds a reader. The departure says so, with the list that it knew.
    pub fn leave<S: Alter + Drop, J: ServiceBrand, H: Wait>(
        self,
        rt: &H,
        service: &Service<S, J>,
    ) -> Departure
        requires { (self.known.book ≡ J.book) × (self.known.base ≡ J.base) }
        ensures { result ≡ self.known }
    {
        let Looker {
            reader,
            place,
            held,
        } = self;
        drop(held);
        let returned = service.take_back(rt, reader);
        service.domain().part(rt, place);
        Departure::new(returned)
    }
}
