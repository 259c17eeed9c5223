//! Readers that no looker has.
ghost use Rattle.std.specs.Prelude.{◌≡◌, IfSome, MatchBool};
ghost use Rattle.prt_published.specs.Line.{Begins};
ghost use Rattle.prt_version.specs.Accepted.{IsAccepted};

use crate::ServiceBrand;
use prt_published::{FrontReader, Known};
use prt_publisher::Seats;
use std::marker::{Model, PhantomData};

/// Says that a reader was returned. [`SpareReaders::take_back`] alone makes one. Contracts see it as the list that the
/// reader knew.
#[derive(Drop)]
pub(crate) struct Returned {
    known: Known,
}

impl Model for Returned {
    ghost use Rattle.prt_published.specs.Line.{Line};

    ghost Value = { Line };

    ghost view = { λ returned. returned.known };
}

impl Returned {
    /// Checks whether its list is a prefix of the other. Otherwise the other is a prefix of it.
    pub(crate) fn is_before(&self, other: &Known) -> bool
        requires { self.now.book ≡ other.now.book }
        ensures { MatchBool result (Begins self.now other.now) (Begins other.now self.now) }
    {
        self.known.is_before(other)
    }
}

/// Readers of the named front that no looker has.
#[derive(Drop)]
pub(crate) struct SpareReaders<J: ServiceBrand> {
    seats: Seats,
    of: PhantomData<J>,
}

impl<J: ServiceBrand> Model for SpareReaders<J> {
    ghost use Rattle.std.specs.Prelude.{◌≡◌};
    ghost use Rattle.prt_published.specs.Line.{Line};

    ghost Value = { Line };

    ghost view = { λ s. s.seats };

    ghost invariant = { λ s. (s.seats.book ≡ J.book) × (s.seats.base ≡ J.base) };
}

impl<J: ServiceBrand> SpareReaders<J> {
    pub(crate) fn new(seats: Seats) -> SpareReaders<J>
        requires { (seats.book ≡ J.book) × (seats.base ≡ J.base) }
        ensures { result ≡ seats }
    {
        SpareReaders {
            seats,
            of: PhantomData,
        }
    }

    /// Lends one of them. `None` if none is left.
    pub(crate) fn lend(&mut self) -> Option<FrontReader>
        ensures same { self.new ≡ self.old }
        ensures of { IfSome result (λ reader. (reader.book ≡ J.book) × (reader.base ≡ J.base)) }
    {
        self.seats.take()
    }

    /// Takes one of them back.
    pub(crate) fn take_back(&mut self, reader: FrontReader) -> Returned
        requires { (reader.book ≡ J.book) × (reader.base ≡ J.base) }
        ensures same { self.new ≡ self.old }
        ensures known { result ≡ reader }
    {
        let known = reader.known();
        self.seats.give(reader);
        Returned { known }
    }
}
