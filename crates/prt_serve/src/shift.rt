//! What a worker did.
ghost use Rattle.std.specs.Prelude.{◌≡◌, false, true};
ghost use Rattle.prt_published.specs.Line.{Begins};
ghost use Rattle.prt_serve.specs.Kept.{Keeps};

use prt_published::Known;
use prt_service::{Departure, ServiceBrand};
use std::marker::{Model, PhantomData};

/// What a worker of the named front did until no more jobs came: its looker has left, and its sessions are counted. [`work`]
/// alone makes one.
///
/// Contracts see it as the list that the looker knew, and the number of sessions. What these were is in no memory; that
/// there were that many, and that the list has each command which was replied `ok N` in them, is part of the value.
///
/// [`work`]: crate::ServiceContext::work
#[derive(Drop)]
pub struct Shift<J: ServiceBrand> {
    departure: Departure,
    served: u64,
    of: PhantomData<J>,
}

impl<J: ServiceBrand> Model for Shift<J> {
    ghost use Rattle.std.specs.Prelude.{◌≡◌};
    ghost use Rattle.prt_serve.specs.Kept.{Keeps, Work};

    ghost Value = { Work };

    ghost view = { λ s. record { known = s.departure; served = s.served } };

    ghost invariant = { λ s. (s.departure.book ≡ J.book) × (s.departure.base ≡ J.base)
        × Keeps s.departure (record { known = s.departure; served = s.served }) };
}

impl<J: ServiceBrand> Shift<J> {
    /// Makes that of a worker whose looker left so, after this many sessions.
    pub(crate) fn new(departure: Departure, served: u64) -> Shift<J>
        requires of { (departure.book ≡ J.book) × (departure.base ≡ J.base) }
        requires keeps { Keeps departure (record { known = departure; served = served }) }
        ensures { result ≡ record { known = departure; served = served } }
    {
        Shift {
            departure,
            served,
            of: PhantomData,
        }
    }

    /// Returns how many sessions it has, as far as 64 bits count them.
    pub fn served(&self) -> u64
        ensures { result ≡ self.now.served }
    {
        self.served
    }

    /// Checks whether the published list begins with all that the looker knew: then it has what was replied `ok N` in the
    /// sessions. Otherwise the looker knew more, and the list is not the last that was published.
    pub fn is_kept_by(&self, published: &Known) -> bool
        requires { published.now.book ≡ J.book }
        ensures kept { result ≡ true → Keeps published.now self.now }
        ensures more { result ≡ false → Begins published.now self.now.known }
    {
        self.departure.is_before(published)
    }
}
