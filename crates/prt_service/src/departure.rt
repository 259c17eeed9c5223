//! That a looker left.
ghost use Rattle.std.specs.Prelude.{◌≡◌, MatchBool};
ghost use Rattle.prt_published.specs.Line.{Begins};

use crate::spare::Returned;
use prt_published::Known;
use std::marker::Model;

/// Says that a looker returned its version, its reader and its place. [`Looker::leave`] alone makes one. Contracts see
/// it as the list that the looker knew.
///
/// [`Looker::leave`]: crate::Looker::leave
#[derive(Drop)]
pub struct Departure {
    returned: Returned,
}

impl Model for Departure {
    ghost use Rattle.prt_published.specs.Line.{Line};

    ghost Value = { Line };

    ghost view = { λ departure. departure.returned };
}

impl Departure {
    /// Says it of a looker whose reader was returned.
    pub(crate) fn new(returned: Returned) -> Departure
        ensures { result ≡ returned }
    {
        Departure { returned }
    }

    /// Checks whether the list that the looker knew is a prefix of the other. Otherwise the other is a prefix of it: both
    /// are of one front.
    pub fn is_before(&self, other: &Known) -> bool
        requires { self.now.book ≡ other.now.book }
        ensures { MatchBool result (Begins self.now other.now) (Begins other.now self.now) }
    {
        self.returned.is_before(other)
    }
}
