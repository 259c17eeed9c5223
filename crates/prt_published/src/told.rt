//! What is reported of the published list.
ghost use Rattle.std.specs.Prelude.{◌≡◌, ◌-◌, ◌≤◌, length, take};
ghost use Rattle.prt_version.specs.Accepted.{IsAccepted};
ghost use Rattle.prt_published.specs.Line.{Begins};

use crate::Known;
use std::marker::Model;

/// A prefix of the published list, which its publisher reports to readers: the first commands of a known list.
/// Contracts see it as a line; of its list it keeps the length alone.
#[derive(Drop)]
pub struct Told {
    known: Known,
    count: u64,
}

impl Model for Told {
    ghost use Rattle.std.specs.Prelude.{◌≤◌, length, take};
    ghost use Rattle.prt_version.specs.Accepted.{IsAccepted};
    ghost use Rattle.prt_published.specs.Line.{Line};

    ghost Value = { Line };

    ghost view = { λ t. record t.known { list = take t.count t.known.list } };

    ghost invariant = { λ t. (t.count ≤ length t.known.list) × IsAccepted t.known.base t.known.list };
}

impl Told {
    /// Reports all of a list.
    pub fn whole(known: &Known) -> Told
        ensures { result ≡ known.now }
    {
        Told {
            known: known.again(),
            count: known.count(),
        }
    }

    /// Reports the same list without its last commands, as many as are named.
    pub fn without_last(&self, count: u64) -> Told
        requires { count ≤ length self.now.list }
        ensures told { result ≡ record self.now { list = take (length self.now.list - count) self.now.list } }
        ensures accepted { IsAccepted result.base result.list }
    {
        Told {
            known: self.known.again(),
            count: self.count - count,
        }
    }

    /// Returns the list that is known, which begins with it.
    pub fn known(&self) -> &Known
        ensures { Begins self.now result.now }
    {
        &self.known
    }
}
