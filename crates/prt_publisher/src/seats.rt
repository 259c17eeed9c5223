//! Readers that no looker has.
ghost use Rattle.std.specs.Prelude.{◌≡◌, All, IfSome};

use prt_published::{FrontReader, Known};
use std::marker::Model;

/// Readers of one front that no looker has. Contracts see them as a prefix of its list.
#[derive(Drop)]
pub struct Seats {
    first: Known,
    readers: Vec<FrontReader>,
}

impl Model for Seats {
    ghost use Rattle.std.specs.Prelude.{◌≡◌, All};
    ghost use Rattle.prt_published.specs.Line.{Line};

    ghost Value = { Line };

    ghost view = { λ s. s.first };

    ghost invariant = { λ s. All (λ x. (x.book ≡ s.first.book) × (x.base ≡ s.first.base)) s.readers.items };
}

impl Seats {
    /// Keeps the readers of a front.
    pub(crate) fn new(first: Known, readers: Vec<FrontReader>) -> Seats
        requires { All (λ x. x ≡ first) readers.items }
        ensures { result ≡ first }
    {
        Seats { first, readers }
    }

    /// Lends one of them. `None` if none is left.
    pub fn take(&mut self) -> Option<FrontReader>
        ensures same { self.new ≡ self.old }
        ensures reader { IfSome result (λ x. (x.book ≡ self.old.book) × (x.base ≡ self.old.base)) }
    {
        self.readers.pop()
    }

    /// Takes a reader of the front back. The place for it is there since it was taken.
    pub fn give(&mut self, reader: FrontReader)
        requires { (reader.book ≡ self.old.book) × (reader.base ≡ self.old.base) }
        ensures { self.new ≡ self.old }
    {
        let _kept = self.readers.push(reader).is_ok();
    }
}
