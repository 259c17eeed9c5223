//! What ends the translation of a line.
ghost use Rattle.std.specs.Prelude.{◌≡◌};
ghost use Rattle.prt_import.specs.declared.fault.Fault.TheVariants as faults;

use crate::reason::Reason;
use std::alloc::AllocError;

/// Why there is no line of the script for a line of a listing.
#[derive(Clone, Copy, Debug, PartialEq, Eq)]
pub enum Fault {
    /// It has to be left out.
    Left(Reason),
    /// Memory was refused.
    NoMemory,
}

impl From<AllocError> for Fault {
    ghost from_gives = { λ _ fault. fault ≡ faults.NoMemory };

    fn from(_refused: AllocError) -> Fault {
        Fault::NoMemory
    }
}

impl From<Reason> for Fault {
    ghost from_gives = { λ reason fault. fault ≡ faults.Left reason };

    fn from(reason: Reason) -> Fault {
        Fault::Left(reason)
    }
}
