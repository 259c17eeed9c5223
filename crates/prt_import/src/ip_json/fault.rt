//! Why a text yields no lines.
ghost use Rattle.std.specs.Prelude.{◌≡◌};
ghost use Rattle.prt_import.specs.IpJson.Steps.{reason};

use std::alloc::AllocError;
use thiserror::Error;

/// Why a text yields no lines.
#[derive(Clone, Copy, Debug, Error, PartialEq, Eq)]
pub enum ListingError {
    /// It is no sequence of JSON documents, or nests deeper than 128 arrays and objects.
    #[error("this is neither a listing nor the JSON of `ip -j`")]
    NoJson,
    /// Memory was refused.
    #[error("memory was refused")]
    NoMemory,
}

impl From<AllocError> for ListingError {
    ghost use Rattle.std.specs.Prelude.{◌≡◌};
    ghost use Rattle.prt_import.specs.declared.ip_json.fault.ListingError.TheVariants.{NoMemory};

    ghost from_gives = { λ _ fault. fault ≡ NoMemory };

    fn from(_: AllocError) -> ListingError {
        ListingError::NoMemory
    }
}

/// Finds why, by the reason for which no value was read.
pub(crate) fn not_listed(error: json::Error) -> ListingError
    ensures { result ≡ reason error }
{
    match error {
        json::Error::OutOfMemory => ListingError::NoMemory,
        json::Error::Invalid | json::Error::TooLong | json::Error::DuplicateKey => {
            ListingError::NoJson
        }
    }
}
