ghost use Rattle.std.specs.Prelude.{◌≡◌, ◌<◌, Some, length};
ghost use Rattle.prt_refusals.specs.Refusal.{code_of, entry_of, name_of, refusal_text};
ghost use Rattle.prt_refusals.specs.declared.refusal.Refusal.TheVariants.{NoMemory};

use arrayvec::ArrayString;
use itoa::Buffer;
use std::alloc::{AllocError, AllocFailed};
use std::error::Error;
use std::fmt;

/// A call of a commit to the store, in the order in which a commit makes them.
#[derive(Clone, Copy, Debug, PartialEq, Eq)]
pub enum StoreCall {
    /// Begins the transaction.
    Begin,
    /// Writes the rows that the command changes.
    Write,
    /// Sets the count of accepted commands.
    Count,
    /// Commits the transaction.
    Commit,
}

/// Why a line, a command or a session was refused.
///
/// Each refusal has a number and a name, which a reply shows as `error 22 NoSuch`.
#[derive(Clone, Copy, Debug, PartialEq, Eq)]
pub enum Refusal {
    /// The line has more than 1,024 bytes.
    LineTooLong,
    /// A byte before any `#` is neither white space nor a printable ASCII character.
    NotAscii,
    /// There is no object word, or the first word is no object.
    UnknownObject,
    /// The object has no such verb.
    UnknownVerb,
    /// The word is not allowed at this place.
    UnknownWord,
    /// Nothing follows a word that needs something after it.
    MissingValue,
    /// The item is given twice.
    Repeated,
    /// The word is no address.
    BadAddress,
    /// The word is no prefix.
    BadPrefix,
    /// The destination of a route has bits after its length.
    HostBits,
    /// The word is neither a number in range nor a name of the list.
    BadNumber,
    /// The word is no table.
    BadTable,
    /// The word is no interface name.
    BadName,
    /// The command needs a destination.
    MissingDestination,
    /// A unicast route needs a gateway or an interface.
    NoNextHop,
    /// A route of this kind has no gateway, interface or source.
    NextHopNotAllowed,
    /// The command would take everything and has to name something.
    TooBroad,
    /// Only a rule that looks up a table suppresses short prefixes.
    SuppressNotAllowed,
    /// A file of changes that are made together has more commands than the limit.
    TooManyCommands,
    /// The publisher is closed since a commit or a publication failed.
    Closed,
    /// The route's key, or an equal rule, is there already.
    Exists,
    /// No route or rule agrees with what is named.
    NoSuch,
    /// There is no room for one more rule, route or looker.
    Full,
    /// The count of commands is at its limit.
    CountFull,
    /// Readers still hold as many old versions as are kept.
    Busy,
    /// Memory was refused.
    NoMemory,
    /// This store call of a commit failed.
    StoreFailed(StoreCall),
    /// The front refused the publication.
    NotPublished,
    /// A reader could not fetch a version.
    NotFetched,
    /// The stored rows encode no state.
    Damaged,
    /// The store could not be opened or loaded.
    OpenFailed,
    /// The reader failed, or the script could not be opened.
    ReadFault,
    /// The writer failed, or took no byte.
    WriteFault,
    /// The session has more lines than the limit.
    TooManyLines,
}

impl Refusal {
    /// Returns the number and the name: the one table of both.
    fn entry(&self) -> (u32, &'static str)
        ensures { (result.0, result.1.now) ≡ entry_of self.now }
    {
        match self {
            Refusal::LineTooLong => (1, "LineTooLong"),
            Refusal::NotAscii => (2, "NotAscii"),
            Refusal::UnknownObject => (3, "UnknownObject"),
            Refusal::UnknownVerb => (4, "UnknownVerb"),
            Refusal::UnknownWord => (5, "UnknownWord"),
            Refusal::MissingValue => (6, "MissingValue"),
            Refusal::Repeated => (7, "Repeated"),
            Refusal::BadAddress => (8, "BadAddress"),
            Refusal::BadPrefix => (9, "BadPrefix"),
            Refusal::HostBits => (10, "HostBits"),
            Refusal::BadNumber => (11, "BadNumber"),
            Refusal::BadTable => (12, "BadTable"),
            Refusal::BadName => (13, "BadName"),
            Refusal::MissingDestination => (14, "MissingDestination"),
            Refusal::NoNextHop => (15, "NoNextHop"),
            Refusal::NextHopNotAllowed => (16, "NextHopNotAllowed"),
            Refusal::TooBroad => (17, "TooBroad"),
            Refusal::SuppressNotAllowed => (18, "SuppressNotAllowed"),
            Refusal::TooManyCommands => (19, "TooManyCommands"),
            Refusal::Closed => (20, "Closed"),
            Refusal::Exists => (21, "Exists"),
            Refusal::NoSuch => (22, "NoSuch"),
            Refusal::Full => (23, "Full"),
            Refusal::CountFull => (24, "CountFull"),
            Refusal::Busy => (25, "Busy"),
            Refusal::NoMemory => (26, "NoMemory"),
            Refusal::StoreFailed(_) => (27, "StoreFailed"),
            Refusal::NotPublished => (28, "NotPublished"),
            Refusal::NotFetched => (29, "NotFetched"),
            Refusal::Damaged => (30, "Damaged"),
            Refusal::OpenFailed => (31, "OpenFailed"),
            Refusal::ReadFault => (32, "ReadFault"),
            Refusal::WriteFault => (33, "WriteFault"),
            Refusal::TooManyLines => (34, "TooManyLines"),
        }
    }

    /// Returns the number of the refusal, from 1 to 34.
    pub fn code(&self) -> u32
        ensures { result ≡ code_of self.now }
    {
        self.entry().0
    }

    /// Returns the name of the refusal.
    pub fn name(&self) -> &'static str
        ensures { result.now ≡ name_of self.now }
    {
        self.entry().1
    }

    /// Writes `error C NAME`, which leaves room for a newline.
    #[tactic(auto, using(crate::proofs::RefusalText::code_short, crate::proofs::RefusalText::name_short))]
    pub fn text(&self) -> ArrayString<32>
        ensures value { result.bytes ≡ refusal_text self.now }
        ensures room { length result.bytes < 32 }
    {
        let mut digits = Buffer::new();
        let mut text = ArrayString::new();
        text.push_str("error ");
        text.push_str(digits.format(self.code()));
        text.push_str(" ");
        text.push_str(self.name());
        text
    }
}

/// Writes `error C NAME`.
impl fmt::Display for Refusal {
    ghost output = { λ refusal. Some (refusal_text refusal) };

    fn fmt<W: fmt::Write>(&self, f: &mut fmt::Formatter<W>) -> fmt::Result {
        f.write_str(self.text().as_str())
    }
}

impl Error for Refusal {}

impl From<AllocError> for Refusal {
    ghost from_gives = { λ _ refusal. refusal ≡ NoMemory };

    fn from(_refused: AllocError) -> Refusal {
        Refusal::NoMemory
    }
}

impl<T: Drop> From<AllocFailed<T>> for Refusal {
    ghost from_gives = { λ _ refusal. refusal ≡ NoMemory };

    fn from(_refused: AllocFailed<T>) -> Refusal {
        Refusal::NoMemory
    }
}
