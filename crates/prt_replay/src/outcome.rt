use crate::LookerNumber;
use prt_refusals::{Refusal, StoreCall};
use prt_version::Answer;

/// What came of an event.
#[derive(Clone, Copy)]
pub enum Outcome {
    /// Nothing: the event could not happen, and nothing changed.
    Nothing,
    /// The commands are prepared, and the last has this number.
    Prepared(u64),
    /// The event was refused, or failed.
    Refused(Refusal),
    /// This store call succeeded.
    Called(StoreCall),
    /// The version of this number is published.
    Published(u64),
    /// The version of this number is noted.
    Noted(u64),
    /// The commands are acknowledged, and the last has this number.
    Acknowledged(u64),
    /// The looker announced this number and is online.
    Online(LookerNumber, u64),
    /// The looker holds the version of this number.
    Fetched(LookerNumber, u64),
    /// The looker announced this number.
    Announced(LookerNumber, u64),
    /// The looker is offline.
    Offline(LookerNumber),
    /// The answer to a looker.
    Answered(Answer),
    /// So many versions were given up.
    Reclaimed(u64),
    /// Everything stopped.
    Stopped,
    /// The database was opened again, with so many commands.
    Reopened(u64),
}
