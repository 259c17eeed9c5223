//! The events of a replay file.
ghost use Rattle.std.specs.Prelude.{◌≡◌, ◌<◌, ◌≤◌, ◌+◌, ◌==◌, ◌⊎◌, ℕ, List, [], ◌∷◌, ◌++◌, Err, IfErr, IfSome, MatchOption, MatchResult, Ok, OnOk};
ghost use Rattle.std.specs.Prelude.{Some, length, position};
ghost use Rattle.prt_refusals.specs.declared.refusal.Refusal.TheVariants.{NoMemory, TooManyLines};
ghost use Rattle.prt_replay.specs.ReadEvents.{contents, events_of, refused_from};
ghost use Rattle.prt_replay.specs.ReadSteps.{with_lines};

use crate::Event;
use crate::read::read_event_line;
use prt_command::MOST_LINES;
use prt_refusals::Refusal;
use std::alloc::Global;

/// The most bytes of a replay file; one byte more is `TooManyLines`.
pub const LONGEST_REPLAY: usize = 104_857_600;

/// The most events of a replay file; one event more is `TooManyLines`.
pub const MOST_EVENTS: usize = 100_000;

/// Finds the first newline.
fn first_newline(bytes: &[u8]) -> Option<usize>
    ensures { result ≡ position (λ b. b == 10) bytes.now }
{
    bytes.iter().position(|byte| *byte == b'\n')
}

/// Takes the first line of a file: the line without its newline, and what comes after it.
fn next_line(bytes: &[u8]) -> Option<(&[u8], &[u8])>
    ensures { MatchOption result (contents bytes.now ≡ [])
        (λ next. (contents bytes.now ≡ next.0.now ∷ contents next.1.now) × (length next.1.now < length bytes.now)) }
{
    match first_newline(bytes) {
        Some(at) => Some((&bytes[..at], &bytes[at + 1..])),
        None if bytes.is_empty() => None,
        None => Some((bytes, &[])),
    }
}

/// Adds an event, if a file may have one more.
fn add_event(events: &mut Vec<Event>, event: Event) -> Result<(), Refusal>
    ensures ok { OnOk result (events.new.items ≡ events.old.items ++ event ∷ []) }
    ensures room { OnOk result (length events.old.items < MOST_EVENTS) }
    ensures err { IfErr result (λ e. ((e ≡ TooManyLines) × (MOST_EVENTS ≤ length events.old.items)) ⊎ (e ≡ NoMemory)) }
{
    if events.len() >= MOST_EVENTS {
        return Err(Refusal::TooManyLines);
    }
    events.push(event)?;
    Ok(())
}

/// Adds the event of a line, if it has one.
fn add_line(alloc: Global, events: &mut Vec<Event>, line: &[u8]) -> Result<(), Refusal>
    ensures { MatchResult result
        (λ _. (left : ℕ) (others : List (List ℕ)) → with_lines events.old.items (left + 1) (line.now ∷ others) ≡ with_lines events.new.items left others)
        (λ e. ((left : ℕ) (others : List (List ℕ)) → with_lines events.old.items (left + 1) (line.now ∷ others) ≡ Err e) ⊎ (e ≡ NoMemory)) }
{
    match read_event_line(alloc, line) {
        Ok(Some(event)) => add_event(events, event),
        Ok(None) => Ok(()),
        Err(refusal) => Err(refusal),
    }
}

/// Finds the first line of a replay file that is refused by itself: its number, from 1, and the line.
///
/// None if none of the first `MOST_LINES` lines is, or memory was refused.
pub(crate) fn first_refused(alloc: Global, bytes: &[u8]) -> Option<(u64, &[u8])>
    ensures { IfSome result (λ found. refused_from 1 (contents bytes.now) ≡ Some (found.0, found.1.now)) }
{
    let mut rest = bytes;
    for number in 1..=MOST_LINES as u64 {
        match next_line(rest) {
            Some((line, after)) => {
                match read_event_line(alloc, line) {
                    Ok(_) => rest = after,
                    Err(Refusal::NoMemory) => return None,
                    Err(_) => return Some((number, line)),
                }
            }
            None => return None,
        }
    }
    None
}

/// Reads the events of a replay file, one a line.
///
/// # Errors
///
/// `TooManyLines` if the file is longer than `LONGEST_REPLAY`; otherwise the refusal of the first line that is
/// refused; or `NoMemory`. Each line after `MOST_LINES` lines, and each event after `MOST_EVENTS` events, is refused by
/// `TooManyLines`.
#[tactic(auto, unfolding(crate::specs::ReadEvents::events_of))]
pub fn read_events(alloc: Global, bytes: &[u8]) -> Result<Vec<Event>, Refusal>
    ensures { MatchResult result
        (λ events. events_of bytes.now ≡ Ok events.items)
        (λ e. (events_of bytes.now ≡ Err e) ⊎ (e ≡ NoMemory)) }
{
    if bytes.len() > LONGEST_REPLAY {
        return Err(Refusal::TooManyLines);
    }
    let mut events = Vec::new(alloc);
    let mut rest = bytes;
    let mut left = MOST_LINES;
    'lines: while let Some((line, after)) = next_line(rest) {
        if left == 0 {
            return Err(Refusal::TooManyLines);
        }
        if let Err(refusal) = add_line(alloc, &mut events, line) {
            return Err(refusal);
        }
        left -= 1;
        rest = after;
    }
    Ok(events)
}
