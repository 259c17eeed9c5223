//! The opening of a feed, as a client reads it.
ghost use Rattle.std.specs.Prelude.{◌≡◌, ◌≢◌, ◌<◌, ◌^◌, ◌↔◌, ℕ, [], ◌∷◌, IfErr, IfOk, IfSome, IsTrue, MatchOption, None, OnOk, decimal};
ghost use Rattle.std.specs.Io.KnownBytes.{Consumes};
ghost use Rattle.prt_lines.specs.Lines.{line_refusal, line_state};
ghost use Rattle.prt_feed.specs.Following.{now_line, state_line};
ghost use Rattle.prt_feed.specs.Reading.{AreTaken, IsNoState, IsOpening, IsTaken, IsWhyNotRead};
ghost use Rattle.prt_feed.specs.Steps.{AreTablesRead, IsWhyNoNumber, IsWhyNoTables, IsWhyNotExecuted};

use crate::opening::{Opening, OpeningError};
use arrayvec::ArrayVec;
use itoa::Buffer;
use prt_command::{LONGEST_LINE, MOST_LINES};
use prt_lines::next_version;
use prt_refusals::Refusal;
use prt_version::Version;
use std::alloc::Global;
use std::io::Read;

/// The bytes of the longest line, and one more, by which a line that is too long is known.
pub(crate) const ROOM: usize = LONGEST_LINE + 1;

/// Reads one byte. `None` if the reader fails or has ended.
fn next_byte<R: Read>(reader: &mut R) -> Option<u8>
    ensures { IfSome result (λ byte. Consumes (R.remaining reader.old) (R.remaining reader.new) (byte ∷ [])) }
{
    let mut byte = [0u8; 1];
    match reader.read(&mut byte) {
        Ok(0) => None,
        Ok(_) => Some(byte[0]),
        Err(_) => None,
    }
}

/// Reads a line, and keeps it without its newline; of a line that is too long it reads what there is room for. Returns
/// whether it did: it didn't if the reader fails or ends before that.
pub(crate) fn next_line<R: Read>(reader: &mut R, line: &mut ArrayVec<u8, ROOM>) -> bool
    ensures { IsTrue result → IsTaken (R.remaining reader.old) (R.remaining reader.new) line.new.items }
{
    line.clear();
    // Byte by byte, since nothing after the newline may be taken from the reader.
    for _count in 0..ROOM {
        match next_byte(reader) {
            Some(b'\n') => return true,
            Some(byte) => line.push(byte),
            None => return false,
        }
    }
    true
}

/// Checks whether the number is written so.
fn is_written(number: u64, digits: &[u8]) -> bool
    ensures { IsTrue result ↔ (digits.now ≡ decimal number) }
{
    let mut written = Buffer::new();
    written.format(number).as_bytes() == digits
}

/// Reads a number as it is written, with no sign and no zeros before it.
pub fn number_of(digits: &[u8]) -> Option<u64>
    ensures { MatchOption result ((number : ℕ) → number < 2 ^ 64 → digits.now ≢ decimal number) (λ number. digits.now ≡ decimal number) }
{
    let Ok(text) = str::from_utf8(digits) else {
        return None;
    };
    let Ok(number) = text.parse::<u64>() else {
        return None;
    };
    if is_written(number, digits) {
        return Some(number);
    }
    None
}

/// Reads the number of a feed's first line. `None` if it is not `state` and a number.
fn state_number(line: &[u8]) -> Option<u64>
    ensures { MatchOption result (IsNoState line.now) (λ number. line.now ≡ state_line number) }
{
    match line.strip_prefix(b"state ".as_slice()) {
        Some(digits) => number_of(digits),
        None => None,
    }
}

/// Checks whether the line says that the tables are whole.
fn is_now(line: &[u8]) -> bool
    ensures { IsTrue result ↔ (line.now ≡ now_line) }
{
    line == b"now".as_slice()
}

/// Executes a line over tables.
fn after_line(tables: Version, line: &[u8]) -> Result<Version, OpeningError>
    ensures value { IfOk result (λ next. next ≡ line_state tables line.now) }
    ensures allowed { OnOk result (line_refusal tables line.now ≡ None) }
    ensures reason { IfErr result (λ reason. IsWhyNotExecuted tables line.now reason) }
{
    match next_version(&tables, line) {
        Ok(Some(next)) => Ok(next),
        Ok(None) => Ok(tables),
        Err(Refusal::NoMemory) => Err(OpeningError::NoMemory),
        Err(reason) => Err(OpeningError::Refused(reason)),
    }
}

/// Reads lines up to `now`, and executes them over a new database.
fn read_tables<R: Read>(alloc: Global, reader: &mut R) -> Result<Version, OpeningError>
    ensures tables { IfOk result (λ tables. AreTablesRead (R.remaining reader.old) (R.remaining reader.new) tables) }
    ensures reason { IfErr result (λ reason. IsWhyNoTables (R.remaining reader.old) (R.remaining reader.new) reason) }
{
    let Ok(mut tables) = Version::opening(alloc) else {
        return Err(OpeningError::NoMemory);
    };
    let mut line = ArrayVec::<u8, ROOM>::new();
    for _count in 0..MOST_LINES {
        if !next_line(reader, &mut line) {
            return Err(OpeningError::CutOff);
        }
        let text = line.as_slice();
        if is_now(text) {
            return Ok(tables);
        }
        tables = after_line(tables, text)?;
    }
    Err(OpeningError::Refused(Refusal::TooManyLines))
}

/// Reads the first line of a feed.
fn read_number<R: Read>(reader: &mut R) -> Result<u64, OpeningError>
    ensures number { IfOk result (λ number. AreTaken (R.remaining reader.old) (R.remaining reader.new) (state_line number ∷ [])) }
    ensures reason { IfErr result (λ reason. IsWhyNoNumber (R.remaining reader.old) (R.remaining reader.new) reason) }
{
    let mut line = ArrayVec::<u8, ROOM>::new();
    if !next_line(reader, &mut line) {
        return Err(OpeningError::CutOff);
    }
    match state_number(line.as_slice()) {
        Some(number) => Ok(number),
        None => Err(OpeningError::NoFeed),
    }
}

/// Reads the opening of a feed: `state` and a number, lines that it executes over a new database, and `now`. What
/// follows `now` is still to be read. It reads byte by byte, so the reader should have a buffer.
///
/// # Errors
///
/// `CutOff` if the reader fails or ends before `now`; `NoFeed` if the first line is not `state` and a number;
/// `Refused` with the refusal of a line, or `TooManyLines` after 1,000,000 lines without a `now`; `NoMemory`.
pub fn read_opening<R: Read>(alloc: Global, reader: &mut R) -> Result<Opening, OpeningError>
    ensures opening { IfOk result (λ opening. IsOpening (R.remaining reader.old) (R.remaining reader.new) opening) }
    ensures reason { IfErr result (λ reason. IsWhyNotRead (R.remaining reader.old) (R.remaining reader.new) reason) }
{
    let number = read_number(reader)?;
    let version = read_tables(alloc, reader)?;
    Ok(Opening { number, version })
}
