//! The changes of a feed, as a client reads them.
ghost use Rattle.std.specs.Prelude.{◌≡◌, ◌==◌, IfOk, IfSome, position};
ghost use Rattle.prt_feed.specs.Changes.{IsChangeLine, IsCutAt, IsLineOf, IsTold};

use crate::opening::OpeningError;
use crate::reading::{ROOM, next_line, number_of};
use arrayvec::ArrayVec;
use prt_command::{Command, LONGEST_LINE, Request, read_line};
use prt_refusals::Refusal;
use std::io::Read;

/// A change that a feed reports.
#[derive(Clone, Copy)]
pub struct Change {
    /// How many commands the server has accepted with this one.
    pub number: u64,
    /// The command.
    pub command: Command,
}

/// Finds the first space.
fn first_space(line: &[u8]) -> Option<usize>
    ensures { result ≡ position (λ b. b == 32) line.now }
{
    line.iter().position(|byte| *byte == b' ')
}

/// Splits a line into what comes before its first space, and what comes after it. `None` if it has none.
fn at_space(line: &[u8]) -> Option<(&[u8], &[u8])>
    ensures { IfSome result (λ parts. IsCutAt line.now parts.0.now parts.1.now) }
{
    match first_space(line) {
        Some(at) => Some((&line[..at], &line[at + 1..])),
        None => None,
    }
}

/// Reads the line of a change.
///
/// # Errors
///
/// `NoFeed` if it is not a number, a space and a command; `Refused` with the first fault of the command.
fn change_of(line: &[u8]) -> Result<Change, OpeningError>
    ensures { IfOk result (λ change. IsChangeLine line.now change) }
{
    let Some((digits, rest)) = at_space(line) else {
        return Err(OpeningError::NoFeed);
    };
    let Some(number) = number_of(digits) else {
        return Err(OpeningError::NoFeed);
    };
    match read_line(rest) {
        Ok(Some(Request::Command(command))) => Ok(Change { number, command }),
        Ok(_) => Err(OpeningError::NoFeed),
        Err(reason) => Err(OpeningError::Refused(reason)),
    }
}

/// Reads a line that comes after the opening of a feed.
///
/// # Errors
///
/// As of `change_of`.
fn told_by(line: &[u8]) -> Result<Option<Change>, OpeningError>
    ensures { IfOk result (λ told. IsLineOf told line.now) }
{
    match line.split_first() {
        Some((b'#', _)) => Ok(None),
        _ => {
            let change = change_of(line)?;
            Ok(Some(change))
        }
    }
}

/// Reads one line of a feed, after its opening. `None` of a comment, as a heartbeat is. It reads byte by byte, so the reader
/// should have a buffer.
///
/// # Errors
///
/// `CutOff` if the reader fails or ends before the line does; `NoFeed` if the line is no change; `Refused` with the
/// first fault of its command, or `LineTooLong`.
pub fn read_change<R: Read>(reader: &mut R) -> Result<Option<Change>, OpeningError>
    ensures { IfOk result (IsTold (R.remaining reader.old) (R.remaining reader.new)) }
{
    let mut line = ArrayVec::<u8, ROOM>::new();
    if !next_line(reader, &mut line) {
        return Err(OpeningError::CutOff);
    }
    let text = line.as_slice();
    if text.len() > LONGEST_LINE {
        return Err(OpeningError::Refused(Refusal::LineTooLong));
    }
    told_by(text)
}
