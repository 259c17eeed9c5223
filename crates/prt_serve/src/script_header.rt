//! What a connection of an atomic script may begin with: the lines `at N` and `commands K`, before the script's first line.
ghost use Rattle.std.specs.Prelude.{◌≡◌, ◌≢◌, ◌<◌, ◌^◌, ◌++◌, ℕ, IfErr, IfOk, MatchOption, codes, false, is_some, true};
ghost use Rattle.std.specs.Io.KnownBytes.{Consumes, prepend_known};
ghost use Rattle.prt_serve.specs.ScriptHeader.{HasHeader, HasDrained, HeadIs, Opens, at_line, is_as_many, said_line, word_of};
ghost use Rattle.prt_serve.specs.Resumed.{resumed_remaining};

use crate::resumed::Resumed;
use arrayvec::{ArrayString, ArrayVec};
use itoa::Buffer;
use prt_feed::number_of;
use prt_session::{ByteRead, Refusal, next_byte};
use std::io::Read;

/// Room for the longest line `at N` or `commands K`, and its newline.
pub(crate) const LONGEST_HEAD: usize = 32;

/// What a line of the header says, by a number.
#[derive(Clone, Copy)]
pub(crate) enum Saying {
    /// At which number the commands are to be made.
    At,
    /// How many commands the script has.
    Commands,
}

impl Saying {
    /// Returns what its line begins with.
    fn word(self) -> &'static [u8]
        ensures { result.now ≡ word_of self }
    {
        match self {
            Saying::At => b"at ".as_slice(),
            Saying::Commands => b"commands ".as_slice(),
        }
    }
}

/// Where the reading of the first bytes stopped.
#[derive(Clone, Copy)]
pub(crate) enum HeadEnd {
    /// After the first newline, which isn't kept.
    Newline,
    /// At the end of the input.
    End,
    /// Where there is no room for a further byte.
    Full,
    /// Where the reader failed.
    Fault,
}

/// Formats the line `at N`, with its newline.
pub(crate) fn at_text(number: u64) -> ArrayString<32>
    ensures { result.bytes ≡ at_line number ++ codes "\n" }
{
    let mut digits = Buffer::new();
    let mut line = ArrayString::new();
    line.push_str("at ");
    line.push_str(digits.format(number));
    line.push_str("\n");
    line
}

/// Reads the number of a line that says this, without its newline. `None` if the line is another one.
fn number_in(saying: Saying, line: &[u8]) -> Option<u64>
    ensures { MatchOption result ((number : ℕ) → number < 2 ^ 64 → line.now ≢ said_line saying number) (λ number. line.now ≡ said_line saying number) }
{
    match line.strip_prefix(saying.word()) {
        Some(digits) => number_of(digits),
        None => None,
    }
}

/// Reads the first line, as far as there is room for it.
fn read_head<R: Read>(reader: &mut R, head: &mut ArrayVec<u8, LONGEST_HEAD>) -> HeadEnd
    ensures { HeadIs (R.remaining reader.old) (R.remaining reader.new) head.new.items result }
{
    head.clear();
    // Byte by byte, since nothing after the newline may be taken from the reader.
    for _count in 0..LONGEST_HEAD {
        match next_byte(reader) {
            ByteRead::Byte(b'\n') => return HeadEnd::Newline,
            ByteRead::Byte(byte) => head.push(byte),
            ByteRead::End => return HeadEnd::End,
            ByteRead::Fault => return HeadEnd::Fault,
        }
    }
    HeadEnd::Full
}

/// Reads the line that says this, if the input begins with it, and returns its number. Of any other first line it reads
/// what there is room for, and keeps that in `head`: it is still to be read.
///
/// # Errors
///
/// `ReadFault` if the reader fails before the line is over; `head` has what was read.
pub(crate) fn read_header_line<R: Read>(
    saying: Saying,
    reader: &mut R,
    head: &mut ArrayVec<u8, LONGEST_HEAD>,
) -> Result<Option<u64>, Refusal>
    ensures opens { IfOk result (λ said. Opens saying said (R.remaining reader.old) (prepend_known head.new.items (R.remaining reader.new))) }
    ensures fault { IfErr result (λ reason. (reason ≡ Refusal.ReadFault) × Consumes (R.remaining reader.old) (R.remaining reader.new) head.new.items) }
{
    let end = read_head(reader, head);
    if let HeadEnd::Fault = end {
        return Err(Refusal::ReadFault);
    }
    if let HeadEnd::Full = end {
        return Ok(None);
    }
    if let Some(number) = number_in(saying, head.as_slice()) {
        head.clear();
        return Ok(Some(number));
    }
    if let HeadEnd::Newline = end {
        head.push(b'\n');
    }
    Ok(None)
}

/// What a client says before its script.
#[derive(Clone, Copy)]
pub(crate) struct ScriptHeader {
    /// At which number the commands are to be made.
    pub(crate) number: Option<u64>,
    /// How many commands the script has.
    pub(crate) count: Option<u64>,
}

impl ScriptHeader {
    /// Checks whether a script isn't whole, by its number of commands, and by whether its last line has a newline.
    pub(crate) fn is_cut_off(self, commands: usize, ends_with_newline: bool) -> bool
        ensures whole { result ≡ false → is_as_many self.count commands ≡ true }
        ensures cut_off { result ≡ true → is_some self.count ≡ true }
    {
        match self.count {
            Some(count) => !ends_with_newline || commands as u64 != count,
            None => false,
        }
    }
}

/// A reader that failed in the header, and why.
#[derive(Drop)]
pub(crate) struct HeaderError<R: Read + Drop> {
    pub(crate) reason: Refusal,
    pub(crate) reader: R,
}

/// Reads the header of a script: `at N` and `commands K`, each if it is there. The reader that is returned has the rest.
///
/// # Errors
///
/// `ReadFault` if the reader fails before the script's first line is over.
pub(crate) fn read_header<R: Read + Drop>(
    mut reader: R,
) -> Result<(ScriptHeader, Resumed<Resumed<R>>), HeaderError<R>>
    ensures opens { IfOk result (λ opened. HasHeader opened.0 (R.remaining reader) (resumed_remaining (resumed_remaining R.remaining) opened.1)) }
    ensures fault { IfErr result (λ failed. (failed.reason ≡ Refusal.ReadFault) × HasDrained (R.remaining reader) (R.remaining failed.reader)) }
{
    let mut head = ArrayVec::<u8, LONGEST_HEAD>::new();
    let number = match read_header_line(Saying::At, &mut reader, &mut head) {
        Ok(number) => number,
        Err(reason) => return Err(HeaderError { reason, reader }),
    };
    let mut rest = Resumed::new(head, reader);
    let mut next = ArrayVec::<u8, LONGEST_HEAD>::new();
    let count = match read_header_line(Saying::Commands, &mut rest, &mut next) {
        Ok(count) => count,
        Err(reason) => {
            return Err(HeaderError {
                reason,
                reader: rest.into_reader(),
            });
        }
    };
    Ok((ScriptHeader { number, count }, Resumed::new(next, rest)))
}
