//! What is reported of a line.
ghost use Rattle.std.specs.Prelude.{◌≡◌, IfOk};
ghost use Rattle.prt_import.specs.Told.{first_bytes, is_kernel_made, numbered, remark, remark_of};

use crate::reason::Reason;
use prt_command::LONGEST_LINE;
use std::alloc::{AllocError, Global};
use std::fmt;
use std::fmt::Write;

/// A line that is left out of the script, or a part of a line that is kept.
///
/// It is shown as `line 3: nexthop: several next hops: default proto static`, without the word if there is none. A byte
/// that is not printable is shown as `?`.
#[derive(Debug, Drop)]
pub struct OmittedLine {
    /// The line of the input, counted from 1.
    pub line: u64,
    /// The word that it is about; empty if it is about the line as a whole.
    pub word: Vec<u8>,
    pub reason: Reason,
    /// The first 1,024 bytes of the line.
    pub text: Vec<u8>,
}

/// A line of the input.
#[derive(Clone, Copy)]
pub(crate) struct Source<'a> {
    /// Its number, counted from 1.
    pub(crate) number: u64,
    pub(crate) line: &'a [u8],
}

impl OmittedLine {
    /// Checks whether it is about a route that the kernel makes itself.
    pub(crate) fn is_kernel_made(&self) -> bool
        ensures { result ≡ is_kernel_made self.now.reason }
    {
        matches!(self.reason, Reason::Kernel)
    }

    /// Copies what is reported of a line.
    pub(crate) fn new(
        alloc: Global,
        source: Source<'_>,
        word: &[u8],
        reason: Reason,
    ) -> Result<OmittedLine, AllocError>
        ensures { IfOk result (λ left. remark_of left ≡ remark (numbered source.entry) word.now reason) }
    {
        Ok(OmittedLine {
            line: source.number,
            word: Vec::from_slice(alloc, first_bytes(word))?,
            reason,
            text: Vec::from_slice(alloc, first_bytes(source.line))?,
        })
    }
}

/// Takes the first bytes of a text, as many as are shown.
fn first_bytes(text: &[u8]) -> &[u8]
    ensures { result.now ≡ first_bytes text.now }
{
    &text[..LONGEST_LINE.min(text.len())]
}

/// Chooses the character that is shown for a byte: what can't be printed could be a command to the terminal.
fn shown(byte: u8) -> char {
    if byte == b'\t' || (byte > 31 && byte < 127) {
        char::from(byte)
    } else {
        '?'
    }
}

/// Writes bytes as characters.
fn write_bytes<W: fmt::Write>(f: &mut fmt::Formatter<W>, bytes: &[u8]) -> fmt::Result {
    for byte in bytes {
        f.write_char(shown(*byte))?;
    }
    Ok(())
}

impl fmt::Display for OmittedLine {
    fn fmt<W: fmt::Write>(&self, f: &mut fmt::Formatter<W>) -> fmt::Result {
        let line = self.line;
        let reason = self.reason;
        write!(f, "line {line}: ")?;
        if !self.word.is_empty() {
            write_bytes(f, &self.word)?;
            write!(f, ": ")?;
        }
        write!(f, "{reason}: ")?;
        write_bytes(f, self.text.trim_ascii())
    }
}
