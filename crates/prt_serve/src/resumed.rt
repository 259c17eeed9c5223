//! A reader of which some bytes were read, and are read again.
ghost use Rattle.std.specs.Prelude.{◌≡◌};
ghost use Rattle.std.specs.Io.KnownBytes.{prepend_known};
ghost use Rattle.prt_serve.specs.Resumed.{resumed_remaining, unread_head};

use crate::script_header::LONGEST_HEAD;
use arrayvec::ArrayVec;
use std::io::{self, Read};

/// A reader, and the bytes that come before its own.
#[derive(Drop)]
pub(crate) struct Resumed<R: Read + Drop> {
    head: ArrayVec<u8, LONGEST_HEAD>,
    /// How many of those were given.
    given: usize,
    /// Whether the last byte that was given is a newline, if any was.
    ends_with_newline: bool,
    reader: R,
}

/// Returns whether the last byte is a newline that was read into these, or that came before if none was.
fn ends_line(read: &io::Result<usize>, bytes: &[u8], before: bool) -> bool {
    match read {
        Ok(count) if *count > 0 && *count <= bytes.len() => bytes[*count - 1] == b'\n',
        _ => before,
    }
}

impl<R: Read + Drop> Resumed<R> {
    /// Puts these bytes before those of the reader.
    pub(crate) fn new(head: ArrayVec<u8, LONGEST_HEAD>, reader: R) -> Resumed<R>
        ensures { resumed_remaining R.remaining result ≡ prepend_known head.items (R.remaining reader) }
    {
        Resumed {
            head,
            given: 0,
            ends_with_newline: true,
            reader,
        }
    }

    /// Returns whether the last byte that was read is a newline. If none was read, it is so too.
    pub(crate) fn ends_with_newline(&self) -> bool {
        self.ends_with_newline
    }

    /// Returns the reader. Bytes before its own that were not given are let go.
    pub(crate) fn into_reader(self) -> R
        ensures { resumed_remaining R.remaining self ≡ prepend_known (unread_head self) (R.remaining result) }
    {
        self.reader
    }
}

impl<R: Read + Drop> Read for Resumed<R> {
    ghost use Rattle.prt_serve.specs.Resumed.{resumed_remaining};

    ghost remaining = { resumed_remaining R.remaining };

    fn read(&mut self, bytes: &mut [u8]) -> io::Result<usize> {
        if self.given >= self.head.len() {
            let read = self.reader.read(bytes);
            self.ends_with_newline = ends_line(&read, bytes, self.ends_with_newline);
            return read;
        }
        if bytes.is_empty() {
            return Ok(0);
        }
        bytes[0] = self.head[self.given];
        self.given += 1;
        self.ends_with_newline = bytes[0] == b'\n';
        Ok(1)
    }
}
