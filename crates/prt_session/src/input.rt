ghost use Rattle.prt_session.specs.Steps.{ByteIs, LineIs};

use arrayvec::ArrayVec;
use prt_command::{LONGEST_LINE, LONGEST_UNENDED};
use std::io::Read;

/// What a read of one byte gave.
pub enum ByteRead {
    Byte(u8),
    End,
    Fault,
}

/// Reads one byte, by one call.
pub fn next_byte<R: Read>(reader: &mut R) -> ByteRead
    ensures { ByteIs result (R.remaining reader.old) (R.remaining reader.new) }
{
    let mut byte = [0u8; 1];
    match reader.read(&mut byte) {
        Ok(0) => ByteRead::End,
        Ok(_) => ByteRead::Byte(byte[0]),
        Err(_) => ByteRead::Fault,
    }
}

/// Where the reading of a line stopped.
#[derive(Clone, Copy)]
pub(crate) enum Stop {
    /// After the newline.
    Newline,
    /// At the end of the input.
    End,
    /// Where the reader failed.
    Fault,
    /// After the first byte too many of a line without a newline.
    Endless,
}

/// How many bytes of a line were read, without its newline, and where reading stopped.
#[derive(Clone, Copy)]
pub(crate) struct LineRead {
    pub(crate) stop: Stop,
    pub(crate) length: usize,
}

/// Reads a line, and keeps what of it `line` has room for.
pub(crate) fn next_line<R: Read>(reader: &mut R, line: &mut ArrayVec<u8, LONGEST_LINE>) -> LineRead
    ensures { LineIs (R.remaining reader.old) (R.remaining reader.new) line.new.items result }
{
    line.clear();
    // Byte by byte, since nothing after the newline may be taken from the reader.
    for length in 0..LONGEST_UNENDED + 1 {
        let stop = match next_byte(reader) {
            ByteRead::Byte(b'\n') => Stop::Newline,
            ByteRead::Byte(byte) => {
                if length < LONGEST_LINE {
                    line.push(byte);
                }
                continue;
            }
            ByteRead::End => Stop::End,
            ByteRead::Fault => Stop::Fault,
        };
        return LineRead { stop, length };
    }
    LineRead {
        stop: Stop::Endless,
        length: LONGEST_UNENDED + 1,
    }
}
