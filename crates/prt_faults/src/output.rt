//! Streams, and lines of output.

use prt_command::Refusal;
use prt_replies::{Reply, write_reply};
use std::io::{Read, Write};

/// The types of the streams of the program.
pub(crate) trait Streams {
    type Input: Read;

    type Output: Write;
}

/// Writes a reply.
pub(crate) fn tell<W: Write>(output: &mut W, reply: &Reply) -> Result<(), Refusal> {
    if write_reply(output, reply) {
        Ok(())
    } else {
        Err(Refusal::WriteFault)
    }
}

/// Writes a number, as a receipt's.
pub(crate) fn tell_number<W: Write>(output: &mut W, number: u64) -> Result<(), Refusal> {
    tell(output, &Reply::Accepted(number))
}
