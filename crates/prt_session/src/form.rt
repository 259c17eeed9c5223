ghost use Rattle.std.specs.Prelude.{◌≡◌, ◌≢◌, ◌++◌, codes, decimal, false};
ghost use Rattle.prt_refusals.specs.Refusal.{refusal_text};
ghost use Rattle.prt_session.specs.Form.{reply_in};
ghost use Rattle.prt_replies.specs.Written.{Written};

use arrayvec::ArrayString;
use itoa::Buffer;
use prt_command::Refusal;
use prt_replies::{Reply, refused_line, write_bytes, write_reply};
use std::io::Write;

/// How the replies of a session are written down.
#[derive(Clone, Copy)]
pub enum Form {
    /// Each as it is.
    Plain,
    /// The refusals alone, each after the number of its line, from 1: `LINE: error C NAME`.
    Numbered,
}

/// Makes the line `LINE: error C NAME`.
fn numbered_line(line: u64, refusal: Refusal) -> ArrayString<64>
    ensures { result.bytes ≡ decimal line ++ codes ": " ++ refusal_text refusal ++ codes "\n" }
{
    let mut digits = Buffer::new();
    let mut text = ArrayString::new();
    text.push_str(digits.format(line));
    text.push_str(": ");
    text.push_str(refused_line(refusal).as_str());
    text
}

impl Form {
    /// Writes the reply to the line of this number, and flushes; returns whether all of it went well.
    ///
    /// If it did not, a part of the reply was written, perhaps none or all of it. A reply without a text always goes
    /// well.
    pub(crate) fn write<W: Write>(self, writer: &mut W, line: u64, reply: &Reply) -> bool
        ensures written { Written result (W.contents writer.old) (W.contents writer.new) (reply_in self line reply.now) }
        ensures told { result ≡ false → reply.now ≢ Reply.Silent }
    {
        match self {
            Form::Plain => write_reply(writer, reply),
            Form::Numbered => match reply {
                Reply::Refused(refusal) => {
                    write_bytes(writer, numbered_line(line, *refusal).as_bytes())
                }
                _ => true,
            },
        }
    }
}
