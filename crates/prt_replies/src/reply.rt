ghost use Rattle.std.specs.Prelude.{◌≡◌, ◌≢◌, ◌<◌, ◌≤◌, ◌++◌, IfSome, MatchOption, codes, decimal, false, length, take, ⊤};
ghost use Rattle.std.specs.Io.KnownBytes.{Appends, Keeps};
ghost use Rattle.prt_refusals.specs.Refusal.{refusal_text};
ghost use Rattle.prt_replies.specs.Reply.{reply_text};
ghost use Rattle.prt_replies.specs.Written.{Written};

use arrayvec::ArrayString;
use itoa::Buffer;
use prt_refusals::Refusal;
use std::io::Write;
use std::marker::Model;

/// Lines of text, each with its newline.
#[derive(Drop)]
pub struct Text {
    bytes: Vec<u8>,
}

impl Model for Text {
    ghost use Rattle.std.specs.Prelude.{ℕ, List};

    ghost Value = { List ℕ };

    ghost view = { λ text. text.bytes.items };
}

impl Text {
    /// Makes a text of these bytes.
    pub fn new(bytes: Vec<u8>) -> Text
        ensures { result ≡ bytes.items }
    {
        Text { bytes }
    }

    /// Returns its bytes.
    pub fn as_slice(&self) -> &[u8]
        ensures { result.now ≡ self.now }
    {
        self.bytes.as_slice()
    }
}

/// What is replied to a line.
#[derive(Drop)]
pub enum Reply {
    /// Nothing, to a line that asks for nothing.
    Silent,
    /// How many commands were ever accepted, with this one.
    Accepted(u64),
    /// The lines of an answer.
    Answered(Text),
    /// Why a line is refused.
    Refused(Refusal),
}

/// Makes the line `ok N`.
fn accepted_line(number: u64) -> ArrayString<32>
    ensures { result.bytes ≡ codes "ok " ++ decimal number ++ codes "\n" }
{
    let mut digits = Buffer::new();
    let mut line = ArrayString::new();
    line.push_str("ok ");
    line.push_str(digits.format(number));
    line.push_str("\n");
    line
}

/// Makes the line `error C NAME`.
pub fn refused_line(refusal: Refusal) -> ArrayString<32>
    ensures { result.bytes ≡ refusal_text refusal ++ codes "\n" }
{
    let mut line = refusal.text();
    line.push_str("\n");
    line
}

/// Writes some of these bytes by one call, and returns how many; none if the writer takes none or fails.
fn write_some<W: Write>(writer: &mut W, bytes: &[u8]) -> Option<usize>
    ensures some { IfSome result (λ count.
        (0 < count) × (count ≤ length bytes.now) × Appends (W.contents writer.old) (W.contents writer.new) (take count bytes.now)) }
    ensures none { MatchOption result (Keeps (W.contents writer.old) (W.contents writer.new)) (λ _. ⊤) }
{
    match writer.write(bytes) {
        Ok(0) => None,
        Ok(count) => Some(count),
        Err(_) => None,
    }
}

/// Writes these bytes and flushes; returns whether all of it went well.
pub fn write_bytes<W: Write>(writer: &mut W, bytes: &[u8]) -> bool
    ensures { Written result (W.contents writer.old) (W.contents writer.new) bytes.now }
{
    let mut written = 0;
    while written < bytes.len() {
        match write_some(writer, &bytes[written..]) {
            Some(count) => written += count,
            None => return false,
        }
    }
    writer.flush().is_ok()
}

/// Writes a reply and flushes; returns whether all of it went well.
///
/// If it did not, a part of the reply was written, perhaps none or all of it. `Silent` writes nothing, and always
/// goes well.
pub fn write_reply<W: Write>(writer: &mut W, reply: &Reply) -> bool
    ensures written { Written result (W.contents writer.old) (W.contents writer.new) (reply_text reply.now) }
    ensures told { result ≡ false → reply.now ≢ Reply.Silent }
{
    match reply {
        Reply::Silent => true,
        Reply::Accepted(number) => write_bytes(writer, accepted_line(*number).as_bytes()),
        Reply::Answered(text) => write_bytes(writer, text.as_slice()),
        Reply::Refused(refusal) => write_bytes(writer, refused_line(*refusal).as_bytes()),
    }
}
