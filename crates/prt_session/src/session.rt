//! The loop over the lines of a session.
ghost use Rattle.std.specs.Prelude.{◌≡◌, ◌≤◌, ℕ, List, length};
ghost use Rattle.prt_session.specs.Run.{RunsIn};
ghost use Rattle.prt_session.specs.Session.{stops_after};
ghost use Rattle.prt_session.specs.Stands.{Explained, StandsForSome};
ghost use Rattle.prt_session.specs.Steps.{AnswerIs, EndsAfterLast, EndsWith, LineGives, ends_after, is_nothing};

use crate::executor::Executor;
use crate::form::Form;
use crate::input::{ByteRead, LineRead, Stop, next_byte, next_line};
use arrayvec::ArrayVec;
use prt_command::{LONGEST_LINE, MOST_LINES, Refusal, read_line};
use prt_refusals::OnRefusal;
use prt_replies::{Observer, Reply, ScriptEnd};
use std::io::{Read, Write};

/// Does what a line asks for.
#[tactic(auto, unfolding(crate::specs::Session::line_turn, crate::specs::Session::LineMay))]
fn execute_line<X: Executor>(executor: &mut X, line: &[u8]) -> Reply
    requires { X.fits executor.old }
    ensures fits { X.fits executor.new }
    ensures turn { Explained X.stands executor.old executor.new (λ before after. LineGives X.turn X.may before line.now result after) }
    ensures left { StandsForSome X.stands executor.old → StandsForSome X.stands executor.new }
    ensures keeps { X.keeps executor.old executor.new }
{
    match read_line(line) {
        Err(refusal) => {
            executor.pass();
            Reply::Refused(refusal)
        }
        Ok(None) => {
            executor.pass();
            Reply::Silent
        }
        Ok(Some(request)) => executor.execute(&request),
    }
}

/// Replies to a whole line of this many bytes, which `line` has if they are not too many.
fn reply_to_whole<X: Executor>(executor: &mut X, count: usize, line: &[u8]) -> Reply
    requires { X.fits executor.old }
    ensures fits { X.fits executor.new }
    ensures turn { (content : List ℕ) → length content ≡ count → (count ≤ LONGEST_LINE → line.now ≡ content) →
        Explained X.stands executor.old executor.new (λ before after. LineGives X.turn X.may before content result after) }
    ensures left { StandsForSome X.stands executor.old → StandsForSome X.stands executor.new }
    ensures keeps { X.keeps executor.old executor.new }
{
    let is_long = count > LONGEST_LINE;
    if is_long {
        executor.pass();
        return Reply::Refused(Refusal::LineTooLong);
    }
    execute_line(executor, line)
}

/// Replies to what was read of a line.
fn reply_to<X: Executor>(executor: &mut X, read: LineRead, line: &[u8]) -> Reply
    requires { X.fits executor.old }
    ensures fits { X.fits executor.new }
    ensures turn { (content : List ℕ) → length content ≡ read.length → (read.length ≤ LONGEST_LINE → line.now ≡ content) →
        Explained X.stands executor.old executor.new (λ before after. AnswerIs X.turn X.may before read.stop content result after) }
    ensures left { StandsForSome X.stands executor.old → StandsForSome X.stands executor.new }
    ensures keeps { X.keeps executor.old executor.new }
{
    match read.stop {
        Stop::Fault => {
            executor.pass();
            Reply::Refused(Refusal::ReadFault)
        }
        Stop::Endless => {
            executor.pass();
            Reply::Refused(Refusal::LineTooLong)
        }
        Stop::Newline => reply_to_whole(executor, read.length, line),
        Stop::End => reply_to_whole(executor, read.length, line),
    }
}

/// Checks whether the input ended where a line would begin.
fn is_no_line(read: LineRead) -> bool
    ensures { result ≡ is_nothing read }
{
    match read.stop {
        Stop::End => read.length == 0,
        _ => false,
    }
}

/// Checks whether the session ends with this reply to a line that has its newline.
#[tactic(auto, unfolding(crate::specs::Session::stops_after))]
fn is_stopping(mode: OnRefusal, reply: &Reply) -> bool
    ensures { result ≡ stops_after mode reply.now }
{
    match mode {
        OnRefusal::Stop => matches!(reply, Reply::Refused(_)),
        OnRefusal::GoOn => false,
    }
}

/// Checks whether nothing is read after this reply.
fn is_last(mode: OnRefusal, read: LineRead, reply: &Reply) -> bool
    ensures { result ≡ ends_after mode read.stop reply.now }
{
    match read.stop {
        Stop::Newline => is_stopping(mode, reply),
        _ => true,
    }
}

/// Writes the last reply of a session, in place of one to the line of this number, and takes it in.
pub(crate) fn write_last<W: Write>(
    writer: &mut W,
    form: Form,
    line: u64,
    reply: &Reply,
    end: ScriptEnd,
) -> ScriptEnd
    ensures { EndsWith form line reply.now (W.contents writer.old) (W.contents writer.new) end result }
{
    let end = end.with_reply(reply);
    if form.write(writer, line, reply) {
        return end;
    }
    end.with_write_fault()
}

/// Ends a session after as many lines as it may have: with the input, or at the first byte too many or a fault.
fn end_after_last<R: Read, W: Write>(
    reader: &mut R,
    writer: &mut W,
    form: Form,
    end: ScriptEnd,
) -> ScriptEnd
    ensures { EndsAfterLast form (R.remaining reader.old) (R.remaining reader.new) (W.contents writer.old) (W.contents writer.new) end result }
{
    let refusal = match next_byte(reader) {
        ByteRead::End => return end,
        ByteRead::Byte(_) => Refusal::TooManyLines,
        ByteRead::Fault => Refusal::ReadFault,
    };
    let line = MOST_LINES as u64 + 1;
    write_last(writer, form, line, &Reply::Refused(refusal), end)
}

/// Runs a session: does what each line asks for, and replies to it before the next is read.
///
/// The session ends with the input, after a refused line under `OnRefusal::Stop`, at a fault of the reader or the
/// writer, of any kind, and at the first byte after `MOST_LINES` lines or after `LONGEST_UNENDED` bytes of a line. A
/// line of more than `LONGEST_LINE` bytes is refused. The observer is called before and after each line. The replies
/// are written in the given form.
pub fn run_session<X: Executor, R: Read, W: Write, O: Observer>(
    executor: &mut X,
    reader: &mut R,
    writer: &mut W,
    form: Form,
    mode: OnRefusal,
    observer: &mut O,
) -> ScriptEnd
    requires { X.fits executor.old }
    ensures fits { X.fits executor.new }
    ensures run { Explained X.stands executor.old executor.new (λ before after. RunsIn form X.turn X.may mode before after
        (R.remaining reader.old) (R.remaining reader.new) (W.contents writer.old) (W.contents writer.new) result) }
    ensures left { StandsForSome X.stands executor.old → StandsForSome X.stands executor.new }
    ensures keeps { X.keeps executor.old executor.new }
{
    let mut line = ArrayVec::<u8, LONGEST_LINE>::new();
    let mut end = ScriptEnd::OPENING;
    for count in 0..MOST_LINES {
        let read = next_line(reader, &mut line);
        if is_no_line(read) {
            return end;
        }
        let number = count as u64 + 1;
        observer.before(number);
        let text = line.as_slice();
        let reply = reply_to(executor, read, text);
        end = end.with_reply(&reply);
        let is_written = form.write(writer, number, &reply);
        observer.after(number, text, &reply);
        if !is_written {
            return end.with_write_fault();
        }
        if is_last(mode, read, &reply) {
            return end;
        }
    }
    executor.pass();
    end_after_last(reader, writer, form, end)
}
