//! Atomic files: their commands are made together or not at all.
ghost use Rattle.std.specs.Prelude.{◌≤◌, ◌<◌, ◌+◌, ◌^◌, [], length};
ghost use Rattle.std.specs.List.{All};
ghost use Rattle.prt_command.specs.Storable.{IsStorable};
ghost use Rattle.prt_session.specs.Atomic.{AtomicIs, CollectMay, ReadIs, SubmittedIs, accepted_after, collect_turn};
ghost use Rattle.prt_replies.specs.Reply.{replies_text};
ghost use Rattle.prt_session.specs.Run.{RunIs};
ghost use Rattle.prt_session.specs.Stands.{Explained, StandsForSome};
ghost use Rattle.prt_session.specs.Steps.{AreSubmittable};
ghost use Rattle.prt_replies.specs.Written.{Written};

use crate::collector::Collector;
use crate::desk::Desk;
use crate::form::Form;
use crate::limits::MOST_TOGETHER;
use crate::session::{run_session, write_last};
use prt_command::Command;
use prt_refusals::OnRefusal;
use prt_replies::{Observer, Reply, ScriptEnd};
use std::alloc::Global;
use std::io::{Read, Write};

/// What was read of an atomic file.
#[derive(Drop)]
pub struct CommandsRead {
    /// How the reading ended: with a refusal or a fault, or well.
    pub end: ScriptEnd,
    /// The commands of the lines before that.
    pub commands: Vec<Command>,
}

/// Reads the lines of an atomic file, up to the first that is refused, and collects their commands. A refusal is all that
/// is written.
///
/// The lines are read as in `run_session`. Beyond what is refused of any line, a query is (`UnknownVerb`), and each command
/// after `MOST_TOGETHER` (`TooManyCommands`). The commands are kept in memory of `alloc`. The observer is called as in
/// `run_session`.
pub fn collect_commands<R: Read, W: Write, O: Observer>(
    alloc: Global,
    reader: &mut R,
    writer: &mut W,
    observer: &mut O,
) -> CommandsRead
    ensures run { RunIs collect_turn CollectMay OnRefusal.Stop [] result.commands.items
        (R.remaining reader.old) (R.remaining reader.new) (W.contents writer.old) (W.contents writer.new) result.end }
    ensures read { ReadIs result.commands.items (R.remaining reader.old) (R.remaining reader.new)
        (W.contents writer.old) (W.contents writer.new) result.end }
    ensures submittable { AreSubmittable result.commands.items }
{
    let mut collector = Collector::new(alloc);
    let end = run_session(
        &mut collector,
        reader,
        writer,
        Form::Plain,
        OnRefusal::Stop,
        observer,
    );
    CommandsRead {
        end,
        commands: collector.commands,
    }
}

/// Writes `ok N` for each of the `count` numbers after this one, and flushes each; returns whether all of it went well.
pub fn write_accepted<W: Write>(writer: &mut W, number: u64, count: usize) -> bool
    requires { number + count < 2 ^ 64 }
    ensures { Written result (W.contents writer.old) (W.contents writer.new) (replies_text (accepted_after number count)) }
{
    for done in 0..count {
        let reply = Reply::Accepted(number + done as u64 + 1);
        if !Form::Plain.write(writer, 0, &reply) {
            return false;
        }
    }
    true
}

/// Submits the commands of a file, and writes what comes of it.
fn submit<D: Desk, W: Write>(desk: &mut D, commands: &Vec<Command>, writer: &mut W) -> ScriptEnd
    requires some { 1 ≤ length commands.now.items }
    requires most { length commands.now.items ≤ MOST_TOGETHER }
    requires storable { All IsStorable commands.now.items }
    ensures run { Explained D.stands desk.old desk.new
        (λ before after. SubmittedIs D.may before after commands.now.items (W.contents writer.old) (W.contents writer.new) result) }
    ensures left { StandsForSome D.stands desk.old → StandsForSome D.stands desk.new }
    ensures keeps { D.keeps desk.old desk.new }
{
    let last = match desk.commands(commands) {
        Ok(last) => last,
        Err(refusal) => {
            return write_last(
                writer,
                Form::Plain,
                0,
                &Reply::Refused(refusal),
                ScriptEnd::OPENING,
            );
        }
    };
    let count = commands.len();
    let before = last.saturating_sub(count as u64);
    if write_accepted(writer, before, count) {
        return ScriptEnd::OPENING;
    }
    ScriptEnd::OPENING.with_write_fault()
}

/// Runs an atomic file over a desk: reads all its lines, and then makes its commands together, or none of them.
///
/// The lines are read as in `run_session`, up to the first that is refused. Beyond what is refused of any line, a query
/// is (`UnknownVerb`), and each command after `MOST_TOGETHER` (`TooManyCommands`); the commands are kept in memory of
/// `alloc`. A refusal, of a line or by the desk, is all that is written. If there is none, `ok N` is written for each
/// command, without memory. A file without commands writes nothing, and nothing is submitted. The observer is called as
/// in `run_session`; what comes of the commands is no reply to a line, and is not reported.
pub fn run_atomic<D: Desk, R: Read, W: Write, O: Observer>(
    alloc: Global,
    desk: &mut D,
    reader: &mut R,
    writer: &mut W,
    observer: &mut O,
) -> ScriptEnd
    ensures run { Explained D.stands desk.old desk.new (λ before after. AtomicIs D.may before after
        (R.remaining reader.old) (R.remaining reader.new) (W.contents writer.old) (W.contents writer.new) result) }
    ensures left { StandsForSome D.stands desk.old → StandsForSome D.stands desk.new }
    ensures keeps { D.keeps desk.old desk.new }
{
    let CommandsRead { end, commands } = collect_commands(alloc, reader, writer, observer);
    if end.refused || end.fault.is_some() || commands.is_empty() {
        return end;
    }
    submit(desk, &commands, writer)
}
