//! Replays of lists of events.
ghost use Rattle.std.specs.Prelude.{◌≡◌, List, Err, MatchResult, Ok, true};
ghost use Rattle.prt_replay.specs.Replay.{Finds, ReplayIs, fault_by, is_refusal};
ghost use Rattle.prt_replay.specs.ReadEvents.{events_of};
ghost use Rattle.prt_replay.specs.Replay.{answer_to};
ghost use Rattle.prt_replay.specs.declared.event.Event.{Event};

use crate::play::play_events;
use crate::replay_file::{LONGEST_REPLAY, first_refused, read_events};
use crate::text::trace_text;
use prt_command::LONGEST_LINE;
use prt_refusals::Refusal;
use prt_replies::{Observer, Reply, ScriptEnd, Text, write_reply};
use std::alloc::Global;
use std::io::{Read, Write};

/// How many bytes are asked for by one call of the reader.
const BLOCK: usize = 65_536;

/// Reads a replay file: all of it, or of one that is too long what shows that.
fn read_file<R: Read>(alloc: Global, reader: &mut R) -> Result<Vec<u8>, Refusal>
    ensures { MatchResult result
        (λ bytes. Finds (R.remaining reader.old) (events_of bytes.items))
        (λ reason. Finds (R.remaining reader.old) (Err reason)) }
{
    let mut bytes = Vec::new(alloc);
    let mut block = [0u8; BLOCK];
    while bytes.len() <= LONGEST_REPLAY {
        // One byte too many shows that the file is too long.
        let room = (LONGEST_REPLAY + 1 - bytes.len()).min(BLOCK);
        let count = match reader.read(&mut block[..room]) {
            Ok(0) => return Ok(bytes),
            Ok(count) => count,
            Err(_) => return Err(Refusal::ReadFault),
        };
        bytes.extend_from_slice(&block[..count])?;
    }
    Ok(bytes)
}

/// Reports to an observer the line for which a file was refused.
///
/// If there are too many lines or events, or memory was refused, it is no line's own fault, and none is reported.
fn tell_refused<O: Observer>(alloc: Global, bytes: &[u8], refusal: Refusal, observer: &mut O) {
    if let Refusal::TooManyLines | Refusal::NoMemory = refusal {
        return;
    }
    if let Some((number, line)) = first_refused(alloc, bytes) {
        let text = &line[..line.len().min(LONGEST_LINE)];
        observer.after(number, text, &Reply::Refused(refusal));
    }
}

/// Makes the text of the trace of a replay file.
///
/// # Errors
///
/// `TooManyLines` if the file is too long, `ReadFault` if it can't be read to its end, the refusal of its first
/// refused line, or `NoMemory`.
fn trace_of<R: Read, O: Observer>(
    alloc: Global,
    reader: &mut R,
    observer: &mut O,
) -> Result<Vec<u8>, Refusal>
    ensures { MatchResult result
        (λ text. (events : List Event) × Finds (R.remaining reader.old) (Ok events) × (text.items ≡ answer_to (Ok events)))
        (λ reason. Finds (R.remaining reader.old) (Err reason)) }
{
    let bytes = read_file(alloc, reader)?;
    let events = match read_events(alloc, bytes.as_slice()) {
        Ok(events) => events,
        Err(refusal) => {
            tell_refused(alloc, bytes.as_slice(), refusal, observer);
            return Err(refusal);
        }
    };
    let trace = play_events(alloc, events.as_slice())?;
    trace_text(alloc, &trace)
}

/// Determines how a replay ends whose answer is written.
fn end_with(answer: &Result<Vec<u8>, Refusal>) -> ScriptEnd
    ensures refused { result.refused ≡ is_refusal answer.now }
    ensures fault { result.fault ≡ fault_by true answer.now }
{
    let (refused, fault) = match answer {
        Ok(_) => (false, None),
        Err(Refusal::ReadFault) => (false, Some(Refusal::ReadFault)),
        Err(_) => (true, None),
    };
    ScriptEnd { refused, fault }
}

/// Replays a list of events, one a line, from a new database with no looker online, and writes what came of each.
///
/// The whole file is read first, of at most `LONGEST_REPLAY` bytes. A file that is longer or can't be read to its end
/// is answered by the one line `error C NAME` in place of the trace. So are a line that is refused, and want of memory.
/// `refused` says that there is such an answer, `fault` is `ReadFault` in its place if the reader failed, and
/// `WriteFault` if the writer failed: then a part of the answer was written.
///
/// The refused line, if there is one, is reported to the observer before the answer is written.
pub fn run_replay<R: Read, W: Write, O: Observer>(
    alloc: Global,
    reader: &mut R,
    writer: &mut W,
    observer: &mut O,
) -> ScriptEnd
    ensures { ReplayIs (R.remaining reader.old) (W.contents writer.old) (W.contents writer.new) result }
{
    let answer = trace_of(alloc, reader, observer);
    let end = end_with(&answer);
    let reply = match answer {
        Ok(text) => Reply::Answered(Text::new(text)),
        Err(refusal) => Reply::Refused(refusal),
    };
    if write_reply(writer, &reply) {
        return end;
    }
    end.with_write_fault()
}
