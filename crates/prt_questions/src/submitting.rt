//! Scripts whose commands a server makes together.
ghost use Rattle.std.specs.Prelude.{◌≡◌, ◌≢◌, ◌⊎◌, ◌++◌, IfErr, IfOk, IfSome, List, OnErr, Option, [], codes, ℕ};
ghost use Rattle.std.specs.Io.KnownBytes.{Appends};
ghost use Rattle.prt_questions.specs.Sources.{IsAtomicReply, IsFileOf, IsRead, path_of, sources_of};
ghost use Rattle.prt_questions.specs.Submitting.{EndsWith, IsAllMade, IsAnsweredBy, IsQuiet, IsReadOf, IsSent, IsSubmitted, IsVerdictOf, fault_by, refused_by};
ghost use Rattle.prt_refusals.specs.Refusal.{refusal_text};
ghost use Rattle.prt_refusals.specs.declared.refusal.Refusal.{Refusal};
ghost use Rattle.prt_refusals.specs.declared.refusal.Refusal.TheVariants.{NoMemory, ReadFault};
ghost use Rattle.prt_replies.specs.Reply.{replies_text};
ghost use Rattle.prt_replies.specs.declared.reply.Reply.{Reply};
ghost use Rattle.prt_session.specs.Atomic.{ReadIs};
ghost use Rattle.prt_args.specs.declared.fault.Fault.TheVariants.{Opening};

use crate::atomic::{accepts_each, exchange, expect_atomic, submission_text};
use crate::remote::ServerError;
use prt_args::{DONE, FAULT, Fault, STANDARD_INPUT, ServerPlace, Submitting};
use prt_machine::{LocalNet, Streams};
use prt_program::{
    ErrorKeeping, Messages, ReadFiles, Refusal, buffered, cause_message, exit_status,
};
use prt_refusals::StoreCall;
use prt_replies::{Observer, Reply, ScriptEnd, refused_line, write_bytes};
use prt_session::{CommandsRead, collect_commands};
use std::alloc::Global;
use std::io::{IsTerminal, Read, Write};
use std::rt::Clock;

/// Each refusal that a server may reply.
const REFUSALS: [Refusal; 34] = [
    Refusal::LineTooLong,
    Refusal::NotAscii,
    Refusal::UnknownObject,
    Refusal::UnknownVerb,
    Refusal::UnknownWord,
    Refusal::MissingValue,
    Refusal::Repeated,
    Refusal::BadAddress,
    Refusal::BadPrefix,
    Refusal::HostBits,
    Refusal::BadNumber,
    Refusal::BadTable,
    Refusal::BadName,
    Refusal::MissingDestination,
    Refusal::NoNextHop,
    Refusal::NextHopNotAllowed,
    Refusal::TooBroad,
    Refusal::SuppressNotAllowed,
    Refusal::TooManyCommands,
    Refusal::Closed,
    Refusal::Exists,
    Refusal::NoSuch,
    Refusal::Full,
    Refusal::CountFull,
    Refusal::Busy,
    Refusal::NoMemory,
    Refusal::StoreFailed(StoreCall::Commit),
    Refusal::NotPublished,
    Refusal::NotFetched,
    Refusal::Damaged,
    Refusal::OpenFailed,
    Refusal::ReadFault,
    Refusal::WriteFault,
    Refusal::TooManyLines,
];

/// Finds the refusal that a reply says, if that is all that it says.
fn refusal_in(reply: &[u8]) -> Option<Refusal>
    ensures { IfSome result (λ reason. reply.now ≡ refusal_text reason ++ codes "\n") }
{
    for refusal in REFUSALS {
        if refused_line(refusal).as_bytes() == reply {
            return Some(refusal);
        }
    }
    None
}

/// Finds what a server made of as many commands by its reply: all, or none for this reason.
///
/// # Errors
///
/// `Unknown` if the reply says neither: all of them may be made. `Tables` with `NoMemory`.
fn verdict(alloc: Global, reply: &[u8], count: usize) -> Result<Option<Refusal>, ServerError>
    ensures { IfOk result (λ refusal. (told : List Reply) × (reply.now ≡ replies_text told) × IsVerdictOf count refusal told) }
{
    if accepts_each(alloc, reply, count)? {
        return Ok(None);
    }
    match refusal_in(reply) {
        Some(refusal) => Ok(Some(refusal)),
        None => Err(ServerError::Unknown),
    }
}

/// Finds how a script ends whose commands were refused for this reason, or accepted.
fn end_of(refusal: Option<Refusal>) -> ScriptEnd
    ensures refused { result.refused ≡ refused_by refusal }
    ensures fault { result.fault ≡ fault_by refusal }
{
    match refusal {
        Some(reason) => {
            let reply = Reply::Refused(reason);
            ScriptEnd::OPENING.with_reply(&reply)
        }
        None => ScriptEnd::OPENING,
    }
}

/// Writes a reply that says this of the commands, and returns how the script ended.
fn write_verdict<W: Write>(reply: &[u8], refusal: Option<Refusal>, output: &mut W) -> ScriptEnd
    ensures { (told : List Reply) (count : ℕ) → told ≢ [] → reply.now ≡ replies_text told → IsVerdictOf count refusal told →
        EndsWith told (W.contents output.old) (W.contents output.new) result }
{
    let end = end_of(refusal);
    if write_bytes(output, reply) {
        return end;
    }
    end.with_write_fault()
}

/// Sends a server the commands of a script that was read, and writes its reply. There are some, and no line was refused.
///
/// # Errors
///
/// Why it is not known that it made all of them or none: nothing is written.
fn send_commands<N: LocalNet, W: Write>(
    rt: &N,
    alloc: Global,
    place: &ServerPlace<'_>,
    read: &CommandsRead,
    output: &mut W,
) -> Result<ScriptEnd, ServerError>
    requires quiet { IsQuiet read.now.end }
    requires some { read.now.commands.items ≢ [] }
    ensures sent { IfOk result (IsAnsweredBy (IsAtomicReply N.reaches N.Stream.remaining rt.now place.now) read.now.commands.items
        (W.contents output.old) (W.contents output.new)) }
    ensures unwritten { OnErr result (W.contents output.new ≡ W.contents output.old) }
{
    let commands = &read.commands;
    // A session would make the lines one by one. The name of a socket leaves no doubt.
    if let ServerPlace::Address(_) = place {
        expect_atomic(rt, alloc, place)?;
    }
    let sent = submission_text(alloc, commands)?;
    let reply = exchange(rt, alloc, place, &sent)?;
    let refusal = verdict(alloc, &reply, commands.len())?;
    Ok(write_verdict(&reply, refusal, output))
}

/// Has a server make the commands of a script that was read, unless a line was refused or there is none, and writes its reply.
///
/// # Errors
///
/// Why it is not known that it made all of them or none: nothing is written.
fn submit<N: LocalNet, W: Write>(
    rt: &N,
    alloc: Global,
    place: &ServerPlace<'_>,
    read: &CommandsRead,
    output: &mut W,
) -> Result<ScriptEnd, ServerError>
    ensures sent { IfOk result (IsSent (IsAtomicReply N.reaches N.Stream.remaining rt.now place.now) read.now (W.contents output.old) (W.contents output.new)) }
    ensures unwritten { OnErr result (W.contents output.new ≡ W.contents output.old) }
    ensures quiet { OnErr result (IsQuiet read.now.end) }
{
    let CommandsRead { end, commands } = read;
    if end.refused || end.fault.is_some() || commands.is_empty() {
        return Ok(*end);
    }
    send_commands(rt, alloc, place, read, output)
}

/// Reads a script up to the first line that is refused, and collects its commands; the refusal is written.
///
/// # Errors
///
/// `Opening` with `NoMemory`.
fn collect<R: Read + Drop, W: Write, O: Observer>(
    alloc: Global,
    input: R,
    output: &mut W,
    observer: &mut O,
) -> Result<CommandsRead, Fault>
    ensures read { IfOk result (λ read.
        (reader : Option (List ℕ)) × ReadIs read.commands.items (R.remaining input) reader (W.contents output.old) (W.contents output.new) read.end) }
    ensures fault { IfErr result (λ fault. fault ≡ Opening NoMemory) }
    ensures unwritten { OnErr result (W.contents output.new ≡ W.contents output.old) }
{
    let mut reader = buffered(alloc, input)?;
    Ok(collect_commands(alloc, &mut reader, output, observer))
}

/// Opens the script at a path.
///
/// # Errors
///
/// `Opening` with `ReadFault`; the messages keep the cause.
fn open_script<F: ReadFiles, E: Write + Drop, K: Clock + Drop>(
    files: &F,
    path: &str,
    messages: &mut Messages<'_, E, K>,
) -> Result<F::Opened, Fault>
    ensures opened { IfOk result (F.opens files.now path.now) }
    ensures fault { IfErr result (λ fault. fault ≡ Opening ReadFault) }
{
    match files.open_to_read(path) {
        Ok(file) => Ok(file),
        Err(error) => {
            messages.keep_cause(path, &error);
            Err(Fault::Opening(Refusal::ReadFault))
        }
    }
}

/// Reads a script, or the input if no file is named, and collects its commands; a refusal is written.
///
/// # Errors
///
/// `Opening` with `ReadFault` if the file can't be opened, or with `NoMemory`: nothing is written.
fn collect_script<'a, H: Streams, E: Write + Drop, K: Clock + Drop>(
    files: &H::Files,
    alloc: Global,
    file: Option<&'a str>,
    input: &mut H::Input,
    output: &mut H::Output,
    messages: &mut Messages<'a, E, K>,
) -> Result<CommandsRead, Fault>
    ensures read { IfOk result (IsReadOf
        (IsRead (IsFileOf H.Files.opens H.Files.Opened.remaining files.now) (H.Input.remaining input.old) (path_of file.entry))
        (H.Output.contents output.old) (H.Output.contents output.new)) }
    ensures fault { IfErr result (λ fault. (fault ≡ Opening ReadFault) ⊎ (fault ≡ Opening NoMemory)) }
    ensures unwritten { OnErr result (H.Output.contents output.new ≡ H.Output.contents output.old) }
{
    let Some(path) = file else {
        return collect(alloc, input, output, messages);
    };
    let mut script = ErrorKeeping::new(open_script(files, path, messages)?);
    let read = collect(alloc, &mut script, output, messages)?;
    messages.tell_failure(path, &script);
    Ok(read)
}

/// Reads a script, has a server make its commands together, and returns the exit status. The messages say how it ended.
fn submit_read<'a, H: Streams, N: LocalNet, E: Write + Drop, K: Clock + Drop>(
    files: &H::Files,
    rt: &N,
    alloc: Global,
    submitting: &Submitting<'a>,
    input: &mut H::Input,
    output: &mut H::Output,
    messages: &mut Messages<'a, E, K>,
) -> u8
    ensures run { IsSubmitted (sources_of H.Files.opens H.Files.Opened.remaining files.now N.reaches N.Stream.remaining rt.now
        (H.Input.remaining input.old)) submitting.now.server (path_of submitting.now.file) (H.Output.contents output.old)
        (H.Output.contents output.new) result }
    ensures whole { result ≡ DONE →
        IsAllMade (sources_of H.Files.opens H.Files.Opened.remaining files.now N.reaches N.Stream.remaining rt.now
        (H.Input.remaining input.old)) submitting.now.server (path_of submitting.now.file) (H.Output.contents output.old)
        (H.Output.contents output.new) }
{
    let read = match collect_script::<H, _, _>(
        files,
        alloc,
        submitting.file,
        input,
        output,
        messages,
    ) {
        Ok(read) => read,
        Err(fault) => return messages.report(&fault, output),
    };
    match submit(rt, alloc, &submitting.server, &read, output) {
        Ok(end) => {
            messages.count_refusal(end);
            messages.finish();
            exit_status(end)
        }
        Err(reason) => {
            messages.tell(cause_message(alloc, &submitting.server, &reason));
            FAULT
        }
    }
}

/// Has a server make the commands of a script together, writes what it replies, and returns the exit status.
///
/// The script is read as by `run_atomic`, and its first refusal is all that is written; then nothing is sent, and so it is of a
/// script without commands. Its commands are sent in one atomic script, which changes nothing if it is cut off.
///
/// The status is 0 if all are accepted, 1 if a line or the server refuses them, and 3 for a fault. It is 3 too if the
/// server isn't reached, takes no atomic scripts or doesn't reply: the messages say if the commands may be made nevertheless.
pub fn submit_script<H: Streams, N: LocalNet>(
    files: &H::Files,
    rt: &N,
    alloc: Global,
    submitting: &Submitting<'_>,
    input: &mut H::Input,
    output: &mut H::Output,
    errors: &mut H::Errors,
) -> u8
    ensures run { IsSubmitted (sources_of H.Files.opens H.Files.Opened.remaining files.now N.reaches N.Stream.remaining rt.now
        (H.Input.remaining input.old)) submitting.now.server (path_of submitting.now.file) (H.Output.contents output.old)
        (H.Output.contents output.new) result }
    ensures whole { result ≡ DONE →
        IsAllMade (sources_of H.Files.opens H.Files.Opened.remaining files.now N.reaches N.Stream.remaining rt.now
        (H.Input.remaining input.old)) submitting.now.server (path_of submitting.now.file) (H.Output.contents output.old)
        (H.Output.contents output.new) }
{
    let is_told = submitting.is_verbose || errors.is_terminal();
    let mut messages = Messages::new(alloc, &mut *errors, files);
    if is_told {
        messages.turn_on();
    }
    messages.begin(submitting.file.unwrap_or(STANDARD_INPUT), &*output);
    submit_read::<H, _, _, _>(files, rt, alloc, submitting, input, output, &mut messages)
}
