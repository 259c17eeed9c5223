//! The runs of the program.
ghost use Rattle.std.specs.Prelude.{◌≡◌, ◌⊎◌, IfErr, IfOk, MatchResult, OnErr, None, option_map};
ghost use Rattle.std.specs.Io.Buffered.{reader_remaining};
ghost use Rattle.prt_refusals.specs.Opening.{IsOpenRefusal};
ghost use Rattle.prt_refusals.specs.declared.refusal.Refusal.{Refusal};
ghost use Rattle.prt_refusals.specs.declared.refusal.Refusal.TheVariants.{NoMemory, ReadFault};
ghost use Rattle.prt_program.specs.Faults.{IsDatabaseFault, IsFault, IsOpening, IsScriptFault, database_of};
ghost use Rattle.prt_program.specs.Program.{IfAsk, IfExit, IfServe, IfSubmit, IsUntouched, LeavesDatabases, LeavesInput, LeavesInputFor, Runs};
ghost use Rattle.prt_program.specs.Program.{RunsAt, RunsBatch, RunsCheck, RunsNothing, RunsOn, RunsOver, RunsReplay, exit_status};
ghost use Rattle.prt_program.specs.Program.{streams_of};
ghost use Rattle.prt_session.specs.Open.{IsOpenOn};
ghost use Rattle.prt_version.specs.State.{State};
ghost use Rattle.prt_args.specs.Read.{IsQuestionIn, IsServiceIn};
ghost use Rattle.prt_args.specs.Tasks.{IsAskedFor, IsServing};
ghost use Rattle.prt_args.specs.Invocation.{arguments, ask, invocation, serve};
ghost use Rattle.prt_args.specs.declared.fault.Fault.TheVariants.{Opening};
ghost use Rattle.prt_args.specs.declared.task.Task.TheVariants.{Submit};

use crate::databases::Databases;
use crate::error_keeping::ErrorKeeping;
use crate::host::{Host, HostOf, RunContext, StandardStreams};
use crate::messages::Messages;
use crate::next::Next;
use crate::read_files::ReadFiles;
use prt_args::{Batch, DONE, FAULT, Fault, Mode, STANDARD_INPUT, Task, read_words};
use prt_replay::run_replay;
use prt_session::{
    Desk, MemoryDesk, Observer, Refusal, ScriptEnd, check_lines, run_atomic, run_script,
};
use std::alloc::Global;
use std::io::{BufReader, IsTerminal, Read, Write};
use std::rt::Clock;

/// The exit status if a line was refused.
const REFUSED: u8 = 1;

/// Chooses the exit status of a run.
pub fn exit_status(end: ScriptEnd) -> u8
    ensures { result ≡ exit_status end }
{
    match end.fault {
        Some(_) => FAULT,
        None if end.refused => REFUSED,
        None => DONE,
    }
}

/// Runs a script over a desk, line by line or all its commands together, and returns the exit status of the session.
fn run_over<H: Host, D: Desk, R: Read>(
    alloc: Global,
    desk: &mut D,
    reader: &mut R,
    output: &mut H::Output,
    mode: Mode,
    messages: &mut Messages<'_, H::Errors, H::Clock>,
) -> u8
    ensures run { (opened : State) → IsOpenOn D.stands desk.old opened →
        RunsOn D.stands D.may mode opened desk.new (streams_of (R.remaining reader.old) (H.Output.contents output.old) (H.Output.contents output.new)) result }
    ensures keeps { D.keeps desk.old desk.new }
{
    let end = match mode {
        Mode::InTurn(on_refusal) => run_script(alloc, desk, reader, output, on_refusal, messages),
        Mode::Together => run_atomic(alloc, desk, reader, output, messages),
    };
    messages.count_refusal(end);
    exit_status(end)
}

/// Opens the database at a path.
fn open_database<B: Databases, E: Write + Drop, K: Clock + Drop>(
    alloc: Global,
    databases: &mut B,
    path: &str,
    messages: &mut Messages<'_, E, K>,
) -> Result<B::Opened, Fault>
    ensures opened { IfOk result (λ desk. (opened : State) × B.holds databases.old path.now opened × IsOpenOn B.Opened.stands desk opened) }
    ensures opens { IfOk result (λ desk. B.opens databases.old databases.new path.now desk) }
    ensures fault { IfErr result (IsOpening IsOpenRefusal) }
    ensures refused { OnErr result ((reason : Refusal) × B.refuses databases.old databases.new path.now reason) }
{
    match databases.open(alloc, path) {
        Ok(desk) => Ok(desk),
        Err((refusal, error)) => {
            if let Some(error) = error {
                messages.keep_cause(path, &error);
            }
            Err(Fault::Opening(refusal))
        }
    }
}

/// Puts a block buffer round an input, of which a session takes its bytes one by one.
///
/// # Errors
///
/// `Opening` with `NoMemory`.
pub fn buffered<R: Read + Drop>(alloc: Global, input: R) -> Result<BufReader<R>, Fault>
    ensures bytes { IfOk result (λ reader. reader_remaining R.remaining reader ≡ R.remaining input) }
    ensures fault { IfErr result (λ fault. fault ≡ Opening NoMemory) }
{
    match BufReader::new(alloc, input) {
        Ok(reader) => Ok(reader),
        Err(_) => Err(Fault::Opening(Refusal::NoMemory)),
    }
}

/// Runs a script over the database that is asked for, and returns the exit status of the session.
pub(crate) fn run_batch<H: Host, R: Read + Drop>(
    around: &mut RunContext<'_, '_, H>,
    database: Option<&str>,
    input: R,
    mode: Mode,
    messages: &mut Messages<'_, H::Errors, H::Clock>,
) -> Result<u8, Fault>
    ensures run { IfOk result (RunsBatch (RunsAt H.Databases.holds H.Databases.opens H.Databases.closed H.Databases.leaves
        H.Databases.Opened.stands H.Databases.Opened.keeps H.Databases.Opened.may around.old.databases.now around.new.databases.now)
        (option_map (λ path. path.now) database.entry) mode
        (streams_of (R.remaining input) (H.Output.contents around.old.output.now) (H.Output.contents around.new.output.now))) }
    ensures fault { IfErr result (IsOpening (IsDatabaseFault (option_map (λ path. path.now) database.entry))) }
    ensures unopened { option_map (λ path. path.now) database.entry ≡ None → around.new.databases.now ≡ around.old.databases.now }
    ensures untouched { OnErr result
        (IsUntouched H.Databases.refuses (option_map (λ path. path.now) database.entry) around.old.databases.now around.new.databases.now) }
    ensures unwritten { OnErr result (H.Output.contents around.new.output.now ≡ H.Output.contents around.old.output.now) }
    ensures same { (around.new.databases.ghost_name ≡ around.old.databases.ghost_name) × (around.new.output.ghost_name ≡ around.old.output.ghost_name) }
{
    let alloc = around.alloc;
    let mut reader = buffered(alloc, input)?;
    match database {
        Some(path) => {
            let mut desk = open_database(alloc, around.databases, path, messages)?;
            let status = run_over::<H, _, _>(
                alloc,
                &mut desk,
                &mut reader,
                around.output,
                mode,
                messages,
            );
            messages.tell_commit(path, &around.databases.failure(&desk));
            let closed = around.databases.close(desk);
            messages.tell_closing(path, &closed);
            Ok(status)
        }
        None => {
            let mut desk = MemoryDesk::opening(alloc)?;
            Ok(run_over::<H, _, _>(alloc, &mut desk, &mut reader, around.output, mode, messages))
        }
    }
}

/// Checks a script, and returns the exit status.
fn check<R: Read + Drop, W: Write, O: Observer>(
    alloc: Global,
    input: R,
    output: &mut W,
    observer: &mut O,
) -> Result<u8, Fault>
    ensures run { IfOk result (RunsCheck (streams_of (R.remaining input) (W.contents output.old) (W.contents output.new))) }
    ensures fault { IfErr result (λ fault. fault ≡ Opening NoMemory) }
    ensures unwritten { OnErr result (W.contents output.new ≡ W.contents output.old) }
{
    let mut reader = buffered(alloc, input)?;
    Ok(exit_status(check_lines(&mut reader, output, observer)))
}

/// Replays a list of events, and returns the exit status.
fn replay<R: Read, W: Write, O: Observer>(
    alloc: Global,
    input: &mut R,
    output: &mut W,
    observer: &mut O,
) -> u8
    ensures { RunsReplay (streams_of (R.remaining input.old) (W.contents output.old) (W.contents output.new)) result }
{
    exit_status(run_replay(alloc, input, output, observer))
}

/// Opens the file of this path.
fn open_file<F: ReadFiles, E: Write + Drop, K: Clock + Drop>(
    files: &F,
    path: &str,
    messages: &mut Messages<'_, E, K>,
) -> Result<F::Opened, Fault>
    ensures opens { IfOk result (F.opens files.now path.now) }
    ensures fault { IfErr result (λ fault. fault ≡ Opening ReadFault) }
{
    match files.open_to_read(path) {
        Ok(file) => Ok(file),
        Err(error) => {
            messages.keep_cause(path, &error);
            Err(Fault::Opening(Refusal::ReadFault))
        }
    }
}

/// Runs the script that is asked for, over its file or the input: a file that can't be opened leaves no new database.
fn run_script_of<'a, H: Host, R: Read>(
    around: &mut RunContext<'_, '_, H>,
    batch: Batch<'a>,
    input: &mut R,
    messages: &mut Messages<'a, H::Errors, H::Clock>,
) -> Result<u8, Fault>
    ensures run { IfOk result (RunsOver (H.Files.opens around.old.files.now) H.Files.Opened.remaining
        (RunsBatch (RunsAt H.Databases.holds H.Databases.opens H.Databases.closed H.Databases.leaves
        H.Databases.Opened.stands H.Databases.Opened.keeps H.Databases.Opened.may around.old.databases.now around.new.databases.now)
        (option_map (λ path. path.now) batch.entry.database) batch.entry.mode) (option_map (λ path. path.now) batch.entry.file)
        (streams_of (R.remaining input.old) (H.Output.contents around.old.output.now) (H.Output.contents around.new.output.now))) }
    ensures unread { LeavesInputFor (option_map (λ path. path.now) batch.entry.file) (R.remaining input.old) (R.remaining input.new) }
    ensures fault { IfErr result (IsOpening (IsScriptFault (option_map (λ path. path.now) batch.entry.database))) }
    ensures unopened { option_map (λ path. path.now) batch.entry.database ≡ None → around.new.databases.now ≡ around.old.databases.now }
    ensures untouched { OnErr result
        (IsUntouched H.Databases.refuses (option_map (λ path. path.now) batch.entry.database) around.old.databases.now around.new.databases.now) }
    ensures file_first { IfErr result (λ fault. fault ≡ Opening ReadFault → around.new.databases.now ≡ around.old.databases.now) }
    ensures unwritten { OnErr result (H.Output.contents around.new.output.now ≡ H.Output.contents around.old.output.now) }
    ensures same { (around.new.databases.ghost_name ≡ around.old.databases.ghost_name) × (around.new.output.ghost_name ≡ around.old.output.ghost_name) }
{
    let (database, mode) = (batch.database, batch.mode);
    if batch.is_verbose {
        messages.turn_on();
    }
    messages.begin(batch.file.unwrap_or(STANDARD_INPUT), &*around.output);
    let status = match batch.file {
        Some(path) => {
            let mut file = ErrorKeeping::new(open_file(around.files, path, messages)?);
            let status = run_batch(around, database, &mut file, mode, messages)?;
            messages.tell_failure(path, &file);
            status
        }
        None => run_batch(around, database, input, mode, messages)?,
    };
    messages.finish();
    Ok(status)
}

/// Checks the script that is asked for, of a file or of the input.
fn check_of<'a, H: Host, R: Read>(
    around: &mut RunContext<'_, '_, H>,
    path: Option<&'a str>,
    input: &mut R,
    messages: &mut Messages<'a, H::Errors, H::Clock>,
) -> Result<u8, Fault>
    ensures run { IfOk result (RunsOver (H.Files.opens around.old.files.now) H.Files.Opened.remaining RunsCheck (option_map (λ path. path.now) path.entry)
        (streams_of (R.remaining input.old) (H.Output.contents around.old.output.now) (H.Output.contents around.new.output.now))) }
    ensures unread { LeavesInputFor (option_map (λ path. path.now) path.entry) (R.remaining input.old) (R.remaining input.new) }
    ensures fault { IfErr result (IsOpening (IsScriptFault None)) }
    ensures unopened { around.new.databases.now ≡ around.old.databases.now }
    ensures unwritten { OnErr result (H.Output.contents around.new.output.now ≡ H.Output.contents around.old.output.now) }
    ensures same { (around.new.databases.ghost_name ≡ around.old.databases.ghost_name) × (around.new.output.ghost_name ≡ around.old.output.ghost_name) }
{
    messages.begin(path.unwrap_or(STANDARD_INPUT), &*around.output);
    let status = match path {
        Some(path) => {
            let mut script = ErrorKeeping::new(open_file(around.files, path, messages)?);
            let status = check(around.alloc, &mut script, around.output, messages)?;
            messages.tell_failure(path, &script);
            status
        }
        None => check(around.alloc, input, around.output, messages)?,
    };
    messages.finish();
    Ok(status)
}

/// Replays the events that are asked for, of a file or of the input.
fn replay_of<'a, H: Host, R: Read>(
    around: &mut RunContext<'_, '_, H>,
    path: Option<&'a str>,
    input: &mut R,
    messages: &mut Messages<'a, H::Errors, H::Clock>,
) -> Result<u8, Fault>
    ensures run { IfOk result (RunsOver (H.Files.opens around.old.files.now) H.Files.Opened.remaining RunsReplay (option_map (λ path. path.now) path.entry)
        (streams_of (R.remaining input.old) (H.Output.contents around.old.output.now) (H.Output.contents around.new.output.now))) }
    ensures unread { LeavesInputFor (option_map (λ path. path.now) path.entry) (R.remaining input.old) (R.remaining input.new) }
    ensures fault { IfErr result (λ fault. fault ≡ Opening ReadFault) }
    ensures unopened { around.new.databases.now ≡ around.old.databases.now }
    ensures unwritten { OnErr result (H.Output.contents around.new.output.now ≡ H.Output.contents around.old.output.now) }
    ensures same { (around.new.databases.ghost_name ≡ around.old.databases.ghost_name) × (around.new.output.ghost_name ≡ around.old.output.ghost_name) }
{
    messages.begin_replay(path.unwrap_or(STANDARD_INPUT));
    match path {
        Some(path) => {
            let mut events = ErrorKeeping::new(open_file(around.files, path, messages)?);
            let status = replay(around.alloc, &mut events, around.output, messages);
            messages.tell_failure(path, &events);
            Ok(status)
        }
        None => Ok(replay(around.alloc, input, around.output, messages)),
    }
}

/// Runs what the words ask for, and returns the exit status of the run. Sessions that are to be served, a script for a server,
/// and a question are handed back.
fn run_words<'a, H: Host, R: Read>(
    around: &mut RunContext<'_, '_, H>,
    words: &'a [String],
    input: &mut R,
    messages: &mut Messages<'a, H::Errors, H::Clock>,
) -> Result<Next<'a>, Fault>
    ensures run { IfOk result (IfExit (Runs (H.Files.opens around.old.files.now) H.Files.Opened.remaining
        (RunsAt H.Databases.holds H.Databases.opens H.Databases.closed H.Databases.leaves
        H.Databases.Opened.stands H.Databases.Opened.keeps H.Databases.Opened.may around.old.databases.now around.new.databases.now)
        (invocation (arguments words.now))
        (streams_of (R.remaining input.old) (H.Output.contents around.old.output.now) (H.Output.contents around.new.output.now)))) }
    ensures serve { IfOk result (IfServe
        (λ serving. (invocation (arguments words.now) ≡ serve (arguments words.now)) × IsServing serving
        × IsServiceIn (arguments words.now) serving × (H.Output.contents around.new.output.now ≡ H.Output.contents around.old.output.now))) }
    ensures submit { IfOk result (IfSubmit
        (λ submitting. IsAskedFor (arguments words.now) (invocation (arguments words.now)) (Submit submitting)
        × (H.Output.contents around.new.output.now ≡ H.Output.contents around.old.output.now))) }
    ensures ask { IfOk result (IfAsk
        (λ asked. (invocation (arguments words.now) ≡ ask (arguments words.now)) × IsQuestionIn (arguments words.now) asked
        × (H.Output.contents around.new.output.now ≡ H.Output.contents around.old.output.now))) }
    ensures unread { LeavesInput (invocation (arguments words.now)) (R.remaining input.old) (R.remaining input.new) }
    ensures fault { IfErr result (IsFault (invocation (arguments words.now))) }
    ensures unopened { LeavesDatabases (invocation (arguments words.now)) around.old.databases.now around.new.databases.now }
    ensures untouched { OnErr result
        (IsUntouched H.Databases.refuses (database_of (invocation (arguments words.now))) around.old.databases.now around.new.databases.now) }
    ensures file_first { IfErr result (λ fault. fault ≡ Opening ReadFault → around.new.databases.now ≡ around.old.databases.now) }
    ensures unwritten { OnErr result (H.Output.contents around.new.output.now ≡ H.Output.contents around.old.output.now) }
    ensures same { (around.new.databases.ghost_name ≡ around.old.databases.ghost_name) × (around.new.output.ghost_name ≡ around.old.output.ghost_name) }
{
    match read_words(around.alloc, words)? {
        Task::Batch(batch) => {
            let status = run_script_of(around, batch, input, messages)?;
            Ok(Next::Exit(status))
        }
        Task::Check(path) => {
            let status = check_of(around, path, input, messages)?;
            Ok(Next::Exit(status))
        }
        Task::Replay(path) => {
            let status = replay_of(around, path, input, messages)?;
            Ok(Next::Exit(status))
        }
        Task::Serve(serving) => Ok(Next::Serve(serving)),
        Task::Submit(submitting) => Ok(Next::Submit(submitting)),
        Task::Ask(asked) => Ok(Next::Ask(asked)),
    }
}

/// Runs the program with these words, the first of which is its own name, and returns its exit status.
///
/// `batch [--force | --atomic] [--db PATH] [--verbose] [FILE]` runs a script over the database at PATH or a new one in
/// memory; with `--atomic` all its changes are made together or none.
/// `check [FILE]` says which of its lines would be refused as they are, and `replay [FILE]` replays a list of events.
/// If a FILE is named, `input` is not read. Of `serve`, of `batch` with `--server`, and of a question (such as `get`) the
/// words are read and handed back; nothing is written then, and no database touched.
///
/// Without `--db` no database is opened. With it the one at PATH is opened, closed as the session left it, and nothing
/// else is done to any database. Each state that a later opening may find there is one that the session, which began with
/// the opened state, left stored; which those are `Databases` says. A refused opening is the only thing done to databases.
///
/// The status is 0 if nothing was refused and after help, 1 if a line was refused, and 2 for bad words. It is 3
/// for a fault of opening, of the store, of the reader or of the writer.
pub fn program<'a, F: ReadFiles + Clock, B: Databases, T: StandardStreams>(
    files: &F,
    databases: &mut B,
    alloc: Global,
    words: &'a [String],
    input: &mut T::Input,
    output: &mut T::Output,
    errors: &mut T::Errors,
) -> Next<'a>
    ensures run { IfExit (λ status.
        Runs (F.opens files.now) F.Opened.remaining
        (RunsAt B.holds B.opens B.closed B.leaves B.Opened.stands B.Opened.keeps B.Opened.may databases.old databases.new)
        (invocation (arguments words.now)) (streams_of (T.Input.remaining input.old) (T.Output.contents output.old) (T.Output.contents output.new)) status
        ⊎ RunsNothing B.refuses databases.old databases.new (invocation (arguments words.now)) (T.Output.contents output.old) (T.Output.contents output.new) status) result }
    ensures serve { IfServe (λ serving.
        (invocation (arguments words.now) ≡ serve (arguments words.now)) × IsServing serving × IsServiceIn (arguments words.now) serving
        × (T.Output.contents output.new ≡ T.Output.contents output.old)) result }
    ensures submit { IfSubmit (λ submitting.
        IsAskedFor (arguments words.now) (invocation (arguments words.now)) (Submit submitting)
        × (T.Output.contents output.new ≡ T.Output.contents output.old)) result }
    ensures ask { IfAsk (λ asked. (invocation (arguments words.now) ≡ ask (arguments words.now)) × IsQuestionIn (arguments words.now) asked
        × (T.Output.contents output.new ≡ T.Output.contents output.old)) result }
    ensures unread { LeavesInput (invocation (arguments words.now)) (T.Input.remaining input.old) (T.Input.remaining input.new) }
    ensures unopened { LeavesDatabases (invocation (arguments words.now)) databases.old databases.new }
{
    let is_terminal = errors.is_terminal();
    let mut messages = Messages::new(alloc, &mut *errors, files);
    if is_terminal {
        messages.turn_on();
    }
    let mut around: RunContext<'_, '_, HostOf<F, B, T::Output, &mut T::Errors, &F>> = RunContext {
        alloc,
        files,
        databases: &mut *databases,
        output: &mut *output,
    };
    match run_words(&mut around, words, input, &mut messages) {
        Ok(next) => next,
        Err(fault) => {
            let status = messages.report(&fault, output);
            Next::Exit(status)
        }
    }
}
