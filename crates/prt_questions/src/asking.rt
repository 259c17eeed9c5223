//! Questions to a database, to the server that has it, or to what a script makes.
ghost use Rattle.std.specs.Prelude.{◌≡◌, ◌⊎◌, IfErr, IfOk, IfSome, List, Ok, false, true, ℕ};
ghost use Rattle.std.specs.Io.KnownBytes.{Appends};
ghost use Rattle.prt_ask.specs.Answers.{is_whole_change};
ghost use Rattle.prt_ask.specs.Questions.{question};
ghost use Rattle.prt_questions.specs.Asking.{HasAnswered, HasAnsweredAtMost, IsAnswered, IsAnsweredAtMost, IsAskedAt, IsCutOff, IsNotOpened, IsQuery};
ghost use Rattle.prt_questions.specs.Asking.{IsReplied, IsRepliedAtMost, IsTold, IsWholeAnswer, with_labels, named_answer};
ghost use Rattle.prt_questions.specs.LeftOut.{AreKernels};
ghost use Rattle.prt_import.specs.Accepted.{IsExecuted};
ghost use Rattle.prt_import.specs.TableNames.{names_of};
ghost use Rattle.prt_questions.specs.Sources.{AreTold, IsFileOf, IsRead, IsReply, path_of, sources_of};
ghost use Rattle.prt_replies.specs.Written.{Written};
ghost use Rattle.prt_questions.specs.ServerAnswers.{IsQueryLine, IsSaidOf};
ghost use Rattle.prt_version.specs.State.{State};
ghost use Rattle.prt_args.specs.declared.asking.Source.TheVariants.{Server};

use crate::inquiry::{Inquiry, named_answer, with_labels};
use crate::left::{or_left, tell_left, tell_left_out};
use crate::reading::{names_for, read_whole, report_no_memory};
use crate::remote::{ServerAnswer, ask_line, read_tables};
use prt_args::{DONE, FAULT, Form, QueryArgs, STANDARD_INPUT, ServerPlace, Source};
use prt_ask::{AnswerError, Answered, Question, question_of};
use prt_import::{Accepted, accept};
use prt_machine::{
    DatabaseFiles, DatabaseOpener, Host, LocalNet, Streams, Wanted, close_at, open_desk,
    report_unopened, tell,
};
use prt_program::{Refusal, cause_message, question_message};
use prt_replies::{Reply, Text, write_reply};
use std::alloc::{AllocError, Global};
use std::fmt::Display;
use std::io::Write;

/// The exit status if the words ask nothing, if a rule or a route has no line, if a line is refused or can't be kept, and if
/// anything differs.
pub const REFUSED: u8 = 1;

/// What is reported of a script that looks like a listing.
const LISTING: &[u8] =
    b"prt: this is what `ip` prints, and no script: run `prt import` over it first\n";

/// Makes the message of a row of listings that no line can express.
fn row_message<P: Display>(
    alloc: Global,
    place: &P,
    listing: &str,
    row: usize,
) -> Result<String, AllocError> {
    let row = row.saturating_add(1);
    format!(in alloc; "prt: {place}: line {row} of `{listing}`: no command can give it this name\n")
}

/// Makes the message of why there is no answer.
pub(crate) fn none_message<P: Display>(
    alloc: Global,
    place: &P,
    reason: AnswerError,
) -> Result<String, AllocError> {
    match reason {
        AnswerError::Rule(row) => row_message(alloc, place, "rule show", row),
        AnswerError::Route(row) => row_message(alloc, place, "route show table all", row),
        AnswerError::Refused(refusal) => {
            format!(in alloc; "prt: {place}: a change is refused over the listing: {refusal}\n")
        }
        AnswerError::Gap => format!(in alloc; "prt: {place}: the feed left a change out\n"),
        AnswerError::Change => {
            format!(in alloc; "prt: {place}: a change has a name that no command can give\n")
        }
        AnswerError::NoMemory => {
            let refusal = Refusal::NoMemory;
            format!(in alloc; "prt: {place}: {refusal}\n")
        }
    }
}

/// Reports why there is no answer, and returns the exit status for it.
pub(crate) fn report_none<P: Display, W: Write, E: Write>(
    alloc: Global,
    place: &P,
    reason: AnswerError,
    output: &mut W,
    errors: &mut E,
) -> u8
    ensures status { (result ≡ REFUSED) ⊎ (result ≡ FAULT) }
    ensures unwritten { W.contents output.new ≡ W.contents output.old }
{
    if let AnswerError::NoMemory = reason {
        return report_no_memory(output, errors);
    }
    tell(none_message(alloc, place, reason), errors);
    REFUSED
}

/// Writes a text, and returns the exit status for it: `DONE` if all of it was written, else `FAULT`.
pub(crate) fn write_text<W: Write>(text: Vec<u8>, output: &mut W) -> u8
    ensures status { (result ≡ DONE) ⊎ (result ≡ FAULT) }
    ensures whole { result ≡ DONE → Appends (W.contents output.old) (W.contents output.new) text.items }
    ensures part { Written false (W.contents output.old) (W.contents output.new) text.items }
{
    if write_reply(output, &Reply::Answered(Text::new(text))) {
        DONE
    } else {
        FAULT
    }
}

/// Writes an answer, reports what is to be reported of it, and returns the exit status: `REFUSED` if all of it was written,
/// and a rule or a route stays that should go, or isn't brought.
pub(crate) fn write_made<W: Write, E: Write>(made: Answered, output: &mut W, errors: &mut E) -> u8
    ensures status { (result ≡ DONE) ⊎ ((result ≡ REFUSED) ⊎ (result ≡ FAULT)) }
    ensures whole { (result ≡ DONE) ⊎ (result ≡ REFUSED) → Appends (W.contents output.old) (W.contents output.new) made.text.items }
    ensures part { Written false (W.contents output.old) (W.contents output.new) made.text.items }
    ensures change { result ≡ DONE → is_whole_change made.notes ≡ true }
{
    let Answered { text, notes } = made;
    // Of lines that change nothing it isn't news what they leave alone.
    let with_outside = !text.is_empty();
    tell(notes.messages(with_outside), errors);
    let written = write_text(text, output);
    if written == DONE && !notes.is_whole_change() {
        return REFUSED;
    }
    written
}

/// Writes an answer of the tables at a place, or reports why there is none, and returns the exit status.
fn write_answer<P: Display, W: Write, E: Write>(
    alloc: Global,
    place: &P,
    answered: Result<Answered, AnswerError>,
    output: &mut W,
    errors: &mut E,
) -> u8
    ensures status { (result ≡ DONE) ⊎ ((result ≡ REFUSED) ⊎ (result ≡ FAULT)) }
    ensures whole { (text : List ℕ) → IfOk answered (λ made. made.text.items ≡ text) → result ≡ DONE →
        Appends (W.contents output.old) (W.contents output.new) text }
    ensures part { (text : List ℕ) → IfOk answered (λ made. made.text.items ≡ text) → IsCutOff text (W.contents output.old) (W.contents output.new) }
    ensures change { result ≡ DONE → (made : Answered) × (answered ≡ Ok made) × (is_whole_change made.notes ≡ true) }
{
    match answered {
        Ok(made) => write_made(made, output, errors),
        Err(reason) => report_none(alloc, place, reason, output, errors),
    }
}

/// Asks the database at a path, which is opened and closed, and returns the exit status.
fn ask_database<H: Host, W: Write>(
    databases: &mut DatabaseFiles<'_, H>,
    alloc: Global,
    path: &str,
    inquiry: &Inquiry<'_>,
    output: &mut W,
    errors: &mut H::Errors,
) -> u8
    ensures status { (result ≡ DONE) ⊎ ((result ≡ REFUSED) ⊎ (result ≡ FAULT)) }
    ensures whole { result ≡ DONE →
        IsAskedAt H.Store.Store H.Opener.DatabaseOpener databases.old.opener databases.new.opener path.now
        (λ state. Appends (W.contents output.old) (W.contents output.new) (named_answer inquiry.now state) × IsWholeAnswer inquiry.now.question state) }
    ensures there { result ≡ DONE → H.Opener.is_there databases.old.opener path.now }
    ensures at_most { (IsNotOpened H.Store.Store H.Opener.DatabaseOpener databases.old.opener databases.new.opener Wanted.Ours path.now
        × (W.contents output.new ≡ W.contents output.old))
        ⊎ IsAskedAt H.Store.Store H.Opener.DatabaseOpener databases.old.opener databases.new.opener path.now
        (λ state. IsCutOff (named_answer inquiry.now state) (W.contents output.old) (W.contents output.new)) }
{
    let rt = databases.rt;
    let opened = open_desk(&mut databases.opener, rt, alloc, path, Wanted::Ours);
    let desk = match opened {
        Ok(desk) => desk,
        Err(refused) => return report_unopened(alloc, path, refused, output, errors),
    };
    let answered = named_answer(alloc, desk.version(), inquiry);
    close_at(&mut databases.opener, alloc, path, desk.end(), errors);
    write_answer(alloc, &path, answered, output, errors)
}

/// Asks the tables that a server sends at a place, and returns the exit status.
fn ask_by_tables<N: LocalNet, W: Write, E: Write>(
    rt: &N,
    alloc: Global,
    place: &ServerPlace<'_>,
    inquiry: &Inquiry<'_>,
    output: &mut W,
    errors: &mut E,
) -> u8
    ensures status { (result ≡ DONE) ⊎ ((result ≡ REFUSED) ⊎ (result ≡ FAULT)) }
    ensures whole { result ≡ DONE →
        (told : State) × AreTold N.reaches N.Stream.remaining rt.now place.now told
        × Appends (W.contents output.old) (W.contents output.new) (named_answer inquiry.now told) × IsWholeAnswer inquiry.now.question told }
    ensures part { (W.contents output.new ≡ W.contents output.old)
        ⊎ ((told : State) × AreTold N.reaches N.Stream.remaining rt.now place.now told
        × IsCutOff (named_answer inquiry.now told) (W.contents output.old) (W.contents output.new)) }
{
    match read_tables(rt, alloc, place) {
        Ok(version) => {
            let answered = named_answer(alloc, &version, inquiry);
            write_answer(alloc, place, answered, output, errors)
        }
        Err(reason) => {
            tell(cause_message(alloc, place, &reason), errors);
            FAULT
        }
    }
}

/// Returns what a server said to an inquiry, with the labels of tables that it asks for.
fn named_reply(
    alloc: Global,
    told: ServerAnswer,
    inquiry: &Inquiry<'_>,
) -> Result<Vec<u8>, AnswerError>
    ensures { IfOk result (λ text. IsSaidOf told inquiry.now text.items) }
{
    match told {
        ServerAnswer::Tables(version) => match named_answer(alloc, &version, inquiry) {
            Ok(made) => Ok(made.text),
            Err(reason) => Err(reason),
        },
        ServerAnswer::Reply(reply) => with_labels(alloc, inquiry, reply),
    }
}

/// Sends a server the line of an inquiry, which is a query, and returns the exit status. A session replies to it. A feed sends
/// its tables, and they are asked.
fn ask_by_line<N: LocalNet, W: Write, E: Write>(
    rt: &N,
    alloc: Global,
    place: &ServerPlace<'_>,
    line: &[u8],
    inquiry: &Inquiry<'_>,
    output: &mut W,
    errors: &mut E,
) -> u8
    requires { IsQueryLine line.now }
    ensures status { (result ≡ DONE) ⊎ ((result ≡ REFUSED) ⊎ (result ≡ FAULT)) }
    ensures whole { result ≡ DONE →
        (text : List ℕ) × IsTold (AreTold N.reaches N.Stream.remaining rt.now place.now)
        (IsReply N.reaches N.Stream.remaining rt.now place.now line.now) inquiry.now text
        × Appends (W.contents output.old) (W.contents output.new) text }
    ensures part { (W.contents output.new ≡ W.contents output.old)
        ⊎ ((text : List ℕ) × IsTold (AreTold N.reaches N.Stream.remaining rt.now place.now)
        (IsReply N.reaches N.Stream.remaining rt.now place.now line.now) inquiry.now text
        × IsCutOff text (W.contents output.old) (W.contents output.new)) }
{
    let told = match ask_line(rt, alloc, place, line) {
        Ok(told) => told,
        Err(reason) => {
            tell(cause_message(alloc, place, &reason), errors);
            return FAULT;
        }
    };
    match named_reply(alloc, told, inquiry) {
        Ok(text) => write_text(text, output),
        Err(reason) => report_none(alloc, place, reason, output, errors),
    }
}

/// Finds the server that is queried by a line: its session or its feed.
fn server_for_line<'a>(source: &Source<'a>, question: &Question<'_>) -> Option<ServerPlace<'a>>
    ensures { IfSome result (λ place. (source.now ≡ Server place) × IsQuery question.now) }
{
    match (source, question) {
        (Source::Server(place), Question::Query(_, Form::Lines)) => Some(*place),
        _ => None,
    }
}

/// Checks whether a script begins as what `ip` prints does, and none of its lines was accepted.
fn is_listing(script: &[u8], made: &Accepted) -> bool {
    let begins = match script.first() {
        Some(first) => first.is_ascii_digit() || script.starts_with(b"default "),
        None => false,
    };
    begins && made.script.is_empty()
}

/// Executes a script over a new database, and leaves out each line that is refused. If all are, and it looks like a listing,
/// that is reported.
///
/// # Errors
///
/// The exit status, if memory is refused.
pub(crate) fn run_over_new<W: Write, E: Write>(
    alloc: Global,
    script: &[u8],
    output: &mut W,
    errors: &mut E,
) -> Result<Accepted, u8>
    ensures made { IfOk result (λ made. IsExecuted made script.now) }
    ensures fault { IfErr result (λ status. status ≡ FAULT) }
    ensures unwritten { W.contents output.new ≡ W.contents output.old }
{
    match accept(alloc, script) {
        Ok(accepted) => {
            if is_listing(script, &accepted) {
                let _ = errors.write_all(LISTING);
            }
            Ok(accepted)
        }
        Err(_) => Err(report_no_memory(output, errors)),
    }
}

/// Asks what a script makes of a new database, tells which of its lines are refused and what its comments say was left out,
/// and returns the exit status.
fn ask_script<H: Streams, W: Write>(
    files: &H::Files,
    alloc: Global,
    file: Option<&str>,
    inquiry: &Inquiry<'_>,
    input: &mut H::Input,
    output: &mut W,
    errors: &mut H::Errors,
) -> u8
    ensures status { (result ≡ DONE) ⊎ ((result ≡ REFUSED) ⊎ (result ≡ FAULT)) }
    ensures whole { result ≡ DONE →
        (made : Accepted) × (text : List ℕ)
        × IsRead (IsFileOf H.Files.opens H.Files.Opened.remaining files.now) (H.Input.remaining input.old) (path_of file.entry) text
        × IsExecuted made text × AreKernels made.left.items
        × Appends (W.contents output.old) (W.contents output.new) (named_answer inquiry.now made.version) × IsWholeAnswer inquiry.now.question made.version }
    ensures part { (W.contents output.new ≡ W.contents output.old)
        ⊎ ((made : Accepted) × (text : List ℕ)
        × IsRead (IsFileOf H.Files.opens H.Files.Opened.remaining files.now) (H.Input.remaining input.old) (path_of file.entry) text
        × IsExecuted made text × IsCutOff (named_answer inquiry.now made.version) (W.contents output.old) (W.contents output.new)) }
{
    let script = match read_whole::<H, _>(files, alloc, file, input, output, errors) {
        Ok(script) => script,
        Err(status) => return status,
    };
    let made = match run_over_new(alloc, &script, output, errors) {
        Ok(made) => made,
        Err(status) => return status,
    };
    let left = tell_left(alloc, file, &made.left, errors);
    let place = file.unwrap_or(STANDARD_INPUT);
    let answered = named_answer(alloc, &made.version, inquiry);
    let written = write_answer(alloc, &place, answered, output, errors);
    if written == DONE {
        tell_left_out(alloc, place, &script, &inquiry.question, errors);
    }
    or_left(written, left)
}

/// Asks the tables at a source, and returns the exit status.
pub(crate) fn ask_source<H: Host, W: Write>(
    databases: &mut DatabaseFiles<'_, H>,
    alloc: Global,
    source: &Source<'_>,
    inquiry: &Inquiry<'_>,
    input: &mut H::Input,
    output: &mut W,
    errors: &mut H::Errors,
) -> u8
    ensures status { (result ≡ DONE) ⊎ ((result ≡ REFUSED) ⊎ (result ≡ FAULT)) }
    ensures whole { result ≡ DONE →
        IsAnswered H.Store.Store H.Opener.DatabaseOpener
        (sources_of H.Files.opens H.Files.Opened.remaining databases.old.files.now H.Net.reaches H.Net.Stream.remaining databases.old.rt
        (H.Input.remaining input.old)) databases.old.opener databases.new.opener (W.contents output.old)
        (W.contents output.new) source.now (named_answer inquiry.now) (IsWholeAnswer inquiry.now.question) }
    ensures at_most { IsAnsweredAtMost H.Store.Store H.Opener.DatabaseOpener
        (sources_of H.Files.opens H.Files.Opened.remaining databases.old.files.now H.Net.reaches H.Net.Stream.remaining databases.old.rt
        (H.Input.remaining input.old)) databases.old.opener databases.new.opener (W.contents output.old)
        (W.contents output.new) source.now (named_answer inquiry.now) }
{
    match source {
        Source::Database(path) => ask_database(databases, alloc, path, inquiry, output, errors),
        Source::Server(place) => ask_by_tables(
            &databases.rt,
            alloc,
            place,
            inquiry,
            output,
            errors,
        ),
        Source::Script(file) => {
            ask_script::<H, _>(
                databases.files,
                alloc,
                *file,
                inquiry,
                input,
                output,
                errors,
            )
        }
    }
}

/// Asks the tables at a source, or a server by the line that asks the question, and returns the exit status.
fn ask_tables<H: Host>(
    databases: &mut DatabaseFiles<'_, H>,
    alloc: Global,
    asking: &QueryArgs<'_>,
    inquiry: &Inquiry<'_>,
    input: &mut H::Input,
    output: &mut H::Output,
    errors: &mut H::Errors,
) -> u8
    requires { question asking.now.verb asking.now.line.items asking.now.form ≡ Ok inquiry.now.question }
    ensures status { (result ≡ DONE) ⊎ ((result ≡ REFUSED) ⊎ (result ≡ FAULT)) }
    ensures whole { result ≡ DONE →
        IsAnswered H.Store.Store H.Opener.DatabaseOpener
        (sources_of H.Files.opens H.Files.Opened.remaining databases.old.files.now H.Net.reaches H.Net.Stream.remaining databases.old.rt
        (H.Input.remaining input.old)) databases.old.opener databases.new.opener (H.Output.contents output.old)
        (H.Output.contents output.new) asking.now.source (named_answer inquiry.now) (IsWholeAnswer inquiry.now.question)
        ⊎ (IsQuery inquiry.now.question
        × IsReplied H.Store.Store H.Opener.DatabaseOpener
        (sources_of H.Files.opens H.Files.Opened.remaining databases.old.files.now H.Net.reaches H.Net.Stream.remaining databases.old.rt
        (H.Input.remaining input.old)) databases.old.opener databases.new.opener (H.Output.contents output.old)
        (H.Output.contents output.new) asking.now.source asking.now.line.items
        (with_labels inquiry.now.labels inquiry.now.form (names_of inquiry.now.names.now))) }
    ensures at_most { IsAnsweredAtMost H.Store.Store H.Opener.DatabaseOpener
        (sources_of H.Files.opens H.Files.Opened.remaining databases.old.files.now H.Net.reaches H.Net.Stream.remaining databases.old.rt
        (H.Input.remaining input.old)) databases.old.opener databases.new.opener (H.Output.contents output.old)
        (H.Output.contents output.new) asking.now.source (named_answer inquiry.now)
        ⊎ (IsQuery inquiry.now.question
        × IsRepliedAtMost H.Store.Store H.Opener.DatabaseOpener
        (sources_of H.Files.opens H.Files.Opened.remaining databases.old.files.now H.Net.reaches H.Net.Stream.remaining databases.old.rt
        (H.Input.remaining input.old)) databases.old.opener databases.new.opener (H.Output.contents output.old)
        (H.Output.contents output.new) asking.now.source asking.now.line.items
        (with_labels inquiry.now.labels inquiry.now.form (names_of inquiry.now.names.now))) }
{
    let (source, rt) = (&asking.source, databases.rt);
    match server_for_line(source, &inquiry.question) {
        Some(place) => ask_by_line(&rt, alloc, &place, &asking.line, inquiry, output, errors),
        None => ask_source(databases, alloc, source, inquiry, input, output, errors),
    }
}

/// Asks a question, and returns the exit status.
///
/// The status is 0 if all of the answer was written. It is 1 if the words ask nothing, as of a line with a fault, if a line of
/// the script that is queried is refused, and if a dump has a rule or a route with a name that no line can express, or leaves
/// one out. It is 3 for a fault of opening, of the server, of reading, of memory or of the writer.
///
/// A database is opened and closed. There has to be one at its path, and no rule or route of it changes; its tables may be
/// made those of the newest format. Of a server or of a script no database is touched. A server is sent `get` and `show`
/// by their line, unless JSON is wanted; its feed and its sessions both answer that.
pub(crate) fn ask<H: Host>(
    databases: &mut DatabaseFiles<'_, H>,
    alloc: Global,
    asking: &QueryArgs<'_>,
    input: &mut H::Input,
    output: &mut H::Output,
    errors: &mut H::Errors,
) -> u8
    ensures status { (result ≡ DONE) ⊎ ((result ≡ REFUSED) ⊎ (result ≡ FAULT)) }
    ensures whole { result ≡ DONE →
        HasAnswered H.Store.Store H.Opener.DatabaseOpener
        (sources_of H.Files.opens H.Files.Opened.remaining databases.old.files.now H.Net.reaches H.Net.Stream.remaining databases.old.rt
        (H.Input.remaining input.old)) databases.old.opener databases.new.opener (H.Output.contents output.old)
        (H.Output.contents output.new) asking.now }
    ensures at_most { HasAnsweredAtMost H.Store.Store H.Opener.DatabaseOpener
        (sources_of H.Files.opens H.Files.Opened.remaining databases.old.files.now H.Net.reaches H.Net.Stream.remaining databases.old.rt
        (H.Input.remaining input.old)) databases.old.opener databases.new.opener (H.Output.contents output.old)
        (H.Output.contents output.new) asking.now }
{
    let question = match question_of(asking.verb, &asking.line, asking.form) {
        Ok(question) => question,
        Err(refusal) => {
            tell(question_message(alloc, refusal, &asking.line), errors);
            return REFUSED;
        }
    };
    let Ok(names) = names_for(databases.files, alloc, asking.labels) else {
        return report_no_memory(output, errors);
    };
    let inquiry = Inquiry {
        question,
        form: asking.form,
        labels: asking.labels,
        names: &names,
    };
    ask_tables(databases, alloc, asking, &inquiry, input, output, errors)
}
