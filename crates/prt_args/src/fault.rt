//! Why the program runs nothing, and how it says so.
ghost use Rattle.std.specs.Prelude.{◌≡◌, ◌≢◌, IfOk};
ghost use Rattle.clap.specs.Words.{kind_of};
ghost use Rattle.prt_refusals.specs.declared.refusal.Refusal.TheVariants.{NoMemory};
ghost use Rattle.prt_args.specs.Faults.{FaultOf, IsWordsFault, fault_status};
ghost use Rattle.prt_args.specs.Invocation.{usage_error};
ghost use Rattle.prt_args.specs.declared.fault.BadQuestion.TheVariants as bad_question;
ghost use Rattle.prt_args.specs.declared.fault.Fault.TheVariants.{Opening};

use crate::analysis_lines::{assert_line, impact_line, unused_line};
use crate::asking::{QuestionWord, Verb};
use crate::command_line::{
    batch_line, command_line, diff_line, dump_line, explain_line, get_line, import_line, show_line,
};
use crate::reach_lines::{follow_line, wait_line};
use crate::service_lines::{apply_line, status_line};
use crate::serving_lines::serve_line;
use clap::Command;
use clap::error::ErrorKind;
use prt_refusals::Refusal;
use std::alloc::{AllocError, Global};
use std::io::{self, Write};
use thiserror::Error;

/// The exit status if no line was refused, and after help or the version.
pub const DONE: u8 = 0;

/// The exit status for bad words.
const BAD_WORDS: u8 = 2;

/// The exit status for a fault.
pub const FAULT: u8 = 3;

/// Says of a word that it is no text.
const NOT_TEXT: &str = "invalid UTF-8 was detected in one or more arguments";

/// Why the program runs nothing.
#[derive(Debug, Drop, Error)]
pub enum Fault {
    /// The words ask for help, for the version, or for nothing that exists.
    #[error(transparent)]
    Words(clap::Error),
    /// The file or the database could not be opened, or memory was refused on the way there.
    #[error("prt: {0}\n")]
    Opening(Refusal),
    /// The listener of a server failed, or what brings its connections to the workers.
    #[error("prt: listener failed\n")]
    Listener,
}

impl From<AllocError> for Fault {
    ghost from_gives = { λ _ fault. fault ≡ Opening NoMemory };

    fn from(_: AllocError) -> Fault {
        Fault::Opening(Refusal::NoMemory)
    }
}

impl From<clap::Error> for Fault {
    ghost from_gives = { λ error fault. FaultOf error fault };

    fn from(error: clap::Error) -> Fault {
        match error.kind() {
            ErrorKind::OutOfMemory => Fault::Opening(Refusal::NoMemory),
            _ => Fault::Words(error),
        }
    }
}

impl From<Refusal> for Fault {
    ghost from_gives = { λ refusal fault. fault ≡ Opening refusal };

    fn from(refusal: Refusal) -> Fault {
        Fault::Opening(refusal)
    }
}

/// Makes the error of a word that is no text, in the form of those of a parse.
fn not_text(alloc: Global) -> Result<clap::Error, AllocError>
    ensures { IfOk result (λ error. kind_of error ≡ ErrorKind.InvalidValue) }
{
    command_line(alloc)?.error(ErrorKind::InvalidValue, NOT_TEXT)
}

/// Finds why there are no words to read: `error` came in place of them, since one is no text or memory was refused.
pub fn words_fault(alloc: Global, error: &io::Error) -> Fault
    ensures { IsWordsFault usage_error result }
{
    if error.kind() == io::ErrorKind::OutOfMemory {
        return Fault::Opening(Refusal::NoMemory);
    }
    match not_text(alloc) {
        Ok(error) => Fault::Words(error),
        Err(_) => Fault::Opening(Refusal::NoMemory),
    }
}

/// Makes the error of words of a subcommand of which the text says what is wrong, in the form of those of a parse. The name is
/// that of the program with the subcommand's.
fn line_error<'a>(
    line: Result<Command<'a>, AllocError>,
    name: &'a str,
    kind: ErrorKind,
    text: &str,
) -> Result<clap::Error, AllocError>
    ensures { IfOk result (λ error. kind_of error ≡ kind) }
{
    line?.bin_name(name)?.error(kind, text)
}

/// Makes the error of words of `batch` of which the text says what is wrong, in the form of those of a parse.
fn batch_error(alloc: Global, text: &str) -> Result<clap::Error, AllocError>
    ensures { IfOk result (λ error. kind_of error ≡ ErrorKind.ArgumentConflict) }
{
    let kind = ErrorKind::ArgumentConflict;
    line_error(batch_line(alloc), "prt batch", kind, text)
}

/// Builds the fault of what is wrong with the words of `batch`, in this text.
pub(crate) fn batch_fault(alloc: Global, text: &str) -> Fault
    ensures { IsWordsFault usage_error result }
{
    match batch_error(alloc, text) {
        Ok(error) => Fault::Words(error),
        Err(_) => Fault::Opening(Refusal::NoMemory),
    }
}

/// Makes the error of words of `serve` of which the text says what is wrong, in the form of those of a parse.
fn serving_error(alloc: Global, text: &str) -> Result<clap::Error, AllocError>
    ensures { IfOk result (λ error. kind_of error ≡ ErrorKind.ValueValidation) }
{
    let kind = ErrorKind::ValueValidation;
    line_error(serve_line(alloc), "prt serve", kind, text)
}

/// Builds the fault of what is wrong with the words of `serve`, in this text.
pub(crate) fn serving_fault(alloc: Global, text: &str) -> Fault
    ensures { IsWordsFault usage_error result }
{
    match serving_error(alloc, text) {
        Ok(error) => Fault::Words(error),
        Err(_) => Fault::Opening(Refusal::NoMemory),
    }
}

/// Why words ask nothing.
#[derive(Clone, Copy)]
pub(crate) enum BadQuestion {
    /// The text says what is wrong with them.
    Words(&'static str),
    /// Memory is refused.
    NoMemory,
}

impl From<AllocError> for BadQuestion {
    ghost from_gives = { λ _ bad. bad ≡ bad_question.NoMemory };

    fn from(_: AllocError) -> BadQuestion {
        BadQuestion::NoMemory
    }
}

/// Names the program with a question's subcommand.
fn asking_name(word: QuestionWord) -> &'static str {
    match word {
        QuestionWord::Tables(Verb::Get) => "prt get",
        QuestionWord::Tables(Verb::Show) => "prt show",
        QuestionWord::Tables(Verb::Explain) => "prt explain",
        QuestionWord::Tables(Verb::Dump | Verb::Replace) => "prt dump",
        QuestionWord::Diff => "prt diff",
        QuestionWord::Follow => "prt follow",
        QuestionWord::Wait => "prt wait",
        QuestionWord::Import => "prt import",
        QuestionWord::Impact => "prt impact",
        QuestionWord::Assert => "prt assert",
        QuestionWord::Unused => "prt unused",
        QuestionWord::Apply => "prt apply",
        QuestionWord::Status => "prt status",
    }
}

/// Says which words may follow a question's subcommand.
fn asking_line<'a>(alloc: Global, word: QuestionWord) -> Result<Command<'a>, AllocError> {
    match word {
        QuestionWord::Tables(Verb::Get) => get_line(alloc),
        QuestionWord::Tables(Verb::Show) => show_line(alloc),
        QuestionWord::Tables(Verb::Explain) => explain_line(alloc),
        QuestionWord::Tables(Verb::Dump | Verb::Replace) => dump_line(alloc),
        QuestionWord::Diff => diff_line(alloc),
        QuestionWord::Follow => follow_line(alloc),
        QuestionWord::Wait => wait_line(alloc),
        QuestionWord::Import => import_line(alloc),
        QuestionWord::Impact => impact_line(alloc),
        QuestionWord::Assert => assert_line(alloc),
        QuestionWord::Unused => unused_line(alloc),
        QuestionWord::Apply => apply_line(alloc),
        QuestionWord::Status => status_line(alloc),
    }
}

/// Makes the error of words of a question of which the text says what is wrong, in the form of those of a parse.
fn asking_error(alloc: Global, word: QuestionWord, text: &str) -> Result<clap::Error, AllocError>
    ensures { IfOk result (λ error. kind_of error ≡ ErrorKind.ValueValidation) }
{
    let kind = ErrorKind::ValueValidation;
    line_error(asking_line(alloc, word), asking_name(word), kind, text)
}

/// Builds the fault of what is wrong with the words of a question, in this text.
pub(crate) fn asking_fault(alloc: Global, word: QuestionWord, text: &str) -> Fault
    ensures { IsWordsFault usage_error result }
{
    match asking_error(alloc, word, text) {
        Ok(error) => Fault::Words(error),
        Err(_) => Fault::Opening(Refusal::NoMemory),
    }
}

/// Writes why the program runs nothing, and returns the exit status for it: 0 for help and for the version, 2 for bad words,
/// 3 for a fault of opening or of a listener.
///
/// Help and the version go to `output`, all else to `errors`. A fault of writing there changes nothing.
pub fn report<W: Write, E: Write>(fault: &Fault, output: &mut W, errors: &mut E) -> u8
    ensures status { result ≡ fault_status fault.now }
    ensures unwritten { result ≢ DONE → W.contents output.new ≡ W.contents output.old }
{
    match fault {
        Fault::Words(error) if !error.use_stderr() => {
            let _ = write!(output, "{fault}");
            DONE
        }
        Fault::Words(_) => {
            let _ = write!(errors, "{fault}");
            BAD_WORDS
        }
        Fault::Opening(_) | Fault::Listener => {
            let _ = write!(errors, "{fault}");
            FAULT
        }
    }
}
