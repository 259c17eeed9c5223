//! What is reported on standard error while a script is run.
ghost use Rattle.std.specs.Prelude.{◌≡◌, ◌≢◌, ◌<◌, ◌∷◌, IfOk, IfSome, List, Some, codes, map, option_map, string_bytes, ℕ};
ghost use Rattle.prt_command.specs.Reading.{words};
ghost use Rattle.prt_program.specs.Messages.{blame, complaint, failed_call, lines_text, location, progress_message, question_message, quoted};
ghost use Rattle.prt_program.specs.Messages.{refused_message, shown, told_word, total_message};
ghost use Rattle.prt_args.specs.Faults.{fault_status};

use crate::error_keeping::ErrorKeeping;
use prt_args::{DONE, Fault, report};
use prt_command::{fault_word, is, next_word};
use prt_replay::call_name;
use prt_session::{Observer, Refusal, Reply, ScriptEnd};
use std::alloc::{AllocError, Global};
use std::fmt::Display;
use std::io::{IsTerminal, Write};
use std::rt::Clock;
use std::time::Instant;

/// Goes over the line of progress, whose at most 31 characters it covers with spaces.
const BLANK: &str = "\r                                        \r";

/// Chooses the character that is shown for a byte of a line: what can't be printed could be a command to the terminal.
fn shown(byte: u8) -> char
    ensures value { result ≡ shown byte }
    ensures ascii { result < 128 }
{
    if byte == b'\t' || (byte > 31 && byte < 127) {
        char::from(byte)
    } else {
        '?'
    }
}

/// Makes a text of the bytes of a line.
///
/// # Errors
///
/// `AllocError` alone.
pub fn shown_text(alloc: Global, line: &[u8]) -> Result<String, AllocError>
    ensures { IfOk result (λ text. string_bytes text ≡ map shown line.now) }
{
    let mut text = String::new(alloc);
    for byte in line {
        text.push(shown(*byte))?;
    }
    Ok(text)
}

/// Makes the text of where a line is.
fn location(alloc: Global, file: &str, line: u64) -> Result<String, AllocError>
    ensures { IfOk result (λ text. string_bytes text ≡ location file.now line) }
{
    let mut text = String::from_str(alloc, file)?;
    write!(text, ":{line}")?;
    Ok(text)
}

/// Makes the text of which call of the store failed, which is empty if none did.
fn failed_call(alloc: Global, refusal: Refusal) -> Result<String, AllocError>
    ensures { IfOk result (λ made. string_bytes made ≡ failed_call refusal) }
{
    match refusal {
        Refusal::StoreFailed(call) => {
            let name = call_name(call);
            format!(in alloc; " in {name}")
        }
        _ => Ok(String::new(alloc)),
    }
}

/// Finds the word that the refusal of a line is about, as far as there is one.
///
/// None of a line that was not read whole, since its text alone could have another fault.
fn told_word(refusal: Refusal, text: &[u8]) -> Option<&[u8]>
    ensures { option_map (λ word. word.now) result ≡ told_word refusal text.now }
{
    match refusal {
        Refusal::LineTooLong | Refusal::ReadFault => None,
        _ => {
            let at = fault_word(text)?;
            Some(&text[at.start..at.end])
        }
    }
}

/// Finds the word that the refusal of an event is about, if that is `submit` with a command: as of the command.
fn told_event_word(refusal: Refusal, text: &[u8]) -> Option<&[u8]>
    ensures { IfSome result (λ word. (command : List ℕ) × (words text.now ≡ codes "submit" ∷ words command) × (told_word refusal command ≡ Some word.now)) }
{
    let (event, command) = next_word(text)?;
    if !is(event, b"submit") {
        return None;
    }
    told_word(refusal, command)
}

/// Puts a word in quotes, after a space; without one the text is empty.
fn quoted(alloc: Global, word: Option<&[u8]>) -> Result<String, AllocError>
    ensures { IfOk result (λ made. string_bytes made ≡ quoted (option_map (λ word. word.now) word.entry)) }
{
    match word {
        Some(word) => {
            let word = shown_text(alloc, word)?;
            format!(in alloc; " '{word}'")
        }
        None => Ok(String::new(alloc)),
    }
}

/// Makes the text of why a line is refused, with the word that is wrong.
fn blame(alloc: Global, refusal: Refusal, word: Option<&[u8]>) -> Result<String, AllocError>
    ensures { IfOk result (λ made. string_bytes made ≡ blame refusal (option_map (λ word. word.now) word.entry)) }
{
    let reason = refusal.to_string(alloc)?;
    let call = failed_call(alloc, refusal)?;
    let word = quoted(alloc, word)?;
    format!(in alloc; "{reason}{call}{word}")
}

/// Makes the text of what is wrong with a line: the refusal, the word that it is about in quotes, and the line.
///
/// # Errors
///
/// `AllocError` alone.
pub fn complaint(
    alloc: Global,
    refusal: Refusal,
    word: Option<&[u8]>,
    text: &[u8],
) -> Result<String, AllocError>
    ensures { IfOk result (λ made. string_bytes made ≡ complaint refusal (option_map (λ word. word.now) word.entry) text.now) }
{
    let blame = blame(alloc, refusal, word)?;
    let text = shown_text(alloc, text)?;
    format!(in alloc; "{blame}: {text}")
}

/// Makes the message of a refused line.
fn refused_message(
    alloc: Global,
    file: &str,
    line: u64,
    refusal: Refusal,
    word: Option<&[u8]>,
    text: &[u8],
) -> Result<String, AllocError>
    ensures { IfOk result (λ message. string_bytes message ≡ refused_message file.now line refusal (option_map (λ word. word.now) word.entry) text.now) }
{
    let location = location(alloc, file, line)?;
    let complaint = complaint(alloc, refusal, word, text)?;
    format!(in alloc; "{location}: {complaint}\n")
}

/// Makes the message of why a line that is in no script is refused.
///
/// # Errors
///
/// `AllocError`, if memory is refused.
pub fn question_message(alloc: Global, refusal: Refusal, text: &[u8]) -> Result<String, AllocError>
    ensures { IfOk result (λ message. string_bytes message ≡ question_message refusal text.now) }
{
    let complaint = complaint(alloc, refusal, told_word(refusal, text), text)?;
    format!(in alloc; "prt: {complaint}\n")
}

/// Makes the text of a number of lines.
fn lines_text(alloc: Global, count: u64) -> Result<String, AllocError>
    ensures { IfOk result (λ text. string_bytes text ≡ lines_text count) }
{
    let unit = if count == 1 { " line" } else { " lines" };
    format!(in alloc; "{count}{unit}")
}

/// Makes the message at the end.
fn total_message(alloc: Global, lines: u64, refused: u64) -> Result<String, AllocError>
    ensures { IfOk result (λ message. string_bytes message ≡ total_message lines refused) }
{
    let lines = lines_text(alloc, lines)?;
    format!(in alloc; "{lines}, {refused} refused\n")
}

/// Makes the line of progress.
fn progress_message(alloc: Global, lines: u64, rate: u64) -> Result<String, AllocError>
    ensures { IfOk result (λ message. string_bytes message ≡ progress_message lines rate) }
{
    let lines = lines_text(alloc, lines)?;
    format!(in alloc; "{lines}, {rate} a second")
}

/// Makes the message of why a path, or a place to listen at, could not be opened or failed later. It has the words of
/// what refused it.
///
/// # Errors
///
/// `AllocError`, if memory is refused.
pub fn cause_message<P: Display, Q: Display>(
    alloc: Global,
    place: &P,
    reason: &Q,
) -> Result<String, AllocError> {
    format!(in alloc; "prt: {place}: {reason}\n")
}

/// Makes the message of why the log of a database could not be moved into its file.
///
/// # Errors
///
/// `AllocError`, if memory is refused.
pub fn log_message<P: Display>(
    alloc: Global,
    path: &str,
    reason: &P,
) -> Result<String, AllocError> {
    format!(in alloc;
        "prt: {path}-wal: {reason}: the log is not in {path}, and has to stay beside it\n"
    )
}

/// What is reported of a run.
#[derive(Clone, Copy)]
enum Verbosity {
    /// Nothing.
    Off,
    /// Messages.
    On,
    /// Messages, and the line of progress comes after them.
    ShowingProgress,
}

/// What the lines of a run are.
#[derive(Clone, Copy)]
enum Language {
    /// Lines of the command language, whose first fault may be about a word.
    Commands,
    /// Events of a replay.
    Events,
}

/// Looks on at a run, and reports it on standard error once it is turned on. Why a file failed it always reports.
///
/// A fault of the clock, of memory or of writing loses a message and changes nothing else.
#[derive(Drop)]
pub struct Messages<'a, E: Write + Drop, K: Clock + Drop> {
    alloc: Global,
    errors: E,
    clock: K,
    verbosity: Verbosity,
    /// The message of why a file could not be opened.
    cause: Option<String>,
    /// The name of the script.
    file: &'a str,
    language: Language,
    /// When the run began; none if no progress is reported.
    begun: Option<Instant>,
    /// How many whole seconds had passed when progress was last reported.
    seconds: u64,
    lines: u64,
    refused: u64,
}

impl<'a, E: Write + Drop, K: Clock + Drop> Messages<'a, E, K> {
    /// Makes messages to `errors`, which report nothing until they are turned on.
    pub fn new(alloc: Global, errors: E, clock: K) -> Messages<'a, E, K> {
        Messages {
            alloc,
            errors,
            clock,
            verbosity: Verbosity::Off,
            cause: None,
            file: "",
            language: Language::Commands,
            begun: None,
            seconds: 0,
            lines: 0,
            refused: 0,
        }
    }

    /// Starts reporting what follows.
    pub fn turn_on(&mut self) {
        if !self.is_on() {
            self.verbosity = Verbosity::On;
        }
    }

    /// Returns whether it is turned on.
    fn is_on(&self) -> bool {
        !matches!(self.verbosity, Verbosity::Off)
    }

    /// Begins to look on at a run of the script of this name, whose replies go to `output`.
    ///
    /// If that is a terminal, the replies show the progress themselves.
    pub fn begin<W: IsTerminal>(&mut self, file: &'a str, output: &W) {
        self.file = file;
        if self.is_on() && !output.is_terminal() {
            self.begun = Instant::now(&self.clock).ok();
        }
    }

    /// Begins to look on at a replay of the file of this name, of which at most the refused line is reported.
    pub fn begin_replay(&mut self, file: &'a str) {
        self.file = file;
        self.language = Language::Events;
    }

    /// Keeps why a file could not be opened.
    pub fn keep_cause<P: Display>(&mut self, path: &str, reason: &P) {
        self.cause = cause_message(self.alloc, &path, reason).ok();
    }

    /// Reports why a file could not be opened, if that was kept.
    fn tell_cause(&mut self) {
        if let Some(cause) = &self.cause {
            let _ = self.errors.write_all(cause.as_bytes());
        }
    }

    /// Reports why nothing is run, and returns the exit status for that.
    pub fn report<W: Write>(&mut self, fault: &Fault, output: &mut W) -> u8
        ensures status { result ≡ fault_status fault.now }
        ensures unwritten { result ≢ DONE → W.contents output.new ≡ W.contents output.old }
    {
        let status = report(fault, output, &mut self.errors);
        self.tell_cause();
        status
    }

    /// Reports why a file could not be read to its end, if it failed.
    pub fn tell_failure<T>(&mut self, file: &str, stream: &ErrorKeeping<T>) {
        if let Some(error) = stream.error() {
            self.wipe();
            self.write(cause_message(self.alloc, &file, error));
        }
    }

    /// Reports why a commit to the database at a path failed, if one did.
    pub fn tell_commit<P: Display>(&mut self, path: &str, failure: &Option<P>) {
        if let Some(reason) = failure {
            self.wipe();
            self.write(cause_message(self.alloc, &path, reason));
        }
    }

    /// Reports what befell what a run needs, unless there was no memory for the text.
    pub fn tell(&mut self, message: Result<String, AllocError>) {
        self.wipe();
        self.write(message);
    }

    /// Reports why the log of the database at a path could not be moved into its file, if that failed.
    pub fn tell_closing<P: Display>(&mut self, path: &str, closed: &Result<(), P>) {
        if let Err(reason) = closed {
            self.wipe();
            self.write(log_message(self.alloc, path, reason));
        }
    }

    /// Writes a message, if there was memory for it.
    fn write(&mut self, message: Result<String, AllocError>) {
        if let Ok(message) = message {
            let _ = self.errors.write_all(message.as_bytes());
        }
    }

    /// Takes the line of progress away.
    fn wipe(&mut self) {
        if let Verbosity::ShowingProgress = self.verbosity {
            let _ = self.errors.write_all(BLANK.as_bytes());
            self.verbosity = Verbosity::On;
        }
    }

    /// Reports a refused line.
    fn tell_refused(&mut self, line: u64, refusal: Refusal, text: &[u8]) {
        self.refused = self.refused.saturating_add(1);
        self.wipe();
        let word = match self.language {
            Language::Commands => told_word(refusal, text),
            Language::Events => told_event_word(refusal, text),
        };
        self.write(refused_message(self.alloc, self.file, line, refusal, word, text));
    }

    /// Returns the whole seconds since the run began; 0 if no progress is reported.
    fn seconds_passed(&self) -> u64 {
        match self.begun {
            Some(begun) => match begun.elapsed(&self.clock) {
                Ok(passed) => passed.as_secs(),
                Err(_) => 0,
            },
            None => 0,
        }
    }

    /// Reports how many lines are done, if a further second has passed.
    fn tell_progress(&mut self) {
        let seconds = self.seconds_passed();
        if seconds <= self.seconds {
            return;
        }
        self.seconds = seconds;
        self.wipe();
        let rate = self.lines / seconds;
        self.write(progress_message(self.alloc, self.lines, rate));
        self.verbosity = Verbosity::ShowingProgress;
    }

    /// Counts a refusal of commands that were to be made together, since that is reported of no line.
    pub fn count_refusal(&mut self, end: ScriptEnd) {
        let is_refused = end.refused
            || matches!(
                end.fault,
                Some(Refusal::StoreFailed(_) | Refusal::NotPublished)
            );
        if is_refused && self.refused == 0 {
            self.refused = 1;
        }
    }

    /// Reports at the end of a run how many lines there were.
    pub fn finish(&mut self) {
        if self.is_on() {
            self.wipe();
            self.write(total_message(self.alloc, self.lines, self.refused));
        }
    }
}

impl<'a, E: Write + Drop, K: Clock + Drop> Observer for Messages<'a, E, K> {
    fn before(&mut self, _line: u64) {}

    fn after(&mut self, line: u64, text: &[u8], reply: &Reply) {
        if !self.is_on() {
            return;
        }
        self.lines = line;
        if let Reply::Refused(refusal) = reply {
            self.tell_refused(line, *refusal, text);
        }
        self.tell_progress();
    }
}
