//! What the words of the program ask for.
ghost use Rattle.std.specs.Prelude.{◌≡◌, IfErr, IfOk, None, Some, codes, false, option_and_then, option_map, true};
ghost use Rattle.clap.specs.Words.{first_of, found_of, one_of, rows_of, subcommand_rows_of};
ghost use Rattle.prt_args.specs.Places.{IsPlace};
ghost use Rattle.prt_args.specs.Read.{IsFileBy, IsReadFrom, IsServiceRefused};
ghost use Rattle.prt_args.specs.Tasks.{IsAskedFor, IsConflict, IsModeBy, IsQuestionOf, IsTaskOf, IsUnfit, IsWithinLimits};
ghost use Rattle.prt_args.specs.Faults.{IsWordsFault};
ghost use Rattle.prt_args.specs.Invocation.{arguments, file_of, invocation, usage_error};
ghost use Rattle.prt_args.specs.declared.task.Mode.TheVariants.{Together};

use crate::asking::{Asked, asked_in};
use crate::command_line::command_line;
use crate::fault::{Fault, batch_fault};
use crate::following::BAD_SERVER;
use crate::server_place::{ServerPlace, server_place_of};
use crate::serving::{ServeArgs, serve_args_of};
use clap::ArgMatches;
use prt_refusals::OnRefusal;
use std::alloc::Global;

/// The subcommand that checks a script.
const CHECK: &str = "check";

/// The subcommand that replays events.
const REPLAY: &str = "replay";

/// The subcommand that serves sessions.
const SERVE: &str = "serve";

/// The word for standard input in the place of a file.
pub const STANDARD_INPUT: &str = "-";

/// What is wrong with a script that is to go on after a refused line and to be executed together.
const MODE_CONFLICT: &str = "the argument '--force' cannot be used with '--atomic'";

/// What is wrong with a script that a server is to execute line by line.
const NOT_TOGETHER: &str = "'--atomic' is required with '--server <WHERE>'";

/// What is wrong with a script that is to be executed by a server and over a database.
const SERVER_CONFLICT: &str = "the argument '--db <PATH>' cannot be used with '--server <WHERE>'";

/// How the lines of a script are executed.
#[derive(Clone, Copy)]
pub enum Mode {
    /// Each once it is read; after a refused one the session does this.
    InTurn(OnRefusal),
    /// All together once all are read, or none.
    Together,
}

/// A script to run.
#[derive(Drop)]
pub struct Batch<'a> {
    /// The path of the script; standard input if there is none.
    pub file: Option<&'a str>,
    /// The path of the database; a new one in memory if there is none.
    pub database: Option<&'a str>,
    /// How its lines are executed.
    pub mode: Mode,
    /// Whether it is reported to a person, wherever standard error goes.
    pub is_verbose: bool,
}

/// A script whose commands a server is to make together.
#[derive(Clone, Copy)]
pub struct Submitting<'a> {
    /// Where the server takes atomic scripts.
    pub server: ServerPlace<'a>,
    /// The path of the script; standard input if there is none.
    pub file: Option<&'a str>,
    /// Whether it is reported to a person, wherever standard error goes.
    pub is_verbose: bool,
}

/// What the words ask for.
#[derive(Drop)]
pub enum Task<'a> {
    /// To run a script.
    Batch(Batch<'a>),
    /// To have a server run a script.
    Submit(Submitting<'a>),
    /// To check the script of this path; standard input if there is none.
    Check(Option<&'a str>),
    /// To replay the file of this path; standard input if there is none.
    Replay(Option<&'a str>),
    /// To serve sessions over TCP.
    Serve(ServeArgs<'a>),
    /// To answer a question.
    Ask(Asked<'a>),
}

/// Returns the path of an operand; none for `-`, which is standard input.
pub(crate) fn file_of(operand: &str) -> Option<&str>
    ensures { option_map (λ path. path.now) result ≡ file_of operand.entry.now }
{
    if operand == STANDARD_INPUT {
        None
    } else {
        Some(operand)
    }
}

/// Returns the path of the file that the matches of a subcommand name.
pub(crate) fn file_in<'a>(matches: &ArgMatches<'a>) -> Option<&'a str>
    ensures rows { option_map (λ path. path.now) result ≡ option_and_then file_of (first_of (codes "file") (rows_of (found_of matches.now))) }
    ensures value { IsFileBy matches.now (option_map (λ path. path.now) result) }
{
    matches.get_str("file").and_then(file_of)
}

/// Returns the path that the matches of `batch` have for `--db`.
fn database_in<'a>(matches: &ArgMatches<'a>) -> Option<&'a str>
    ensures { option_map (λ path. path.now) result ≡ first_of (codes "db") (rows_of (found_of matches.now)) }
{
    matches.get_str("db")
}

/// Returns the word that the matches of `batch` have for `--server`.
fn server_word<'a>(matches: &ArgMatches<'a>) -> Option<&'a str>
    ensures { option_map (λ word. word.now) result ≡ first_of (codes "server") (rows_of (found_of matches.now)) }
{
    matches.get_str("server")
}

/// Returns whether the matches of `batch` have a flag.
fn has_flag(matches: &ArgMatches<'_>, name: &str) -> bool
    ensures given { one_of name.now (rows_of (found_of matches.now)) ≡ Some (codes "true") → result ≡ true }
    ensures left_out { one_of name.now (rows_of (found_of matches.now)) ≡ Some (codes "false") → result ≡ false }
{
    matches.get_flag(name)
}

/// Chooses how the lines of a script are executed, by the matches of `batch`.
///
/// # Errors
///
/// `Words` if the matches have both flags, `Opening` with `NoMemory` if memory is refused.
fn mode_in(alloc: Global, matches: &ArgMatches<'_>) -> Result<Mode, Fault>
    ensures mode { IfOk result (λ mode.
        IsModeBy (one_of (codes "force") (rows_of (found_of matches.now))) (one_of (codes "atomic") (rows_of (found_of matches.now))) (Some mode)) }
    ensures conflict { IfErr result
        (λ fault. IsModeBy (one_of (codes "force") (rows_of (found_of matches.now)))
        (one_of (codes "atomic") (rows_of (found_of matches.now))) None) }
    ensures fault { IfErr result (IsWordsFault usage_error) }
{
    let is_forced = has_flag(matches, "force");
    let is_atomic = has_flag(matches, "atomic");
    if is_forced && is_atomic {
        return Err(batch_fault(alloc, MODE_CONFLICT));
    }
    if is_atomic {
        return Ok(Mode::Together);
    }
    if is_forced {
        return Ok(Mode::InTurn(OnRefusal::GoOn));
    }
    Ok(Mode::InTurn(OnRefusal::Stop))
}

/// Reads where the server is that is to execute a script.
///
/// # Errors
///
/// `Words` if the lines aren't executed together, a database is named too, or the word is no place. `Opening` with
/// `NoMemory` if memory is refused.
fn submitted_to<'a>(
    alloc: Global,
    word: &'a str,
    mode: Mode,
    database: Option<&str>,
) -> Result<ServerPlace<'a>, Fault>
    ensures place { IfOk result (IsPlace word.now) }
    ensures unfit { IfErr result (λ fault. IsUnfit mode (option_map (λ path. path.now) database.entry) word.now) }
    ensures together { IfOk result (λ place. mode ≡ Together) }
    ensures alone { IfOk result (λ place. option_map (λ path. path.now) database.entry ≡ None) }
    ensures fault { IfErr result (IsWordsFault usage_error) }
{
    let Mode::Together = mode else {
        return Err(batch_fault(alloc, NOT_TOGETHER));
    };
    if database.is_some() {
        return Err(batch_fault(alloc, SERVER_CONFLICT));
    }
    match server_place_of(word) {
        Some(place) => Ok(place),
        None => Err(batch_fault(alloc, BAD_SERVER)),
    }
}

/// Reads what the matches of all words ask for, if that is neither to serve nor to answer a question.
///
/// # Errors
///
/// `Words` if a script is to go on and to be executed together, or if no server can execute it as the words ask. `Opening`
/// with `NoMemory` if memory is refused.
fn task_of<'a>(alloc: Global, matches: &ArgMatches<'a>) -> Result<Task<'a>, Fault>
    ensures task { IfOk result (IsTaskOf (subcommand_rows_of matches.now)) }
    ensures conflict { IfErr result (λ fault. IsConflict (subcommand_rows_of matches.now)) }
    ensures fault { IfErr result (IsWordsFault usage_error) }
{
    let Some((name, found)) = matches.subcommand() else {
        return Ok(Task::Batch(Batch {
            file: None,
            database: None,
            mode: Mode::InTurn(OnRefusal::Stop),
            is_verbose: false,
        }));
    };
    let file = file_in(found);
    if name == CHECK {
        return Ok(Task::Check(file));
    }
    if name == REPLAY {
        return Ok(Task::Replay(file));
    }
    let mode = mode_in(alloc, found)?;
    let database = database_in(found);
    let is_verbose = has_flag(found, "verbose");
    let Some(word) = server_word(found) else {
        return Ok(Task::Batch(Batch {
            file,
            database,
            mode,
            is_verbose,
        }));
    };
    let server = submitted_to(alloc, word, mode, database)?;
    Ok(Task::Submit(Submitting {
        server,
        file,
        is_verbose,
    }))
}

/// Reads what the words ask for, the first of which is the program's own name.
///
/// # Errors
///
/// `Words` if they ask for help, for the version or for nothing that exists; if a value of `serve` or of a question is none
/// that it may have; or if a script can't be executed as they ask. `Opening` with `NoMemory` if memory is refused.
pub fn read_words<'a>(alloc: Global, words: &'a [String]) -> Result<Task<'a>, Fault>
    ensures task { IfOk result (IsAskedFor (arguments words.entry.now) (invocation (arguments words.entry.now))) }
    ensures question { IfOk result (IsQuestionOf (arguments words.entry.now)) }
    ensures reads { IfOk result (IsReadFrom (arguments words.entry.now)) }
    ensures limits { IfOk result IsWithinLimits }
    ensures fault { IfErr result (IsWordsFault (invocation (arguments words.entry.now))) }
    ensures refused { IfErr result (IsServiceRefused (arguments words.entry.now)) }
{
    let matches = command_line(alloc)?.try_get_matches_from(words)?;
    match matches.subcommand_matches(SERVE) {
        Some(found) => Ok(Task::Serve(serve_args_of(alloc, found)?)),
        None => match asked_in(alloc, &matches)? {
            Some(asked) => Ok(Task::Ask(asked)),
            None => task_of(alloc, &matches),
        },
    }
}
