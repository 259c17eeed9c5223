//! The words that the program knows, as clap reads them.
ghost use Rattle.std.specs.Prelude.{◌≡◌, IfOk, false};
ghost use Rattle.clap.specs.Words.{App, Rule, app_of, rule_of, with_rule, with_subcommand};
ghost use Rattle.prt_args.specs.CommandLine.{batch_line, check_line, command_line, database_rule, diff_line, dump_line, explain_line, file_rule};
ghost use Rattle.prt_args.specs.CommandLine.{flag_rule, get_line, has_globals, import_line, needed_rule, number_rule, opening_line, option_rule};
ghost use Rattle.prt_args.specs.CommandLine.{place_line, question_line, replay_line, show_line, tables_line, with_questions, words_rule};

use crate::analysis_lines::with_analyses;
use crate::reach_lines::{follow_line, wait_line, with_reach};
use crate::service_lines::with_services;
use crate::serving_lines::serve_line;
use crate::version::VERSION;
use clap::{Arg, ArgAction, Command};
use std::alloc::{AllocError, Global};

/// Makes the operand that names a file.
pub(crate) fn file_operand<'a>(alloc: Global, help: &'a str) -> Arg<'a>
    ensures rule { rule_of result ≡ file_rule }
    ensures own { result.global ≡ false }
{
    Arg::new(alloc, "file").value_name("FILE").help(help)
}

/// Makes a flag of this name.
pub(crate) fn flag<'a>(alloc: Global, name: &'a str, help: &'a str) -> Arg<'a>
    ensures rule { rule_of result ≡ flag_rule name.entry.now }
    ensures own { result.global ≡ false }
{
    Arg::new(alloc, name)
        .long(name)
        .action(ArgAction::SetTrue)
        .help(help)
}

/// Makes the option that names a database.
fn database_option<'a>(alloc: Global) -> Arg<'a>
    ensures rule { rule_of result ≡ database_rule }
    ensures own { result.global ≡ false }
{
    Arg::new(alloc, "db").long("db").value_name("PATH").help(
        "The database file, created if it is missing; without it a new database in memory",
    )
}

/// Makes an option that has a value.
pub(crate) fn option<'a>(alloc: Global, name: &'a str, value: &'a str, help: &'a str) -> Arg<'a>
    ensures rule { rule_of result ≡ option_rule name.entry.now }
    ensures own { result.global ≡ false }
{
    Arg::new(alloc, name)
        .long(name)
        .value_name(value)
        .help(help)
}

/// Makes an option that has to be given.
pub(crate) fn needed_option<'a>(
    alloc: Global,
    name: &'a str,
    value: &'a str,
    help: &'a str,
) -> Arg<'a>
    ensures rule { rule_of result ≡ needed_rule name.entry.now }
    ensures own { result.global ≡ false }
{
    option(alloc, name, value, help).required(true)
}

/// Makes an option whose value is a number, which is `missing` if it isn't given.
pub(crate) fn number_option<'a>(
    alloc: Global,
    name: &'a str,
    value: &'a str,
    missing: &'a str,
    help: &'a str,
) -> Arg<'a>
    ensures rule { rule_of result ≡ number_rule name.entry.now missing.entry.now }
    ensures own { result.global ≡ false }
{
    option(alloc, name, value, help).default_value(missing)
}

/// Adds an argument, unless memory was refused for what it is added to.
pub(crate) fn with_argument<'a>(
    command: Result<Command<'a>, AllocError>,
    argument: Arg<'a>,
) -> Result<Command<'a>, AllocError>
    ensures line { (app : App) → (rule : Rule) → IfOk command.entry (λ command. app_of command ≡ app) → rule_of argument.entry ≡ rule →
        argument.entry.global ≡ false → IfOk result (λ made. app_of made ≡ with_rule app rule) }
    ensures own { IfOk command.entry (λ command. has_globals command ≡ false) → argument.entry.global ≡ false → IfOk result (λ made. has_globals made ≡ false) }
{
    command?.arg(argument)
}

/// Adds a subcommand, unless memory was refused for it or for what it is added to.
pub(crate) fn with_line<'a>(
    command: Result<Command<'a>, AllocError>,
    line: Result<Command<'a>, AllocError>,
) -> Result<Command<'a>, AllocError>
    ensures { (app : App) → (added : App) → IfOk command.entry (λ command. app_of command ≡ app) →
        IfOk line.entry (λ line. app_of line ≡ added) → IfOk line.entry (λ line. has_globals line ≡ false) →
        IfOk result (λ made. app_of made ≡ with_subcommand app added.top) }
{
    command?.subcommand(line?)
}

/// Says which words may follow `batch`.
pub(crate) fn batch_line<'a>(alloc: Global) -> Result<Command<'a>, AllocError>
    ensures line { IfOk result (λ command. app_of command ≡ batch_line) }
    ensures own { IfOk result (λ command. has_globals command ≡ false) }
{
    let about = "Runs a script of route and rule commands over a database";
    let command = Ok(Command::new(alloc, "batch").about(about));
    let force = "Go on with the next line after a refused one";
    let forced = with_argument(command, flag(alloc, "force", force));
    let atomic = "Make all changes together or none, once all lines are read; not with --force";
    let joined = with_argument(forced, flag(alloc, "atomic", atomic));
    let named = with_argument(joined, database_option(alloc));
    let server =
        "Have a server make the changes: the folder of its sockets, or the address and port of its atomic scripts; with --atomic";
    let served = with_argument(named, option(alloc, "server", "WHERE", server));
    let verbose = "Report each refused line on standard error, even if that is no terminal";
    let told = with_argument(served, flag(alloc, "verbose", verbose));
    let file = "The script; standard input if it is missing or `-`";
    with_argument(told, file_operand(alloc, file))
}

/// Says which words may follow `check`.
fn check_line<'a>(alloc: Global) -> Result<Command<'a>, AllocError>
    ensures line { IfOk result (λ command. app_of command ≡ check_line) }
    ensures own { IfOk result (λ command. has_globals command ≡ false) }
{
    Command::new(alloc, "check")
        .about(
            "Reads a script without executing it, and lists the lines that would be refused as written",
        )
        .arg(file_operand(alloc, "The script; standard input if it is missing or `-`"))
}

/// Says which words may follow `replay`.
fn replay_line<'a>(alloc: Global) -> Result<Command<'a>, AllocError>
    ensures line { IfOk result (λ command. app_of command ≡ replay_line) }
    ensures own { IfOk result (λ command. has_globals command ≡ false) }
{
    Command::new(alloc, "replay")
        .about("Replays a list of events from a new database, and shows what each of them leads to")
        .arg(file_operand(
            alloc,
            "The events, one a line; standard input if it is missing or `-`",
        ))
}

/// Makes the operand that has the words of a question.
pub(crate) fn words_operand<'a>(alloc: Global, value: &'a str, help: &'a str) -> Arg<'a>
    ensures rule { rule_of result ≡ words_rule }
    ensures own { result.global ≡ false }
{
    Arg::new(alloc, "words")
        .action(ArgAction::Append)
        .value_name(value)
        .help(help)
}

/// Says of a database that is queried what becomes of it.
pub(crate) const QUERIED: &str =
    "The database file, which must exist; none of its rules and routes changes";

/// Says which words name tables, and of a database what becomes of it.
pub(crate) fn place_line<'a>(
    alloc: Global,
    name: &'a str,
    about: &'a str,
    database_help: &'a str,
) -> Result<Command<'a>, AllocError>
    ensures line { IfOk result (λ command. app_of command ≡ place_line name.entry.now) }
    ensures own { IfOk result (λ command. has_globals command ≡ false) }
{
    let named = with_argument(
        Ok(Command::new(alloc, name).about(about)),
        option(alloc, "db", "PATH", database_help),
    );
    let server = "A server: the folder of its sockets, or the address and port of its feed";
    with_argument(named, option(alloc, "server", "WHERE", server))
}

/// Says which words name the tables that are queried, and the form of the answer.
fn tables_line<'a>(alloc: Global, name: &'a str, about: &'a str) -> Result<Command<'a>, AllocError>
    ensures line { IfOk result (λ command. app_of command ≡ tables_line name.entry.now) }
    ensures own { IfOk result (λ command. has_globals command ≡ false) }
{
    let json = "Answer in JSON, with the field names of `ip -j`";
    let formed = with_argument(
        place_line(alloc, name, about, QUERIED),
        flag(alloc, "json", json),
    );
    let names = "Print tables by their names in iproute2's `rt_tables`";
    with_argument(formed, flag(alloc, "names", names))
}

/// Says which words may follow the name of a question.
fn question_line<'a>(
    alloc: Global,
    name: &'a str,
    about: &'a str,
    value: &'a str,
    help: &'a str,
) -> Result<Command<'a>, AllocError>
    ensures line { IfOk result (λ command. app_of command ≡ question_line name.entry.now) }
    ensures own { IfOk result (λ command. has_globals command ≡ false) }
{
    with_argument(
        tables_line(alloc, name, about),
        words_operand(alloc, value, help),
    )
}

/// Says which words may follow `get`.
pub(crate) fn get_line<'a>(alloc: Global) -> Result<Command<'a>, AllocError>
    ensures line { IfOk result (λ command. app_of command ≡ get_line) }
    ensures own { IfOk result (λ command. has_globals command ≡ false) }
{
    question_line(
        alloc,
        "get",
        "Shows which route a packet gets",
        "ADDRESS",
        "The destination, and after it `from`, `iif` and `mark` with their values, as after `route get`",
    )
}

/// Says which words may follow `show`.
pub(crate) fn show_line<'a>(alloc: Global) -> Result<Command<'a>, AllocError>
    ensures line { IfOk result (λ command. app_of command ≡ show_line) }
    ensures own { IfOk result (λ command. has_globals command ≡ false) }
{
    question_line(
        alloc,
        "show",
        "Lists routes or rules",
        "OBJECT",
        "`rule`, or `route` and the words that may follow `route show`; the routes of table main if it is missing",
    )
}

/// Says which words may follow `explain`.
pub(crate) fn explain_line<'a>(alloc: Global) -> Result<Command<'a>, AllocError>
    ensures line { IfOk result (λ command. app_of command ≡ explain_line) }
    ensures own { IfOk result (λ command. has_globals command ≡ false) }
{
    question_line(
        alloc,
        "explain",
        "Shows which rules a packet meets, and explains why it gets its route",
        "ADDRESS",
        "The destination, and after it `from`, `iif` and `mark` with their values, as after `route get`; without --db and --server a script before it makes the tables",
    )
}

/// Says which words may follow `dump`.
pub(crate) fn dump_line<'a>(alloc: Global) -> Result<Command<'a>, AllocError>
    ensures line { IfOk result (λ command. app_of command ≡ dump_line) }
    ensures own { IfOk result (λ command. has_globals command ≡ false) }
{
    let about = "Prints commands that recreate the rules and routes of a database";
    let replace =
        "Print commands that replace existing routes, without the kernel's own routes; not with --json or --names";
    with_argument(
        tables_line(alloc, "dump", about),
        flag(alloc, "replace", replace),
    )
}

/// Makes the operand that names a listing of the kernel's.
pub(crate) fn listing_operand<'a>(alloc: Global) -> Arg<'a>
    ensures rule { rule_of result ≡ file_rule }
    ensures own { result.global ≡ false }
{
    file_operand(
        alloc,
        "What `ip -4 route show table all` and `ip -4 rule` print, or these with `-j`; standard input if it is missing or `-`",
    )
}

/// Says which words may follow `diff`.
pub(crate) fn diff_line<'a>(alloc: Global) -> Result<Command<'a>, AllocError>
    ensures line { IfOk result (λ command. app_of command ≡ diff_line) }
    ensures own { IfOk result (λ command. has_globals command ≡ false) }
{
    let about =
        "Prints the lines for `ip -batch` that bring the kernel to a database, as far as the options allow";
    let place = place_line(alloc, "diff", about, QUERIED)?;
    let reaching = with_reach(alloc, place);
    let check = "Print nothing; the status is 1 if anything differs";
    let checking = with_argument(reaching, flag(alloc, "check", check));
    let impact =
        "Show first, as comments, which packets the lines send another way; not with --check";
    let showing = with_argument(checking, flag(alloc, "impact", impact));
    with_argument(showing, listing_operand(alloc))
}

/// Says which words may follow `import`.
pub(crate) fn import_line<'a>(alloc: Global) -> Result<Command<'a>, AllocError>
    ensures line { IfOk result (λ command. app_of command ≡ import_line) }
    ensures own { IfOk result (λ command. has_globals command ≡ false) }
{
    let about = "Prints a script that makes the rules and routes that `ip` prints";
    let database =
        "Make the tables of this database file what the script makes, instead of printing it";
    let named = with_argument(
        Ok(Command::new(alloc, "import").about(about)),
        option(alloc, "db", "PATH", database),
    );
    with_argument(named, listing_operand(alloc))
}

/// Adds the subcommands that ask questions.
fn with_questions<'a>(alloc: Global, command: Command<'a>) -> Result<Command<'a>, AllocError>
    ensures { IfOk result (λ made. app_of made ≡ with_questions (app_of command.entry)) }
{
    let getting = with_line(Ok(command), get_line(alloc));
    let showing = with_line(getting, show_line(alloc));
    let explaining = with_line(showing, explain_line(alloc));
    let dumping = with_line(explaining, dump_line(alloc));
    let comparing = with_line(dumping, diff_line(alloc));
    let following = with_line(comparing, follow_line(alloc));
    let waiting = with_line(following, wait_line(alloc));
    with_line(waiting, import_line(alloc))
}

/// Makes the program's own line, which has no subcommand yet.
fn opening_line<'a>(alloc: Global) -> Result<Command<'a>, AllocError>
    ensures { IfOk result (λ command. app_of command ≡ opening_line) }
{
    Command::new(alloc, "prt")
        .about("The table service of an IPv4 policy router")
        .version(VERSION)
        .subcommand_required(true)
        .arg_required_else_help(true)
        .bin_name("prt")
}

/// Says which words the program knows.
pub(crate) fn command_line<'a>(alloc: Global) -> Result<Command<'a>, AllocError>
    ensures { IfOk result (λ command. app_of command ≡ command_line) }
{
    let running = with_line(opening_line(alloc), batch_line(alloc));
    let checking = with_line(running, check_line(alloc));
    let replaying = with_line(checking, replay_line(alloc));
    let serving = with_line(replaying, serve_line(alloc));
    let asking = with_questions(alloc, serving?)?;
    let analysing = with_analyses(alloc, asking)?;
    with_services(alloc, analysing)
}
