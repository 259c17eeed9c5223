//! The words of `apply` and `status`, as clap reads them.
ghost use Rattle.std.specs.Prelude.{◌≡◌, IfOk, false};
ghost use Rattle.clap.specs.Words.{app_of};
ghost use Rattle.prt_args.specs.CommandLine.{apply_line, has_globals, status_line, with_services};

use crate::command_line::{file_operand, flag, option, place_line, with_argument, with_line};
use crate::reach_lines::server_line;
use clap::Command;
use std::alloc::{AllocError, Global};

/// Builds the words that may follow `apply`.
pub(crate) fn apply_line<'a>(alloc: Global) -> Result<Command<'a>, AllocError>
    ensures line { IfOk result (λ command. app_of command ≡ apply_line) }
    ensures own { IfOk result (λ command. has_globals command ≡ false) }
{
    let about = "Makes the tables what a script makes of a new database, and prints the changes";
    let database = "The database file, created if it is missing; with --dry-run it must exist";
    let place = place_line(alloc, "apply", about, database);
    let atomic =
        "The address and port where the server takes atomic scripts, if --server isn't a folder";
    let joined = with_argument(place, option(alloc, "atomic", "ADDR:PORT", atomic));
    let dry_run = "Print the changes without making them";
    let tried = with_argument(joined, flag(alloc, "dry-run", dry_run));
    let impact = "Show first, as comments, which packets the changes send another way";
    let compared = with_argument(tried, flag(alloc, "impact", impact));
    let file = "The script; standard input if it is missing or `-`";
    with_argument(compared, file_operand(alloc, file))
}

/// Builds the words that may follow `status`.
pub(crate) fn status_line<'a>(alloc: Global) -> Result<Command<'a>, AllocError>
    ensures line { IfOk result (λ command. app_of command ≡ status_line) }
    ensures own { IfOk result (λ command. has_globals command ≡ false) }
{
    let place = "The server: the folder of its sockets, a word with a `/`";
    let formed = with_argument(
        server_line(alloc, "status", "Shows how a server does", place),
        flag(alloc, "json", "Answer in JSON"),
    );
    let metrics = "Answer in the text format of Prometheus; not with --json";
    with_argument(formed, flag(alloc, "metrics", metrics))
}

/// Adds the subcommands that make tables, and that look after a server.
pub(crate) fn with_services<'a>(
    alloc: Global,
    command: Command<'a>,
) -> Result<Command<'a>, AllocError>
    ensures { IfOk result (λ made. app_of made ≡ with_services (app_of command.entry)) }
{
    let applying = with_line(Ok(command), apply_line(alloc));
    with_line(applying, status_line(alloc))
}
