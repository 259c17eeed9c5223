//! The words of `impact`, `assert` and `unused`, as clap reads them.
ghost use Rattle.std.specs.Prelude.{◌≡◌, IfOk, false};
ghost use Rattle.clap.specs.Words.{app_of};
ghost use Rattle.prt_args.specs.CommandLine.{assert_line, has_globals, impact_line, unused_line, with_analyses};

use crate::command_line::{
    QUERIED, file_operand, flag, place_line, with_argument, with_line, words_operand,
};
use clap::Command;
use std::alloc::{AllocError, Global};

/// Builds the words that may follow `impact`.
pub(crate) fn impact_line<'a>(alloc: Global) -> Result<Command<'a>, AllocError>
    ensures line { IfOk result (λ command. app_of command ≡ impact_line) }
    ensures own { IfOk result (λ command. has_globals command ≡ false) }
{
    let about =
        "Executes commands on a copy of the tables, and shows which packets they send another way";
    let formed = with_argument(
        place_line(alloc, "impact", about, QUERIED),
        flag(alloc, "json", "Answer in JSON"),
    );
    let exact = "Show also packets that another rule or route sends the same way";
    let compared = with_argument(formed, flag(alloc, "exact", exact));
    let force = "Go on with the next line after a refused one";
    let forced = with_argument(compared, flag(alloc, "force", force));
    let file =
        "The commands, or `-` for standard input; without --db and --server a script before them makes the tables";
    with_argument(forced, words_operand(alloc, "FILE", file))
}

/// Builds the words that may follow `assert`.
pub(crate) fn assert_line<'a>(alloc: Global) -> Result<Command<'a>, AllocError>
    ensures line { IfOk result (λ command. app_of command ≡ assert_line) }
    ensures own { IfOk result (λ command. has_globals command ≡ false) }
{
    let about = "Checks claims of where packets go, and shows those that fail";
    let explain = "Explain for each claim that fails why a packet goes elsewhere";
    let explained = with_argument(
        place_line(alloc, "assert", about, QUERIED),
        flag(alloc, "explain", explain),
    );
    let file =
        "The claims, or `-` for standard input; without --db and --server a script before them makes the tables";
    with_argument(explained, words_operand(alloc, "FILE", file))
}

/// Builds the words that may follow `unused`.
pub(crate) fn unused_line<'a>(alloc: Global) -> Result<Command<'a>, AllocError>
    ensures line { IfOk result (λ command. app_of command ≡ unused_line) }
    ensures own { IfOk result (λ command. has_globals command ≡ false) }
{
    let about = "Lists rules and routes that no packet uses";
    let file =
        "Without --db and --server, the script that makes the tables; standard input if it is missing or `-`";
    with_argument(
        place_line(alloc, "unused", about, QUERIED),
        file_operand(alloc, file),
    )
}

/// Adds the subcommands that analyse where packets go.
pub(crate) fn with_analyses<'a>(
    alloc: Global,
    command: Command<'a>,
) -> Result<Command<'a>, AllocError>
    ensures { IfOk result (λ made. app_of made ≡ with_analyses (app_of command.entry)) }
{
    let comparing = with_line(Ok(command), impact_line(alloc));
    let claiming = with_line(comparing, assert_line(alloc));
    with_line(claiming, unused_line(alloc))
}
