//! The words of `follow` and `wait`, and those that say how far a question reaches, as clap reads them.
ghost use Rattle.std.specs.Prelude.{◌≡◌, IfOk, false};
ghost use Rattle.clap.specs.Words.{app_of, rule_of};
ghost use Rattle.prt_args.specs.CommandLine.{follow_line, has_globals, repeated_rule, server_line, wait_line, with_reach};

use crate::command_line::{
    flag, listing_operand, needed_option, number_option, option, with_argument,
};
use clap::{Arg, ArgAction, Command};
use std::alloc::{AllocError, Global};

/// Makes an option that may be repeated, each time with a value.
fn repeated_option<'a>(alloc: Global, name: &'a str, value: &'a str, help: &'a str) -> Arg<'a>
    ensures rule { rule_of result ≡ repeated_rule name.entry.now }
    ensures own { result.global ≡ false }
{
    option(alloc, name, value, help).action(ArgAction::Append)
}

/// Adds the words that say how far a question reaches.
pub(crate) fn with_reach<'a>(alloc: Global, command: Command<'a>) -> Result<Command<'a>, AllocError>
    ensures line { IfOk result (λ made. app_of made ≡ with_reach (app_of command.entry)) }
    ensures own { has_globals command.entry ≡ false → IfOk result (λ made. has_globals made ≡ false) }
{
    let all = "Compare and change all of the kernel's rules and routes";
    let free = with_argument(Ok(command), flag(alloc, "all", all));
    let table =
        "Compare and change the routes of this table, or of the tables from the first to the last one as `T-T`; may be repeated";
    let tabled = with_argument(free, repeated_option(alloc, "table", "T", table));
    let protocol = "Compare and change the routes of this protocol; may be repeated";
    let sorted = with_argument(tabled, repeated_option(alloc, "proto", "P", protocol));
    let priority =
        "Compare and change the rules of this priority, or of the priorities from the first to the last one as `P-P`; may be repeated";
    with_argument(sorted, repeated_option(alloc, "priority", "P", priority))
}

/// Says of the server of a question where it is.
const WHERE: &str = "The server: the folder of its sockets, or the address and port of its feed";

/// Says which words name the server that is queried.
pub(crate) fn server_line<'a>(
    alloc: Global,
    name: &'a str,
    about: &'a str,
    where_help: &'a str,
) -> Result<Command<'a>, AllocError>
    ensures line { IfOk result (λ command. app_of command ≡ server_line name.entry.now) }
    ensures own { IfOk result (λ command. has_globals command ≡ false) }
{
    with_argument(
        Ok(Command::new(alloc, name).about(about)),
        needed_option(alloc, "server", "WHERE", where_help),
    )
}

/// Says which words may follow `follow`.
pub(crate) fn follow_line<'a>(alloc: Global) -> Result<Command<'a>, AllocError>
    ensures line { IfOk result (λ command. app_of command ≡ follow_line) }
    ensures own { IfOk result (λ command. has_globals command ≡ false) }
{
    let about =
        "Prints the lines for `ip -batch` that bring the kernel to a server's tables, now and after each change";
    let server = server_line(alloc, "follow", about, WHERE)?;
    let reaching = with_reach(alloc, server);
    let once = "End after the lines for what differs now";
    let ending = with_argument(reaching, flag(alloc, "once", once));
    with_argument(ending, listing_operand(alloc))
}

/// Says which words may follow `wait`.
pub(crate) fn wait_line<'a>(alloc: Global) -> Result<Command<'a>, AllocError>
    ensures line { IfOk result (λ command. app_of command ≡ wait_line) }
    ensures own { IfOk result (λ command. has_globals command ≡ false) }
{
    let seconds = "How many seconds to wait at most, up to 1000000";
    with_argument(
        server_line(alloc, "wait", "Waits until a server answers", WHERE),
        number_option(alloc, "seconds", "S", "30", seconds),
    )
}
