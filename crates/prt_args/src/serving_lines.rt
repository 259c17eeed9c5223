//! The words of `serve`, as clap reads them.
ghost use Rattle.std.specs.Prelude.{◌≡◌, IfOk, false};
ghost use Rattle.clap.specs.Words.{app_of};
ghost use Rattle.prt_args.specs.CommandLine.{has_globals, serve_line, with_limits, with_places};

use crate::command_line::{flag, needed_option, number_option, option, with_argument};
use clap::Command;
use std::alloc::{AllocError, Global};

/// Adds the words that say where a server listens.
fn with_places<'a>(alloc: Global, command: Command<'a>) -> Result<Command<'a>, AllocError>
    ensures line { IfOk result (λ made. app_of made ≡ with_places (app_of command.entry)) }
    ensures own { has_globals command.entry ≡ false → IfOk result (λ made. has_globals made ≡ false) }
{
    let listen = "The address and port of sessions; port 0 takes a free one";
    let listening = with_argument(Ok(command), option(alloc, "listen", "ADDR:PORT", listen));
    let atomic = "The address and port of sessions whose changes are made together or not at all";
    let joining = with_argument(listening, option(alloc, "atomic", "ADDR:PORT", atomic));
    let feed =
        "The address and port of the feed, which sends the tables and then each change; none without it";
    let feeding = with_argument(joining, option(alloc, "feed", "ADDR:PORT", feed));
    let sockets = "The directory for the Unix sockets `session`, `atomic`, `feed` and `status`";
    with_argument(feeding, option(alloc, "sockets", "DIR", sockets))
}

/// Adds the words that say how much a server serves.
fn with_limits<'a>(alloc: Global, command: Command<'a>) -> Result<Command<'a>, AllocError>
    ensures line { IfOk result (λ made. app_of made ≡ with_limits (app_of command.entry)) }
    ensures own { has_globals command.entry ≡ false → IfOk result (λ made. has_globals made ≡ false) }
{
    let workers = "How many sessions are served at once, 1 to 64";
    let working = with_argument(
        Ok(command),
        number_option(alloc, "workers", "W", "4", workers),
    );
    let sessions = "End after this many connections, up to 1000000; 0 means never";
    let counting = with_argument(
        working,
        number_option(alloc, "sessions", "K", "0", sessions),
    );
    let idle = "End a session that sends nothing for so long, up to 1000000; 0 means never";
    with_argument(counting, number_option(alloc, "idle", "SECONDS", "0", idle))
}

/// Says which words may follow `serve`.
pub(crate) fn serve_line<'a>(alloc: Global) -> Result<Command<'a>, AllocError>
    ensures line { IfOk result (λ command. app_of command ≡ serve_line) }
    ensures own { IfOk result (λ command. has_globals command ≡ false) }
{
    let about = "Serves sessions of route and rule commands";
    let database = "The database file, created if it is missing";
    let named = with_argument(
        Ok(Command::new(alloc, "serve").about(about)),
        needed_option(alloc, "db", "PATH", database),
    );
    let placed = with_places(alloc, named?)?;
    let limited = with_limits(alloc, placed);
    let log = "Write each accepted command on standard error, with its number and its client";
    with_argument(limited, flag(alloc, "log", log))
}
