//! What the words of `follow` and `wait` ask for: what brings the kernel to the tables of a server, and the server itself.
ghost use Rattle.std.specs.Prelude.{◌≡◌, ◌⊎◌, ◌≤◌, IfErr, IfOk, codes, option_and_then, option_map};
ghost use Rattle.prt_args.specs.Analysis.{IsFlag, IsServerBy, value_of};
ghost use Rattle.prt_args.specs.NoQuestion.{IsNoReach, IsNoServer, OrNoMemory};
ghost use Rattle.prt_args.specs.Places.{number_within};
ghost use Rattle.prt_args.specs.Read.{IsFileBy};
ghost use Rattle.prt_args.specs.Reaching.{IsReach, IsReachBy};

use crate::fault::BadQuestion;
use crate::reach::{Reach, reach_of};
use crate::server_place::{ServerPlace, server_place_of};
use crate::serving::number_in;
use crate::task::file_in;
use clap::ArgMatches;
use std::alloc::Global;

/// What is wrong with a place of a server.
pub(crate) const BAD_SERVER: &str =
    "invalid value for '--server <WHERE>': it is a folder with a `/`, or an IPv4 address, `:` and a port of 0 to 65535";

/// What is wrong with a number of seconds to wait.
const BAD_SECONDS: &str = "invalid value for '--seconds <S>': it is a number of 0 to 1000000";

/// A question of what brings the kernel to the tables of a server, now and after each of their changes.
#[derive(Drop)]
pub struct FollowArgs<'a> {
    /// Where the feed of the server is.
    pub server: ServerPlace<'a>,
    /// What of the kernel may be changed.
    pub reach: Reach,
    /// The path of what `ip` printed; standard input if there is none.
    pub file: Option<&'a str>,
    /// Whether only what differs now is printed.
    pub is_once: bool,
}

/// A wait for a server, until it answers.
#[derive(Clone, Copy)]
pub struct WaitArgs<'a> {
    /// Where the server listens: for sessions, or for clients that follow.
    pub server: ServerPlace<'a>,
    /// For how many seconds to wait at most, up to 1,000,000.
    pub seconds: u64,
}

/// Reads the place of the server that the matches name.
///
/// # Errors
///
/// It is none.
pub(crate) fn server_in<'a>(matches: &ArgMatches<'a>) -> Result<ServerPlace<'a>, BadQuestion>
    ensures server { IfOk result (IsServerBy matches.now) }
    ensures refused { IfErr result (λ bad. IsNoServer matches.now) }
{
    let Some(word) = matches.get_str("server") else {
        return Err(BadQuestion::Words(BAD_SERVER));
    };
    match server_place_of(word) {
        Some(place) => Ok(place),
        None => Err(BadQuestion::Words(BAD_SERVER)),
    }
}

/// Reads what the matches of `follow` ask for.
///
/// # Errors
///
/// What is wrong with them, or that memory is refused.
pub(crate) fn follow_args_of<'a>(
    alloc: Global,
    matches: &ArgMatches<'a>,
) -> Result<FollowArgs<'a>, BadQuestion>
    ensures limits { IfOk result (λ following. IsReach following.reach) }
    ensures server { IfOk result (λ following. IsServerBy matches.now following.server) }
    ensures reach { IfOk result (λ following. IsReachBy matches.now following.reach) }
    ensures file { IfOk result (λ following. IsFileBy matches.now (option_map (λ path. path.now) following.file)) }
    ensures once { IfOk result (λ following. IsFlag matches.now (codes "once") (λ given. given) following.is_once) }
    ensures refused { IfErr result (OrNoMemory (IsNoServer matches.now ⊎ IsNoReach matches.now)) }
{
    let server = server_in(matches)?;
    let reach = reach_of(alloc, matches)?;
    Ok(FollowArgs {
        server,
        reach,
        file: file_in(matches),
        is_once: matches.get_flag("once"),
    })
}

/// Reads what the matches of `wait` ask for.
///
/// # Errors
///
/// What is wrong with them.
pub(crate) fn wait_args_of<'a>(matches: &ArgMatches<'a>) -> Result<WaitArgs<'a>, BadQuestion>
    ensures limits { IfOk result (λ waiting. waiting.seconds ≤ 1000000) }
    ensures server { IfOk result (λ waiting. IsServerBy matches.now waiting.server) }
    ensures seconds { IfOk result (λ waiting. option_and_then (number_within 0 1000000) (value_of matches.now (codes "seconds")) ≡ Some waiting.seconds) }
    ensures refused { IfErr result
        (λ bad. IsNoServer matches.now ⊎ (option_and_then (number_within 0 1000000) (value_of matches.now (codes "seconds")) ≡ None)) }
{
    let server = server_in(matches)?;
    let Some(seconds) = number_in(matches, "seconds", 0, 1_000_000) else {
        return Err(BadQuestion::Words(BAD_SECONDS));
    };
    Ok(WaitArgs {
        server,
        seconds: u64::from(seconds),
    })
}
