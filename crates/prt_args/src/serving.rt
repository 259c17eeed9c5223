//! What the words of `serve` ask for.
ghost use Rattle.std.specs.Prelude.{◌≡◌, IfErr, IfOk, codes, option_and_then, option_map, Some};
ghost use Rattle.std.specs.Char.{is_ascii_digit};
ghost use Rattle.std.specs.List.{list_all};
ghost use Rattle.prt_args.specs.Analysis.{IsNoPlaceBy, IsPlaceBy, value_of};
ghost use Rattle.prt_args.specs.Places.{address_and_port, ends_of, number_within};
ghost use Rattle.prt_args.specs.Read.{IsNoService, IsServedBy};
ghost use Rattle.prt_args.specs.Tasks.{IsServing};
ghost use Rattle.prt_args.specs.Faults.{IsWordsFault};
ghost use Rattle.prt_args.specs.Invocation.{usage_error};

use crate::fault::{Fault, serving_fault};
use clap::ArgMatches;
use prt_addr::{Addr, read_addr, read_number};
use std::alloc::Global;
use std::net::{Ipv4Addr, SocketAddrV4};

/// What is wrong if no database is named.
const NO_DATABASE: &str = "a value is required for '--db <PATH>'";

/// What is wrong with a place to listen at.
const BAD_LISTEN: &str =
    "invalid value for '--listen <ADDR:PORT>': it is an IPv4 address, `:` and a port of 0 to 65535";

/// What is wrong with a place of atomic sessions.
const BAD_ATOMIC: &str =
    "invalid value for '--atomic <ADDR:PORT>': it is an IPv4 address, `:` and a port of 0 to 65535";

/// What is wrong if no place is named at which sessions come.
const NO_PLACE: &str = "one of '--listen <ADDR:PORT>' and '--sockets <DIR>' is required";

/// What is wrong with a place of the feed.
const BAD_FEED: &str =
    "invalid value for '--feed <ADDR:PORT>': it is an IPv4 address, `:` and a port of 0 to 65535";

/// What is wrong with a number of workers.
const BAD_WORKERS: &str = "invalid value for '--workers <W>': it is a number of 1 to 64";

/// What is wrong with a number of sessions.
const BAD_SESSIONS: &str = "invalid value for '--sessions <K>': it is a number of 0 to 1000000";

/// What is wrong with a number of seconds.
const BAD_IDLE: &str = "invalid value for '--idle <SECONDS>': it is a number of 0 to 1000000";

/// Sessions that are to be served: over TCP, over Unix sockets or over both.
#[derive(Drop)]
pub struct ServeArgs<'a> {
    /// The path of the database.
    pub database: &'a str,
    /// Where to listen, if anywhere; port 0 is any free one.
    pub listen: Option<SocketAddrV4>,
    /// Where to listen for sessions whose changes are made together, if anywhere; port 0 is any free one.
    pub atomic: Option<SocketAddrV4>,
    /// Where to listen for clients that follow the changes, if anywhere; port 0 is any free one.
    pub feed: Option<SocketAddrV4>,
    /// The directory of the Unix sockets, if there are any. There are some if there is no `listen`.
    pub sockets: Option<&'a str>,
    /// Whether each accepted command is logged.
    pub is_logged: bool,
    /// How many sessions are served at once, 1 to 64.
    pub workers: u32,
    /// How many connections are accepted, up to 1,000,000; 0 is without end.
    pub sessions: u64,
    /// After how many seconds without a byte a session ends, up to 1,000,000; 0 is no limit.
    pub idle: u64,
}

/// Checks that a word has decimal digits alone.
fn is_in_digits(word: &str) -> bool
    ensures { result ≡ list_all is_ascii_digit word.now }
{
    word.bytes().all(|byte| byte.is_ascii_digit())
}

/// Reads a number in decimal digits, if it is within these limits.
///
/// A number of two digits or more does not begin with 0.
fn number_within(word: &str, least: u32, most: u32) -> Option<u32>
    ensures { result ≡ number_within least most word.now }
{
    if !is_in_digits(word) {
        return None;
    }
    let number = read_number(word.as_bytes()).ok()?;
    if least <= number && number <= most {
        Some(number)
    } else {
        None
    }
}

/// Reads `ADDR:PORT`, whose address is written as in a command.
pub(crate) fn place_of(word: &str) -> Option<SocketAddrV4>
    ensures { option_map ends_of result ≡ address_and_port word.now }
{
    let (address, port) = word.split_once(':')?;
    let Addr(address) = read_addr(address.as_bytes()).ok()?;
    let port = number_within(port, 0, 65535)?;
    Some(SocketAddrV4::new(Ipv4Addr::from(address), port as u16))
}

/// Parses the number that the matches have for an option, if it is within these limits.
pub(crate) fn number_in(matches: &ArgMatches<'_>, name: &str, least: u32, most: u32) -> Option<u32>
    ensures { result ≡ option_and_then (number_within least most) (value_of matches.now name.now) }
{
    number_within(matches.get_str(name)?, least, most)
}

/// Parses the place that the matches of `serve` have for an option, if they have one.
///
/// # Errors
///
/// `Words` with the text `wrong` if the value is no place, `Opening` with `NoMemory` if memory is refused.
fn place_in(
    alloc: Global,
    matches: &ArgMatches<'_>,
    name: &str,
    wrong: &str,
) -> Result<Option<SocketAddrV4>, Fault>
    ensures place { IfOk result (IsPlaceBy matches.now name.now) }
    ensures refused { IfErr result (λ fault. IsNoPlaceBy matches.now name.now) }
    ensures fault { IfErr result (IsWordsFault usage_error) }
{
    let Some(word) = matches.get_str(name) else {
        return Ok(None);
    };
    match place_of(word) {
        Some(place) => Ok(Some(place)),
        None => Err(serving_fault(alloc, wrong)),
    }
}

/// How much is to be served.
#[derive(Clone, Copy)]
struct Limits {
    workers: u32,
    sessions: u32,
    idle: u32,
}

/// Parses how much the matches of `serve` ask for.
///
/// # Errors
///
/// `Words` if a value is none that its option may have, `Opening` with `NoMemory` if memory is refused.
fn limits_in(alloc: Global, matches: &ArgMatches<'_>) -> Result<Limits, Fault>
    ensures workers { IfOk result (λ limits. option_and_then (number_within 1 64) (value_of matches.now (codes "workers")) ≡ Some limits.workers) }
    ensures sessions { IfOk result (λ limits. option_and_then (number_within 0 1000000) (value_of matches.now (codes "sessions")) ≡ Some limits.sessions) }
    ensures idle { IfOk result (λ limits. option_and_then (number_within 0 1000000) (value_of matches.now (codes "idle")) ≡ Some limits.idle) }
    ensures refused { IfErr result (λ fault. IsNoService matches.now) }
    ensures fault { IfErr result (IsWordsFault usage_error) }
{
    let Some(workers) = number_in(matches, "workers", 1, 64) else {
        return Err(serving_fault(alloc, BAD_WORKERS));
    };
    let Some(sessions) = number_in(matches, "sessions", 0, 1_000_000) else {
        return Err(serving_fault(alloc, BAD_SESSIONS));
    };
    let Some(idle) = number_in(matches, "idle", 0, 1_000_000) else {
        return Err(serving_fault(alloc, BAD_IDLE));
    };
    Ok(Limits {
        workers,
        sessions,
        idle,
    })
}

/// Reads what the matches of `serve` ask for.
///
/// # Errors
///
/// `Words` if a value is none that its option may have, `Opening` with `NoMemory` if memory is refused.
pub(crate) fn serve_args_of<'a>(
    alloc: Global,
    matches: &ArgMatches<'a>,
) -> Result<ServeArgs<'a>, Fault>
    ensures limits { IfOk result IsServing }
    ensures reads { IfOk result (IsServedBy matches.now) }
    ensures refused { IfErr result (λ fault. IsNoService matches.now) }
    ensures fault { IfErr result (IsWordsFault usage_error) }
{
    let Some(database) = matches.get_str("db") else {
        return Err(serving_fault(alloc, NO_DATABASE));
    };
    let listen = place_in(alloc, matches, "listen", BAD_LISTEN)?;
    let atomic = place_in(alloc, matches, "atomic", BAD_ATOMIC)?;
    let feed = place_in(alloc, matches, "feed", BAD_FEED)?;
    let sockets = matches.get_str("sockets");
    if listen.is_none() && sockets.is_none() {
        return Err(serving_fault(alloc, NO_PLACE));
    }
    let limits = limits_in(alloc, matches)?;
    Ok(ServeArgs {
        database,
        listen,
        atomic,
        feed,
        sockets,
        is_logged: matches.get_flag("log"),
        workers: limits.workers,
        sessions: u64::from(limits.sessions),
        idle: u64::from(limits.idle),
    })
}
