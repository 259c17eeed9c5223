//! How far the words of `diff` and `follow` reach: which of the kernel's rules and routes may be compared and changed.
ghost use Rattle.std.specs.Prelude.{◌≡◌, IfErr, IfOk, map, option_map};
ghost use Rattle.std.specs.List.{before_first};
ghost use Rattle.prt_addr.specs.Word.{all_of};
ghost use Rattle.prt_route.specs.Names.{protocol};
ghost use Rattle.prt_args.specs.NoQuestion.{IsNoReach, OrNoMemory};
ghost use Rattle.prt_args.specs.Reaching.{IsReach, IsReachBy, end_of, is_hyphen, last_end, names_nothing, span_of};

use crate::fault::BadQuestion;
use clap::ArgMatches;
use prt_addr::read_number;
use prt_route::{read_protocol, read_table};
use std::alloc::{AllocError, Global};

/// What is wrong if nothing says how far to reach.
const NO_REACH: &str =
    "one of '--all', '--table <T>', '--proto <P>' and '--priority <P>' is required";

/// What is wrong if all is meant, and a part of it.
const ALL_AND_PART: &str =
    "the argument '--all' cannot be used with '--table <T>', '--proto <P>' or '--priority <P>'";

/// What is wrong with tables.
const BAD_TABLE: &str =
    "invalid value for '--table <T>': it is a table, main, local, default or a number of 1 to 4294967295, or `T-T` from the first to the last one";

/// What is wrong with a protocol.
const BAD_PROTOCOL: &str =
    "invalid value for '--proto <P>': it is a protocol by its name in `ip route`, or a number of 0 to 255";

/// What is wrong with priorities.
const BAD_PRIORITY: &str =
    "invalid value for '--priority <P>': it is a number of 0 to 4294967295, or `P-P` from the first to the last one";

/// The numbers from the first to the last one, both included.
#[derive(Clone, Copy, Debug, PartialEq, Eq)]
pub struct NumberSpan {
    pub first: u32,
    pub last: u32,
}

/// What of the kernel's rules and routes may be compared and changed.
#[derive(Debug, Drop)]
pub struct Reach {
    /// Whether that is all of them. Nothing else is said then.
    pub all: bool,
    /// The tables whose routes are meant.
    pub tables: Vec<NumberSpan>,
    /// The protocols whose routes are meant.
    pub protocols: Vec<u8>,
    /// The priorities of the rules that are meant.
    pub priorities: Vec<NumberSpan>,
}

impl Reach {
    /// Returns whether no table, no protocol and no priority is named.
    fn names_nothing(&self) -> bool
        ensures { result ≡ names_nothing self.now }
    {
        self.tables.is_empty() && self.protocols.is_empty() && self.priorities.is_empty()
    }
}

/// What the numbers of a span are.
#[derive(Clone, Copy)]
enum Ends {
    Tables,
    Priorities,
}

/// Reads an end of a span.
fn read_end(ends: Ends, word: &str) -> Option<u32>
    ensures { result ≡ end_of ends word.now }
{
    match ends {
        Ends::Tables => read_table(word.as_bytes()).ok(),
        Ends::Priorities => read_number(word.as_bytes()).ok(),
    }
}

/// Splits a word into those of the two ends of a span. A word with no hyphen is both.
fn ends_of(word: &str) -> (&str, &str)
    ensures first { result.0.now ≡ before_first is_hyphen word.now }
    ensures last { result.1.now ≡ last_end word.now }
{
    match word.split_once('-') {
        Some(ends) => ends,
        None => (word, word),
    }
}

/// Reads a span: `N-N` from the first to the last one, or `N` for that one alone.
fn read_span(ends: Ends, word: &str) -> Option<NumberSpan>
    ensures { result ≡ span_of ends word.now }
{
    let (first, last) = ends_of(word);
    let first = read_end(ends, first)?;
    let last = read_end(ends, last)?;
    if first <= last {
        Some(NumberSpan { first, last })
    } else {
        None
    }
}

/// Reads spans, if each of these words is one.
fn read_spans(
    alloc: Global,
    ends: Ends,
    words: &[&str],
) -> Result<Option<Vec<NumberSpan>>, AllocError>
    ensures { IfOk result (λ read. option_map (λ spans. spans.items) read ≡ all_of (map (λ word. span_of ends word.now) words.now)) }
{
    let mut spans = Vec::new(alloc);
    for word in words {
        let Some(span) = read_span(ends, word) else {
            return Ok(None);
        };
        spans.push(span)?;
    }
    Ok(Some(spans))
}

/// Reads protocols, if each of these words is one.
fn read_protocols(alloc: Global, words: &[&str]) -> Result<Option<Vec<u8>>, AllocError>
    ensures { IfOk result (λ read. option_map (λ protocols. protocols.items) read ≡ all_of (map (λ word. protocol word.now) words.now)) }
{
    let mut protocols = Vec::new(alloc);
    for word in words {
        let Ok(protocol) = read_protocol(word.as_bytes()) else {
            return Ok(None);
        };
        protocols.push(protocol)?;
    }
    Ok(Some(protocols))
}

/// Reads how far the matches of `diff` or `follow` reach.
///
/// # Errors
///
/// They don't say it, or say that they reach to all and to a part; a value is none that its option may have; or memory is
/// refused.
pub(crate) fn reach_of(alloc: Global, matches: &ArgMatches<'_>) -> Result<Reach, BadQuestion>
    ensures reads { IfOk result (IsReachBy matches.now) }
    ensures limits { IfOk result IsReach }
    ensures refused { IfErr result (OrNoMemory (IsNoReach matches.now)) }
{
    let tables = matches.get_strs("table").unwrap_or(&[]);
    let Some(tables) = read_spans(alloc, Ends::Tables, tables)? else {
        return Err(BadQuestion::Words(BAD_TABLE));
    };
    let protocols = matches.get_strs("proto").unwrap_or(&[]);
    let Some(protocols) = read_protocols(alloc, protocols)? else {
        return Err(BadQuestion::Words(BAD_PROTOCOL));
    };
    let priorities = matches.get_strs("priority").unwrap_or(&[]);
    let Some(priorities) = read_spans(alloc, Ends::Priorities, priorities)? else {
        return Err(BadQuestion::Words(BAD_PRIORITY));
    };
    let reach = Reach {
        all: matches.get_flag("all"),
        tables,
        protocols,
        priorities,
    };
    if reach.all == reach.names_nothing() {
        return Ok(reach);
    }
    if reach.all {
        Err(BadQuestion::Words(ALL_AND_PART))
    } else {
        Err(BadQuestion::Words(NO_REACH))
    }
}
