//! The line that adds the route of a line of `ip route`.
ghost use Rattle.std.specs.Prelude.{◌≡◌, ◌++◌, IfErr, IfOk, Ok, OnOk};
ghost use Rattle.prt_command.specs.Reading.{reading, words};
ghost use Rattle.prt_import.specs.Fault.{IsWhy};
ghost use Rattle.prt_import.specs.NewLines.{added_route, checked, continuation_of, route_line, route_text, scope_text};
ghost use Rattle.prt_import.specs.TableNames.{known_names};

use crate::fault::Fault;
use crate::known::Object;
use crate::names::HostNames;
use crate::reason::Reason;
use crate::step::Place;
use crate::translate::push_words;
use prt_command::{Command, Refusal, Request, Route, is, next_word, read_line};
use prt_listing::push_text;
use std::alloc::{AllocError, Global};

/// Finds what a line that begins with this word says of the route in the line before it.
pub(crate) fn continuation_of(word: &[u8]) -> Option<Reason>
    ensures { result ≡ continuation_of word.now }
{
    if is(word, b"nexthop") {
        Some(Reason::SeveralNextHops)
    } else if is(word, b"nh_info") {
        Some(Reason::NextHopObject)
    } else if is(word, b"cache") {
        Some(Reason::Cached)
    } else {
        None
    }
}

/// Reads a line as one that adds a route.
fn added_route(line: &[u8]) -> Result<Route, Refusal>
    ensures { result ≡ added_route (reading line.now) }
{
    match read_line(line)? {
        Some(Request::Command(Command::RouteAdd(route))) => Ok(route),
        // A line that begins with `route add` asks for nothing else.
        _ => Err(Refusal::UnknownVerb),
    }
}

/// Reads a line that adds a route, and has no comment.
fn checked_route(line: &[u8]) -> Result<Route, Reason>
    ensures { result ≡ checked added_route line.now }
{
    if line.contains(&b'#') {
        return Err(Reason::Comment);
    }
    match added_route(line) {
        Ok(route) => Ok(route),
        Err(refusal) => Err(Reason::Refused(refusal)),
    }
}

/// Appends the scope of a route if it is not implied: `ip` leaves out the one that is global.
fn push_scope(out: &mut Vec<u8>, is_settled: bool) -> Result<(), AllocError>
    ensures { OnOk result (out.new.items ≡ out.old.items ++ scope_text is_settled) }
{
    if is_settled {
        Ok(())
    } else {
        push_text(out, " scope global")
    }
}

/// Puts together the line that adds a route with the words of this text.
fn route_text(alloc: Global, names: &HostNames, text: &[u8]) -> Result<Vec<u8>, Fault>
    ensures ok { IfOk result (λ line. route_text (known_names names.now) (words text.now) ≡ Ok line.items) }
    ensures err { IfErr result (λ fault. IsWhy (route_text (known_names names.now) (words text.now)) fault) }
{
    let mut line = Vec::new(alloc);
    push_text(&mut line, "route add")?;
    let is_scope_settled = push_words(&mut line, names, Object::Route, Place::Destination, text)?;
    push_scope(&mut line, is_scope_settled)?;
    Ok(line)
}

/// A line that adds a route.
#[derive(Drop)]
pub(crate) struct RouteLine {
    pub(crate) line: Vec<u8>,
    pub(crate) has_gateway: bool,
}

/// Makes the line that adds a route with the words of this text. It asks for that.
///
/// # Errors
///
/// `Left` if there is no such line, `NoMemory` if memory is refused.
pub(crate) fn route_line(alloc: Global, names: &HostNames, text: &[u8]) -> Result<RouteLine, Fault>
    ensures ok { IfOk result (λ made.
        route_line (known_names names.now) (words text.now) ≡ Ok (record { line = made.line.items; has_gateway = made.has_gateway })) }
    ensures err { IfErr result (λ fault. IsWhy (route_line (known_names names.now) (words text.now)) fault) }
{
    let line = route_text(alloc, names, text)?;
    let route = checked_route(&line)?;
    Ok(RouteLine {
        line,
        has_gateway: route.via.is_some(),
    })
}
