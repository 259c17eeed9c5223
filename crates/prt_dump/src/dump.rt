//! The lines that put a version back.
ghost use Rattle.std.specs.Prelude.{◌≡◌, ◌++◌, IfErr, IfOk, OnOk, codes, map};
ghost use Rattle.prt_refusals.specs.declared.on_refusal.OnRefusal.{OnRefusal};
ghost use Rattle.prt_listing.specs.QueryText.{lines_text};
ghost use Rattle.prt_spelling.specs.Line.{command_line};
ghost use Rattle.prt_dump.specs.Dump.{add_route, add_rule, gateways_last};
ghost use Rattle.prt_dump.specs.PutBack.{IsPlainState, IsPutBack, IsWhyNot, StateFits, dump_text, session_of};

use crate::commands::{add_route, add_rule, first_rule};
use crate::fits::{recall_routes, recall_rules};
use crate::plain::find_unplain;
use crate::refusal::DumpError;
use prt_command::Command;
use prt_listing::push_text;
use prt_route::{Range, Route, Selector};
use prt_rule::Rule;
use prt_spelling::push_line;
use prt_version::Version;
use std::alloc::{AllocError, Global};

/// Appends the line of a command, and a newline.
fn push_command(out: &mut Vec<u8>, command: &Command) -> Result<(), AllocError>
    ensures { OnOk result (out.new.items ≡ out.old.items ++ (command_line command.now ++ codes "\n")) }
{
    push_line(out, command)?;
    push_text(out, "\n")
}

/// Appends a line for each rule.
fn push_rules(out: &mut Vec<u8>, rules: &[Rule]) -> Result<(), AllocError>
    ensures { OnOk result (out.new.items ≡ out.old.items ++ lines_text (map (λ rule. command_line (add_rule rule)) rules.now)) }
{
    for rule in rules {
        push_command(out, &add_rule(rule))?;
    }
    Ok(())
}

/// Appends a line for each route.
fn push_routes(out: &mut Vec<u8>, routes: &[Route]) -> Result<(), AllocError>
    ensures { OnOk result (out.new.items ≡ out.old.items ++ lines_text (map (λ route. command_line (add_route route)) routes.now)) }
{
    for route in routes {
        push_command(out, &add_route(route))?;
    }
    Ok(())
}

/// Makes a copy of the routes in which those with a gateway come last: it may need a route to it.
fn gateways_last(alloc: Global, routes: &[Route]) -> Result<Vec<Route>, AllocError>
    ensures { IfOk result (λ rows. rows.items ≡ gateways_last routes.now) }
{
    let mut rows = Vec::from_slice(alloc, routes)?;
    rows.retain(|route| route.via.is_none());
    let mut through_gateways = Vec::from_slice(alloc, routes)?;
    through_gateways.retain(|route| route.via.is_some());
    rows.extend_from_slice(&through_gateways)?;
    Ok(rows)
}

/// Builds the lines that put these rules and routes back.
fn text_of(alloc: Global, rules: &[Rule], routes: &[Route]) -> Result<Vec<u8>, AllocError>
    ensures { IfOk result (λ text. text.items ≡ dump_text (record { count = 0; rules = rules.now; routes = routes.now })) }
{
    let mut text = Vec::new(alloc);
    push_command(&mut text, &Command::RuleFlush)?;
    push_command(&mut text, &Command::RuleDel(first_rule()))?;
    push_rules(&mut text, rules)?;
    push_routes(&mut text, &gateways_last(alloc, routes)?)?;
    Ok(text)
}

/// Collects all routes of the version, in the order of listings.
///
/// # Errors
///
/// `AllocError` if memory is refused.
pub fn every_route(version: &Version) -> Result<Vec<Route>, AllocError>
    ensures { IfOk result (λ routes. routes.items ≡ version.now.routes) }
{
    let selector = Selector {
        table: None,
        range: Range::All,
        kind: None,
        proto: None,
        scope: None,
        dev: None,
    };
    let Ok(routes) = version.routes(&selector) else {
        return Err(AllocError);
    };
    Ok(routes)
}

/// Builds the lines of commands that recreate the rules and the routes of this version.
///
/// First `rule flush` and `rule del priority 0`, which leave no rule of a new database; then each rule with its priority;
/// then each route, those with a gateway last, since it may need a route to it. Each line ends with a newline. A session
/// over a new database accepts each of them, and its version has the same routes and, except for ids, the same rules.
///
/// # Errors
///
/// `Rule` or `Route` if no line can express one: its interface has a name with `#`, a control byte or a byte above 0x7e,
/// or a table may not hold it. It names the first rule or, if each rule can be expressed, the first route. `NoMemory`
/// may come instead.
pub fn dump_text(alloc: Global, version: &Version) -> Result<Vec<u8>, DumpError>
    ensures text { IfOk result (λ text. text.items ≡ dump_text version.now) }
    ensures plain { IfOk result (λ text. IsPlainState version.now) }
    ensures fits { IfOk result (λ text. StateFits version.now) }
    ensures put_back { IfOk result (λ text. (mode : OnRefusal) → IsPutBack version.now (session_of mode text.items)) }
    ensures reason { IfErr result (λ reason. IsWhyNot version.now reason) }
{
    let Ok(routes) = every_route(version) else {
        return Err(DumpError::NoMemory);
    };
    find_unplain(version.rules(), &routes)?;
    let _number = version.number();
    recall_rules(version.rules());
    recall_routes(&routes);
    let Ok(text) = text_of(alloc, version.rules(), &routes) else {
        return Err(DumpError::NoMemory);
    };
    Ok(text)
}
