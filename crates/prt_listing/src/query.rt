//! The lines that answer a query.
ghost use Rattle.std.specs.Prelude.{◌≡◌, ◌++◌, IsOkUnless, OnErr, OnOk, codes, decimal, map};
ghost use Rattle.prt_refusals.specs.declared.refusal.Refusal.TheVariants.{NoMemory};
ghost use Rattle.prt_listing.specs.Keeps.{Keeps};
ghost use Rattle.prt_listing.specs.QueryText.{lines_text, query_text, table_shown};
ghost use Rattle.prt_listing.specs.RouteText.{route_text};
ghost use Rattle.prt_listing.specs.RuleText.{rule_text};

use crate::answer::push_with_room;
use crate::push::{push_number, push_text, whole_or_nothing};
use crate::route::{TablePart, push_route};
use crate::rule::push_rule;
use prt_command::{Query, Selector};
use prt_version::{Refusal, Route, Rule, Version};
use std::alloc::AllocError;

/// Appends the last line of a listing: how many lines come before it.
fn push_end(out: &mut Vec<u8>, count: usize) -> Result<(), AllocError>
    ensures ok { OnOk result (out.new.items ≡ out.old.items ++ codes "end " ++ decimal count ++ codes "\n") }
    ensures err { OnErr result (Keeps out.old.items out.new.items) }
{
    push_text(out, "end ")?;
    push_number(out, count as u64)?;
    push_text(out, "\n")
}

/// Appends the line of a rule.
fn push_rule_line(out: &mut Vec<u8>, rule: &Rule) -> Result<(), AllocError>
    ensures ok { OnOk result (out.new.items ≡ out.old.items ++ (rule_text rule.now ++ codes "\n")) }
    ensures err { OnErr result (Keeps out.old.items out.new.items) }
{
    push_rule(out, rule)?;
    push_text(out, "\n")
}

/// Appends the line of a route.
fn push_route_line(out: &mut Vec<u8>, route: &Route, table: TablePart) -> Result<(), AllocError>
    ensures ok { OnOk result (out.new.items ≡ out.old.items ++ (route_text route.now table ++ codes "\n")) }
    ensures err { OnErr result (Keeps out.old.items out.new.items) }
{
    push_route(out, route, table)?;
    push_text(out, "\n")
}

/// Appends a line for each rule.
fn push_rules(out: &mut Vec<u8>, rules: &[Rule]) -> Result<(), AllocError>
    ensures ok { OnOk result (out.new.items ≡ out.old.items ++ lines_text (map rule_text rules.now)) }
    ensures err { OnErr result (Keeps out.old.items out.new.items) }
{
    for rule in rules {
        push_rule_line(out, rule)?;
    }
    Ok(())
}

/// Appends a line for each route.
fn push_routes(out: &mut Vec<u8>, routes: &[Route], table: TablePart) -> Result<(), AllocError>
    ensures ok { OnOk result (out.new.items ≡ out.old.items ++ lines_text (map (λ route. route_text route table) routes.now)) }
    ensures err { OnErr result (Keeps out.old.items out.new.items) }
{
    for route in routes {
        push_route_line(out, route, table)?;
    }
    Ok(())
}

/// Chooses whether a listing of the selector's routes names their tables.
fn table_shown(selector: &Selector) -> TablePart
    ensures { result ≡ table_shown selector.now.table }
{
    match selector.table {
        Some(_) => TablePart::LeftOut,
        None => TablePart::Shown,
    }
}

/// Appends the listing of the routes that a selector takes.
fn push_route_listing(
    out: &mut Vec<u8>,
    version: &Version,
    selector: &Selector,
) -> Result<(), AllocError>
    ensures ok { OnOk result (out.new.items ≡ out.old.items ++ query_text version.now (Query.RouteShow selector.now)) }
    ensures err { OnErr result (Keeps out.old.items out.new.items) }
{
    let Ok(routes) = version.routes(selector) else {
        return Err(AllocError);
    };
    push_routes(out, &routes, table_shown(selector))?;
    push_end(out, routes.len())
}

/// Appends the lines that answer a query.
///
/// # Errors
///
/// Memory is refused; a part of the text may follow what `out` had.
fn push_query(out: &mut Vec<u8>, version: &Version, query: &Query) -> Result<(), AllocError>
    ensures ok { OnOk result (out.new.items ≡ out.old.items ++ query_text version.now query.now) }
    ensures err { OnErr result (Keeps out.old.items out.new.items) }
{
    match query {
        Query::RouteShow(selector) => push_route_listing(out, version, selector),
        Query::RuleShow => {
            push_rules(out, version.rules())?;
            push_end(out, version.rules().len())
        }
        Query::Get(packet) => {
            push_with_room(out, &version.select(packet))?;
            push_text(out, "\n")
        }
    }
}

/// Appends the lines that answer a query from this version: a listing and its `end`, or an answer.
///
/// # Errors
///
/// `NoMemory` if memory is refused; `out` is as it was.
pub fn query_text(out: &mut Vec<u8>, version: &Version, query: &Query) -> Result<(), Refusal>
    ensures ok { OnOk result (out.new.items ≡ out.old.items ++ query_text version.now query.now) }
    ensures err { OnErr result (out.new.items ≡ out.old.items) }
    ensures reason { IsOkUnless result NoMemory }
{
    let len = out.len();
    let pushed = push_query(out, version, query);
    whole_or_nothing(out, len, pushed)
}
