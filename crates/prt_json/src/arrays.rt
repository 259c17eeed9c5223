//! The arrays of routes, of rules and of what becomes of a packet.
ghost use Rattle.std.specs.Prelude.{◌≡◌, ◌++◌, OnOk, map};
ghost use Rattle.json.specs.Tree.{json_tokens};
ghost use Rattle.prt_json.specs.AnswerJson.{answers};
ghost use Rattle.prt_json.specs.Json.{answer_json, routes_json, rules_json};
ghost use Rattle.prt_json.specs.RouteJson.{route_json};
ghost use Rattle.prt_json.specs.RuleJson.{rule_json};
ghost use Rattle.prt_json.specs.Steps.{values_tokens};

use crate::answer::{drop_answer, route_answer};
use crate::push::push_object;
use crate::route::route_fields;
use crate::rule::rule_fields;
use json::Writer;
use prt_command::{Packet, Selector};
use prt_route::Route;
use prt_rule::Rule;
use prt_version::{Verdict, Version};
use std::alloc::{AllocError, Global};

/// Writes each of the routes.
fn push_each_route(
    out: &mut Writer,
    alloc: Global,
    selector: &Selector,
    routes: &[Route],
) -> Result<(), AllocError>
    ensures ok { OnOk result (out.new.tokens ≡ out.old.tokens ++ values_tokens (map (λ route. route_json selector.now route) routes.now)) }
    ensures before { out.new.before ≡ out.old.before }
{
    for route in routes {
        push_object(out, alloc, &route_fields(selector, route))?;
    }
    Ok(())
}

/// Writes each of the rules.
fn push_each_rule(out: &mut Writer, alloc: Global, rules: &[Rule]) -> Result<(), AllocError>
    ensures ok { OnOk result (out.new.tokens ≡ out.old.tokens ++ values_tokens (map rule_json rules.now)) }
    ensures before { out.new.before ≡ out.old.before }
{
    for rule in rules {
        push_object(out, alloc, &rule_fields(rule))?;
    }
    Ok(())
}

/// Writes the object of a verdict, if a rule decides.
fn push_verdict(
    out: &mut Writer,
    alloc: Global,
    packet: &Packet,
    verdict: &Verdict,
) -> Result<(), AllocError>
    ensures ok { OnOk result (out.new.tokens ≡ out.old.tokens ++ values_tokens (answers packet.now verdict.now)) }
    ensures before { out.new.before ≡ out.old.before }
{
    match verdict {
        Verdict::Route(_, route) => push_object(out, alloc, &route_answer(packet, route)),
        Verdict::RuleSays(_, action) => push_object(out, alloc, &drop_answer(packet, *action)),
        Verdict::NoRoute => Ok(()),
    }
}

/// Writes the array of the routes that a selector takes.
pub(crate) fn push_routes(
    out: &mut Writer,
    alloc: Global,
    version: &Version,
    selector: &Selector,
) -> Result<(), AllocError>
    ensures ok { OnOk result (out.new.tokens ≡ out.old.tokens ++ json_tokens (routes_json version.now selector.now)) }
    ensures before { out.new.before ≡ out.old.before }
{
    let Ok(routes) = version.routes(selector) else {
        return Err(AllocError);
    };
    out.begin_array()?;
    push_each_route(out, alloc, selector, &routes)?;
    out.end_array()
}

/// Writes the array of the rules.
pub(crate) fn push_rules(
    out: &mut Writer,
    alloc: Global,
    version: &Version,
) -> Result<(), AllocError>
    ensures ok { OnOk result (out.new.tokens ≡ out.old.tokens ++ json_tokens (rules_json version.now)) }
    ensures before { out.new.before ≡ out.old.before }
{
    out.begin_array()?;
    push_each_rule(out, alloc, version.rules())?;
    out.end_array()
}

/// Writes the array of what becomes of a packet.
pub(crate) fn push_answer(
    out: &mut Writer,
    alloc: Global,
    version: &Version,
    packet: &Packet,
) -> Result<(), AllocError>
    ensures ok { OnOk result (out.new.tokens ≡ out.old.tokens ++ json_tokens (answer_json version.now packet.now)) }
    ensures before { out.new.before ≡ out.old.before }
{
    out.begin_array()?;
    push_verdict(out, alloc, packet, &version.select(packet).verdict)?;
    out.end_array()
}
