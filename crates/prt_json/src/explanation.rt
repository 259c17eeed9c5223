//! Why a packet goes where it goes.
ghost use Rattle.std.specs.Prelude.{◌≡◌, ℕ, if◌then◌else◌, [], ◌∷◌, ◌++◌, Some, IfOk, OnOk, codes, is_some, option_map};
ghost use Rattle.std.specs.Str.Lossy.{utf8_lossy};
ghost use Rattle.prt_rule.specs.Rule.{matches};
ghost use Rattle.prt_rule.specs.declared.rule.Action.TheVariants.{Lookup};
ghost use Rattle.prt_version.specs.Select.{verdict_by};
ghost use Rattle.prt_explain.specs.Explanation.{first_mismatch};
ghost use Rattle.json.specs.Tree.{json_tokens};
ghost use Rattle.prt_json.specs.ExplanationJson.{asked_json, asked_rules_json, decides, explanation_json, lookup_fields, match_fields, packet_fields};
ghost use Rattle.prt_json.specs.ExplanationJson.{route_field, truth_field};
ghost use Rattle.prt_json.specs.Fields.{text_field};
ghost use Rattle.prt_json.specs.Steps.{asked_tokens, fields_tokens, member_of, members_of};

use crate::arrays::push_answer;
use crate::field::{Field, Value, truth_field};
use crate::push::{push_fields, push_object};
use crate::route::{all_tables, route_fields};
use crate::rule::rule_fields;
use json::Writer;
use prt_explain::{Found, first_mismatch, look_up, suppresses};
use prt_route::{Kind, Route};
use prt_rule::{Action, Packet, Rule, matches};
use prt_version::Version;
use std::alloc::{AllocError, Global};

/// Builds the fields of the packet that is asked for.
fn packet_fields(packet: &Packet) -> [Option<Field>; 4]
    ensures { members_of result ≡ packet_fields packet.now }
{
    [
        Some(Field("dst", Value::Addr(packet.dst))),
        Some(Field("src", Value::Addr(packet.src))),
        Some(Field("iif", Value::Dev(packet.iif))),
        Some(Field("mark", Value::Number(u64::from(packet.mark)))),
    ]
}

/// Makes the field of the first part of the rule's selector that the packet doesn't agree with, if there is one.
fn mismatch_field(rule: &Rule, packet: &Packet) -> Option<Field>
    ensures { member_of result ≡ text_field (codes "mismatch") (option_map utf8_lossy (first_mismatch rule.now packet.now)) }
{
    match first_mismatch(rule, packet) {
        Some(part) => Some(Field("mismatch", Value::Part(part))),
        None => None,
    }
}

/// Builds the fields of whether a rule matches, and why it doesn't.
fn match_fields(rule: &Rule, packet: &Packet) -> [Option<Field>; 2]
    ensures { members_of result ≡ match_fields rule.now packet.now }
{
    [
        truth_field("matches", matches(rule, packet)),
        mismatch_field(rule, packet),
    ]
}

/// Writes a field with a route, if there is one.
fn push_route(
    out: &mut Writer,
    alloc: Global,
    name: &str,
    route: &Option<Route>,
) -> Result<(), AllocError>
    ensures ok { OnOk result (out.new.tokens ≡ out.old.tokens ++ fields_tokens (route_field name.now route.now ∷ [])) }
    ensures before { out.new.before ≡ out.old.before }
{
    let Some(route) = route else {
        return Ok(());
    };
    out.key(name)?;
    push_object(out, alloc, &route_fields(&all_tables(), route))
}

/// Writes the fields of what a lookup found, and of whether the rule suppresses it.
fn push_found(
    out: &mut Writer,
    alloc: Global,
    found: &Found,
    suppressed: bool,
) -> Result<(), AllocError>
    ensures ok { OnOk result (out.new.tokens
        ≡ out.old.tokens ++ fields_tokens
        (route_field (codes "found") (Some found.now.best) ∷ route_field (codes "runner_up") found.now.runner_up
        ∷ truth_field (codes "suppressed") suppressed ∷ [])) }
    ensures before { out.new.before ≡ out.old.before }
{
    push_route(out, alloc, "found", &Some(found.best))?;
    push_route(out, alloc, "runner_up", &found.runner_up)?;
    push_fields(out, alloc, &[truth_field("suppressed", suppressed)])
}

/// Writes the fields of what a rule finds in its table, and returns whether it decides.
fn push_lookup(
    out: &mut Writer,
    alloc: Global,
    suppress: Option<u8>,
    table: u32,
    version: &Version,
    packet: &Packet,
) -> Result<bool, AllocError>
    ensures ok { OnOk result (out.new.tokens ≡ out.old.tokens ++ fields_tokens (lookup_fields (Lookup table) suppress version.now.routes packet.now.dst)) }
    ensures decides { IfOk result (λ decides. (priority : ℕ) → decides ≡ is_some (verdict_by (Lookup table) suppress priority version.now.routes packet.now)) }
    ensures before { out.new.before ≡ out.old.before }
{
    match look_up(version, table, packet.dst) {
        Ok(Some(found)) => {
            let suppressed = suppresses(suppress, &found.best);
            push_found(out, alloc, &found, suppressed)?;
            Ok(!suppressed && found.best.kind != Kind::Throw)
        }
        Ok(None) => Ok(false),
        Err(AllocError) => Err(AllocError),
    }
}

/// Writes the fields of what a rule does with the packet if it matches, and returns whether it decides.
fn push_action(
    out: &mut Writer,
    alloc: Global,
    rule: &Rule,
    version: &Version,
    packet: &Packet,
) -> Result<bool, AllocError>
    ensures ok { OnOk result (out.new.tokens
        ≡ out.old.tokens ++ fields_tokens
        (if matches rule.now packet.now then lookup_fields rule.now.action rule.now.suppress version.now.routes packet.now.dst else [])) }
    ensures decides { IfOk result (λ it. it ≡ decides version.now.routes packet.now rule.now) }
    ensures before { out.new.before ≡ out.old.before }
{
    if !matches(rule, packet) {
        return Ok(false);
    }
    match rule.action {
        Action::Lookup(table) => push_lookup(out, alloc, rule.suppress, table, version, packet),
        Action::Blackhole | Action::Unreachable | Action::Prohibit => Ok(true),
    }
}

/// Writes the object of a rule that is tried, and returns whether it decides.
fn push_asked(
    out: &mut Writer,
    alloc: Global,
    rule: &Rule,
    version: &Version,
    packet: &Packet,
) -> Result<bool, AllocError>
    ensures ok { OnOk result (out.new.tokens ≡ out.old.tokens ++ json_tokens (asked_json version.now.routes packet.now rule.now)) }
    ensures decides { IfOk result (λ it. it ≡ decides version.now.routes packet.now rule.now) }
    ensures before { out.new.before ≡ out.old.before }
{
    out.begin_object()?;
    push_fields(out, alloc, &rule_fields(rule))?;
    push_fields(out, alloc, &match_fields(rule, packet))?;
    let decides = push_action(out, alloc, rule, version, packet)?;
    push_fields(out, alloc, &[truth_field("decides", decides)])?;
    out.end_object()?;
    Ok(decides)
}

/// Writes the objects of the rules that are tried.
fn push_each_asked(
    out: &mut Writer,
    alloc: Global,
    version: &Version,
    packet: &Packet,
) -> Result<(), AllocError>
    ensures ok { OnOk result (out.new.tokens ≡ out.old.tokens ++ asked_tokens version.now.rules version.now.routes packet.now) }
    ensures before { out.new.before ≡ out.old.before }
{
    for rule in version.rules() {
        if push_asked(out, alloc, rule, version, packet)? {
            return Ok(());
        }
    }
    Ok(())
}

/// Writes the array of the rules that are tried.
fn push_asked_rules(
    out: &mut Writer,
    alloc: Global,
    version: &Version,
    packet: &Packet,
) -> Result<(), AllocError>
    ensures ok { OnOk result (out.new.tokens ≡ out.old.tokens ++ json_tokens (asked_rules_json version.now packet.now)) }
    ensures before { out.new.before ≡ out.old.before }
{
    out.begin_array()?;
    push_each_asked(out, alloc, version, packet)?;
    out.end_array()
}

/// Writes the object of why a packet goes where it goes.
pub(crate) fn push_explanation(
    out: &mut Writer,
    alloc: Global,
    version: &Version,
    packet: &Packet,
) -> Result<(), AllocError>
    ensures ok { OnOk result (out.new.tokens ≡ out.old.tokens ++ json_tokens (explanation_json version.now packet.now)) }
    ensures before { out.new.before ≡ out.old.before }
{
    out.begin_object()?;
    out.key("packet")?;
    push_object(out, alloc, &packet_fields(packet))?;
    out.key("rules")?;
    push_asked_rules(out, alloc, version, packet)?;
    out.key("answer")?;
    push_answer(out, alloc, version, packet)?;
    out.end_object()
}
