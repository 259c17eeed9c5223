//! What the line of a command says, part by part.
ghost use Rattle.std.specs.Prelude.{◌≡◌, Some, codes, decimal, map, option_map};
ghost use Rattle.prt_route.specs.Kind.{kind_name};
ghost use Rattle.prt_listing.specs.Parts.{part};
ghost use Rattle.prt_listing.specs.RuleText.{action_text};
ghost use Rattle.prt_listing.specs.Steps.{part_of, value_text};
ghost use Rattle.prt_spelling.specs.Parts.{given_mark_part, given_mark_text, given_of, given_of_route, global_part, has_unsaid_scope, is_zero_mark};
ghost use Rattle.prt_spelling.specs.Parts.{prefix_part, proto_part, protocol_text, range_part, ranged, route_choice_parts, rule_choice_parts, said};
ghost use Rattle.prt_spelling.specs.Parts.{said_kind, scope_part, scope_text, selector_parts, tables_text};

use crate::form::NameForm;
use prt_command::NewRule;
use prt_listing::{
    Part, TablePart, Value, action_part, addr_part, dev_part, is_everything, not_part, prefix_or,
    protocol_value, scope_value, suppress_part, table_part, table_value,
};
use prt_route::{BOOT_PROTOCOL, GLOBAL_SCOPE, Kind, Prefix, Range, Route, RouteChoice, Selector};
use prt_rule::{Action, Mark, RuleChoice};

/// The metric that is implied.
const UNSAID_METRIC: u32 = 0;

/// Checks whether a listing leaves out the scope of the route, and a new route would have another.
fn has_unsaid_scope(route: &Route) -> bool
    ensures { result ≡ has_unsaid_scope route.now }
{
    matches!(route.kind, Kind::Unicast) && route.via.is_none() && route.scope == GLOBAL_SCOPE
}

/// Returns the kind before a destination, if one is given.
fn kind_part(kind: Option<Kind>) -> Option<Part>
    ensures { part_of result ≡ option_map kind_name kind }
{
    match kind {
        Some(kind) => Some(Part::Alone(Value::Text(kind.name()))),
        None => None,
    }
}

/// Returns the kind of the routes to be flushed, if one is given.
fn type_part(kind: Option<Kind>) -> Option<Part>
    ensures { part_of result ≡ part (codes "type") (option_map kind_name kind) }
{
    match kind {
        Some(kind) => Some(Part::Named("type", Value::Text(kind.name()))),
        None => None,
    }
}

/// Returns the name of a protocol, if the form has one, or its number.
fn protocol_in(form: NameForm, proto: u8) -> Value
    ensures { value_text result ≡ protocol_text form proto }
{
    match form {
        NameForm::ByName => protocol_value(proto),
        NameForm::ByNumber => Value::Number(u64::from(proto)),
    }
}

/// Returns the protocol, if one is given.
fn proto_part(form: NameForm, proto: Option<u8>) -> Option<Part>
    ensures { part_of result ≡ proto_part form proto }
{
    match proto {
        Some(proto) => Some(Part::Named("proto", protocol_in(form, proto))),
        None => None,
    }
}

/// Returns the name of a scope, if the form has one, or its number.
fn scope_in(form: NameForm, scope: u8) -> Value
    ensures { value_text result ≡ scope_text form scope }
{
    match form {
        NameForm::ByName => scope_value(scope),
        NameForm::ByNumber => Value::Number(u64::from(scope)),
    }
}

/// Returns the scope, if one is given.
fn scope_part(form: NameForm, scope: Option<u8>) -> Option<Part>
    ensures { part_of result ≡ scope_part form scope }
{
    match scope {
        Some(scope) => Some(Part::Named("scope", scope_in(form, scope))),
        None => None,
    }
}

/// Says that the scope of a new route is global, if that has to be said.
pub(crate) fn global_part(form: NameForm, route: &Route) -> Option<Part>
    ensures { part_of result ≡ global_part form route.now }
{
    if has_unsaid_scope(route) {
        scope_part(form, Some(GLOBAL_SCOPE))
    } else {
        None
    }
}

/// Builds a word and a number, if one is given.
fn number_part(word: &'static str, number: Option<u32>) -> Option<Part>
    ensures { part_of result ≡ part word.now (option_map decimal number) }
{
    match number {
        Some(number) => Some(Part::Named(word, Value::Number(u64::from(number)))),
        None => None,
    }
}

/// Lists what a line says of the route to be deleted.
pub(crate) fn route_choice_parts(form: NameForm, choice: &RouteChoice) -> [Option<Part>; 9]
    ensures { map part_of result ≡ route_choice_parts form choice.now }
{
    [
        kind_part(choice.kind),
        Some(Part::Alone(prefix_or("default", &choice.prefix))),
        addr_part("via", choice.via),
        dev_part("dev", choice.dev),
        table_part(TablePart::Shown, choice.table),
        proto_part(form, choice.proto),
        scope_part(form, choice.scope),
        addr_part("src", choice.src),
        number_part("metric", choice.metric),
    ]
}

/// Returns the number, except for one that is implied.
fn said(unsaid: u32, number: u32) -> Option<u32>
    ensures { result ≡ said unsaid number }
{
    if number == unsaid { None } else { Some(number) }
}

/// Returns the byte, except for one that is implied.
fn said_byte(unsaid: u8, byte: u8) -> Option<u8>
    ensures { result ≡ said unsaid byte }
{
    if byte == unsaid { None } else { Some(byte) }
}

/// Returns the kind, except for unicast.
fn said_kind(kind: Kind) -> Option<Kind>
    ensures { result ≡ said_kind kind }
{
    match kind {
        Kind::Unicast => None,
        _ => Some(kind),
    }
}

/// Collects what a line has to say of a route to be put: all except what a listing leaves out.
pub(crate) fn given_of_route(route: &Route) -> RouteChoice
    ensures { result ≡ given_of_route route.now }
{
    RouteChoice {
        table: route.table,
        prefix: route.prefix,
        metric: said(UNSAID_METRIC, route.metric),
        kind: said_kind(route.kind),
        via: route.via,
        dev: route.dev,
        src: route.src,
        proto: said_byte(BOOT_PROTOCOL, route.proto),
        scope: said_byte(GLOBAL_SCOPE, route.scope),
    }
}

/// Builds a prefix after the word for what is taken by it.
fn ranged(word: &'static str, block: &Prefix) -> Option<Part>
    ensures { part_of result ≡ ranged word.now block.now }
{
    Some(Part::Named(word, prefix_or("default", block)))
}

/// Returns the prefixes of the routes to be flushed, if they are not all.
fn range_part(range: &Range) -> Option<Part>
    ensures { part_of result ≡ range_part range.now }
{
    match range {
        Range::All => None,
        Range::Root(block) => ranged("root", block),
        Range::Covering(block) => ranged("match", block),
        Range::Exact(block) => ranged("exact", block),
    }
}

/// Returns a table, or the word for all of them.
fn tables_value(table: Option<u32>) -> Value
    ensures { value_text result ≡ tables_text table }
{
    match table {
        Some(table) => table_value(table),
        None => Value::Text("all"),
    }
}

/// Lists what a line says of the routes to be flushed.
pub(crate) fn selector_parts(form: NameForm, selector: &Selector) -> [Option<Part>; 6]
    ensures { map part_of result ≡ selector_parts form selector.now }
{
    [
        range_part(&selector.range),
        Some(Part::Named("table", tables_value(selector.table))),
        type_part(selector.kind),
        proto_part(form, selector.proto),
        scope_part(form, selector.scope),
        dev_part("dev", selector.dev),
    ]
}

/// Builds a word and a prefix, if one is given.
fn prefix_part(word: &'static str, block: Option<Prefix>) -> Option<Part>
    ensures { part_of result ≡ prefix_part word.now block }
{
    match block {
        Some(block) => Some(Part::Named(word, prefix_or("all", &block))),
        None => None,
    }
}

/// Says what an action does, if one is given.
fn given_action(action: Option<Action>) -> Option<Part>
    ensures { part_of result ≡ option_map action_text action }
{
    match action {
        Some(action) => Some(action_part(action)),
        None => None,
    }
}

/// Checks whether the mark is 0, and every bit of it counts.
fn is_zero_mark(mark: Mark) -> bool
    ensures { result ≡ is_zero_mark mark }
{
    mark.mark == 0 && mark.mask == u32::MAX
}

/// Returns the mark as a line writes it: 0 with its mask, since `ip` reads it as no mark without one.
fn mark_value(mark: Mark) -> Value
    ensures { value_text result ≡ given_mark_text mark }
{
    if is_zero_mark(mark) {
        Value::Text("0x0/0xffffffff")
    } else {
        Value::Mark(mark)
    }
}

/// Returns the mark, if one is given.
fn mark_part(mark: Option<Mark>) -> Option<Part>
    ensures { part_of result ≡ given_mark_part mark }
{
    match mark {
        Some(mark) => Some(Part::Named("fwmark", mark_value(mark))),
        None => None,
    }
}

/// Lists what a line says of a rule to be deleted.
pub(crate) fn rule_choice_parts(choice: &RuleChoice) -> [Option<Part>; 8]
    ensures { map part_of result ≡ rule_choice_parts choice.now }
{
    [
        number_part("priority", choice.priority),
        not_part(choice.inverted),
        prefix_part("from", choice.from),
        prefix_part("to", choice.to),
        mark_part(choice.mark),
        dev_part("iif", choice.iif),
        given_action(choice.action),
        suppress_part(choice.suppress),
    ]
}

/// Collects what a line has to say of a rule to be added: all except the destinations, if they are all.
pub(crate) fn given_of(rule: &NewRule) -> RuleChoice
    ensures { result ≡ given_of rule.now }
{
    RuleChoice {
        priority: rule.priority,
        inverted: rule.inverted,
        from: Some(rule.from),
        to: if is_everything(&rule.to) {
            None
        } else {
            Some(rule.to)
        },
        iif: rule.iif,
        mark: rule.mark,
        action: Some(rule.action),
        suppress: rule.suppress,
    }
}
