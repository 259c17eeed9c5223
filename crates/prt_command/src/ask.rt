//! What the items of a line ask for together.
ghost use Rattle.std.specs.Prelude.{◌≡◌, nat_lt};
ghost use Rattle.prt_addr.specs.Word.{keep};
ghost use Rattle.prt_command.specs.Requests.{has_next_hop, new_route, packet_of, route_by, route_choice, route_del_request, route_flush_request};
ghost use Rattle.prt_command.specs.Requests.{route_get_request, route_of, rule_add_request, rule_choice, rule_del_request, rule_of, scope_of};
ghost use Rattle.prt_command.specs.Requests.{selected_table, selector_of, suppresses_without_lookup, unless_empty};
ghost use Rattle.prt_command.specs.Reading.{meaning_of};

use crate::verb::ObjectVerb;
use crate::{Command, Items, NewRule, Query, Request, Target, WhichTables};
use prt_route::{
    Addr, BOOT_PROTOCOL, Dev, GLOBAL_SCOPE, Kind, LINK_SCOPE, MAIN_TABLE, Prefix, Range, Refusal,
    Route, RouteChoice, Selector,
};
use prt_rule::{Action, Packet, RuleChoice};

impl ObjectVerb {
    /// Asks for what the items of a line say, or answers what they lack.
    pub(crate) fn request(self, items: &Items) -> Result<Request, Refusal>
        ensures { result ≡ (meaning_of self).asks items.now }
    {
        match self {
            ObjectVerb::RouteAdd => {
                new_route(items).map(|route| Request::Command(Command::RouteAdd(route)))
            }
            ObjectVerb::RouteChange => {
                new_route(items).map(|route| Request::Command(Command::RouteChange(route)))
            }
            ObjectVerb::RouteReplace => {
                new_route(items).map(|route| Request::Command(Command::RouteReplace(route)))
            }
            ObjectVerb::RouteDel => route_del_request(items),
            ObjectVerb::RouteFlush => route_flush_request(items),
            ObjectVerb::RouteShow => Ok(Request::Query(Query::RouteShow(selector_of(items)))),
            ObjectVerb::RouteGet => route_get_request(items),
            ObjectVerb::RuleAdd => rule_add_request(items),
            ObjectVerb::RuleDel => rule_del_request(items),
            ObjectVerb::RuleFlush => Ok(Request::Command(Command::RuleFlush)),
            ObjectVerb::RuleShow => Ok(Request::Query(Query::RuleShow)),
        }
    }
}

/// Asks for this command, for which at least one item has to be given.
fn unless_empty(items: &Items, command: Command) -> Result<Request, Refusal>
    ensures { result ≡ unless_empty items.now command }
{
    if items.is_empty() {
        return Err(Refusal::TooBroad);
    }
    Ok(Request::Command(command))
}

/// Chooses the scope of a route of this kind, by its gateway and the scope that is given.
fn scope_of(kind: Kind, via: Option<Addr>, scope: Option<u8>) -> u8
    ensures { result ≡ scope_of kind via scope }
{
    match (kind, scope, via) {
        (Kind::Unicast, Some(scope), _) => scope,
        (Kind::Unicast, None, None) => LINK_SCOPE,
        _ => GLOBAL_SCOPE,
    }
}

/// Puts together the route of this kind and prefix.
fn route_of(items: &Items, kind: Kind, prefix: Prefix) -> Route
    ensures { result ≡ route_of items.now kind prefix }
{
    Route {
        table: items.table.unwrap_or(MAIN_TABLE),
        prefix,
        metric: items.metric.unwrap_or(0),
        kind,
        via: items.via,
        dev: items.dev,
        src: items.src,
        proto: items.proto.unwrap_or(BOOT_PROTOCOL),
        scope: scope_of(kind, items.via, items.scope),
    }
}

/// Checks whether a gateway or an interface was given.
fn has_next_hop(items: &Items) -> bool
    ensures { result ≡ has_next_hop items.now }
{
    items.via.is_some() || items.dev.is_some()
}

/// Checks that a next hop was given if the route is unicast, and only then, and puts the route together.
fn route_by(items: &Items, kind: Kind, prefix: Prefix) -> Result<Route, Refusal>
    ensures { result ≡ route_by items.now kind prefix }
{
    match (kind, has_next_hop(items)) {
        (Kind::Unicast, true) => Ok(route_of(items, kind, prefix)),
        (Kind::Unicast, false) => Err(Refusal::NoNextHop),
        (_, false) if items.src.is_none() => Ok(route_of(items, kind, prefix)),
        _ => Err(Refusal::NextHopNotAllowed),
    }
}

/// Puts together the route that the items say: its destination has to be given, and its kind is unicast if none is.
fn new_route(items: &Items) -> Result<Route, Refusal>
    ensures { result ≡ new_route items.now }
{
    let Target { kind, prefix } = items.destination.ok_or(Refusal::MissingDestination)?;
    route_by(items, kind.unwrap_or(Kind::Unicast), prefix)
}

/// Drops a metric of 0, which counts as none given.
fn given_metric(metric: Option<u32>) -> Option<u32>
    ensures { result ≡ keep (λ metric. nat_lt 0 metric) metric }
{
    match metric {
        Some(metric) if metric > 0 => Some(metric),
        _ => None,
    }
}

/// Puts together which routes `route del` chooses from.
fn route_choice(items: &Items, target: Target) -> RouteChoice
    ensures { result ≡ route_choice items.now target }
{
    RouteChoice {
        table: items.table.unwrap_or(MAIN_TABLE),
        prefix: target.prefix,
        metric: given_metric(items.metric),
        kind: target.kind,
        via: items.via,
        dev: items.dev,
        src: items.src,
        proto: items.proto,
        scope: items.scope,
    }
}

/// Asks for the deletion of a route, whose destination has to be given.
fn route_del_request(items: &Items) -> Result<Request, Refusal>
    ensures { result ≡ route_del_request items.now }
{
    let target = items.destination.ok_or(Refusal::MissingDestination)?;
    let choice = route_choice(items, target);
    Ok(Request::Command(Command::RouteDel(choice)))
}

/// Returns the number of the table that is selected: main if none is given, None for all.
fn selected_table(tables: Option<WhichTables>) -> Option<u32>
    ensures { result ≡ selected_table tables }
{
    match tables {
        None => Some(MAIN_TABLE),
        Some(WhichTables::One(table)) => Some(table),
        Some(WhichTables::All) => None,
    }
}

/// Puts together which routes `route show` and `flush` take.
fn selector_of(items: &Items) -> Selector
    ensures { result ≡ selector_of items.now }
{
    Selector {
        table: selected_table(items.tables),
        range: items.range.unwrap_or(Range::All),
        kind: items.of_kind,
        proto: items.proto,
        scope: items.scope,
        dev: items.dev,
    }
}

/// Asks for a flush of routes.
fn route_flush_request(items: &Items) -> Result<Request, Refusal>
    ensures { result ≡ route_flush_request items.now }
{
    unless_empty(items, Command::RouteFlush(selector_of(items)))
}

/// Puts together the packet that `route get` asks about.
fn packet_of(items: &Items, dst: Addr) -> Packet
    ensures { result ≡ packet_of items.now dst }
{
    Packet {
        dst,
        src: items.source.unwrap_or(Addr(0)),
        iif: items.iif.unwrap_or(Dev::loopback()),
        mark: items.mark.unwrap_or(0),
    }
}

/// Asks what becomes of a packet, whose address has to be given.
fn route_get_request(items: &Items) -> Result<Request, Refusal>
    ensures { result ≡ route_get_request items.now }
{
    let dst = items.address.ok_or(Refusal::MissingDestination)?;
    Ok(Request::Query(Query::Get(packet_of(items, dst))))
}

/// Puts together the rule that the items say.
fn rule_of(items: &Items) -> NewRule
    ensures { result ≡ rule_of items.now }
{
    NewRule {
        priority: items.priority,
        inverted: items.inverted,
        from: items.from.unwrap_or(Prefix::masked(0, 0)),
        to: items.to.unwrap_or(Prefix::masked(0, 0)),
        iif: items.iif,
        mark: items.fwmark,
        action: items.action.unwrap_or(Action::Lookup(MAIN_TABLE)),
        suppress: items.suppress,
    }
}

/// Checks whether a rule that looks up no table would suppress prefixes.
fn suppresses_without_lookup(rule: &NewRule) -> bool
    ensures { result ≡ suppresses_without_lookup rule.now }
{
    rule.suppress.is_some() && !matches!(&rule.action, Action::Lookup(_))
}

/// Asks for a rule; prefixes are suppressed only in a lookup.
fn rule_add_request(items: &Items) -> Result<Request, Refusal>
    ensures { result ≡ rule_add_request items.now }
{
    let rule = rule_of(items);
    if suppresses_without_lookup(&rule) {
        return Err(Refusal::SuppressNotAllowed);
    }
    Ok(Request::Command(Command::RuleAdd(rule)))
}

/// Puts together which rules `rule del` chooses from.
fn rule_choice(items: &Items) -> RuleChoice
    ensures { result ≡ rule_choice items.now }
{
    RuleChoice {
        priority: items.priority,
        inverted: items.inverted,
        from: items.from,
        to: items.to,
        iif: items.iif,
        mark: items.fwmark,
        action: items.action,
        suppress: items.suppress,
    }
}

/// Asks for the deletion of a rule.
fn rule_del_request(items: &Items) -> Result<Request, Refusal>
    ensures { result ≡ rule_del_request items.now }
{
    unless_empty(items, Command::RuleDel(rule_choice(items)))
}
