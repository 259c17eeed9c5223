//! What is reported of a rule that decides no packet, and of a route that no packet gets.
ghost use Rattle.std.specs.Prelude.{◌≡◌, MatchOption, find};
ghost use Rattle.std.specs.List.{list_any};
ghost use Rattle.prt_rule.specs.Rule.{matches};
ghost use Rattle.prt_version.specs.Select.{is_throw};
ghost use Rattle.prt_analyses.specs.Unused.Steps.{all_packets, example_of, is_lookup_of, matched_packet, packets_to, unused_rule};
ghost use Rattle.prt_analyses.specs.Unused.{AllMiss, IsReached, IsRouteReason};

use super::matching::{named_packet, packet_to};
use super::places::is_lookup_of;
use super::report::{Example, RouteReason, RuleReason, UnusedRoute, UnusedRule};
use super::used::to;
use prt_route::{Kind, Route};
use prt_rule::{Packet, Rule, matches};
use prt_version::Version;

/// Returns the packet with its verdict.
fn example_of(version: &Version, packet: &Packet) -> Example
    ensures { result ≡ example_of version.now packet.now }
{
    Example {
        packet: *packet,
        verdict: version.select(packet).verdict,
    }
}

/// Finds the packet of this class to the first of these destinations at which the rule matches it.
fn match_in(rule: &Rule, starts: &[u32], class: &Packet) -> Option<Packet>
    ensures { result ≡ find (matches rule.now) (packets_to starts.now class.now) }
{
    for start in starts {
        let packet = to(class, *start);
        if matches(rule, &packet) {
            return Some(packet);
        }
    }
    None
}

/// Finds the first packet of these classes to these destinations that the rule matches, if there is one.
fn match_among(rule: &Rule, starts: &[u32], classes: &[Packet]) -> Option<Packet>
    ensures { result ≡ find (matches rule.now) (all_packets starts.now classes.now) }
{
    for class in classes {
        if let Some(packet) = match_in(rule, starts, class) {
            return Some(packet);
        }
    }
    None
}

/// Finds a packet that the rule matches: the one that its selector names, or else the first of these classes and
/// destinations.
fn matched_packet(rule: &Rule, starts: &[u32], classes: &[Packet]) -> Option<Packet>
    ensures { result ≡ matched_packet (all_packets starts.now classes.now) rule.now }
{
    let packet = named_packet(rule, rule.to.bits());
    if matches(rule, &packet) {
        return Some(packet);
    }
    match_among(rule, starts, classes)
}

/// Returns the rule with a packet that it matches and what becomes of that, if there is one.
pub(crate) fn unused_rule(
    version: &Version,
    starts: &[u32],
    classes: &[Packet],
    rule: &Rule,
) -> UnusedRule
    ensures { result ≡ unused_rule version.now (all_packets starts.now classes.now) rule.now }
{
    let reason = match matched_packet(rule, starts, classes) {
        Some(packet) => RuleReason::Matches(example_of(version, &packet)),
        None => RuleReason::MatchesNothing,
    };
    UnusedRule {
        rule: *rule,
        reason,
    }
}

/// Checks whether a rule looks up the table.
fn is_looked_up(rules: &[Rule], table: u32) -> bool
    ensures { result ≡ list_any (is_lookup_of table) rules.now }
{
    rules.iter().any(|rule| is_lookup_of(table, rule))
}

/// Checks whether a lookup that finds a route of this kind ends without one.
fn is_throw(kind: Kind) -> bool
    ensures { result ≡ is_throw kind }
{
    matches!(kind, Kind::Throw)
}

/// Finds a packet to the prefix of the route that one of the rules which look up its table matches, if there is one.
fn packet_under(rules: &[Rule], route: &Route) -> Option<Packet>
    ensures { MatchOption result (AllMiss rules.now route.now) (IsReached rules.now route.now) }
{
    for rule in rules {
        if is_lookup_of(route.table, rule) {
            if let Some(packet) = packet_to(rule, &route.prefix) {
                return Some(packet);
            }
        }
    }
    None
}

/// Says of a route that no rule looks up its table, that it is a throw route, or that no rule which looks up its table matches
/// a packet to its prefix. Otherwise it gives such a packet and what becomes of that.
fn route_reason(version: &Version, route: &Route) -> RouteReason
    ensures { IsRouteReason version.now route.now result }
{
    let rules = version.rules();
    if !is_looked_up(rules, route.table) {
        return RouteReason::NoRule;
    }
    if is_throw(route.kind) {
        return RouteReason::Throws;
    }
    match packet_under(rules, route) {
        Some(packet) => RouteReason::Reaches(example_of(version, &packet)),
        None => RouteReason::Unmatched,
    }
}

/// Returns the route with what is reported of it.
pub(crate) fn unused_route(version: &Version, route: &Route) -> UnusedRoute
    ensures route { result.route ≡ route.now }
    ensures reason { IsRouteReason version.now route.now result.reason }
{
    UnusedRoute {
        route: *route,
        reason: route_reason(version, route),
    }
}
