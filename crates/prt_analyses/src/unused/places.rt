//! The place of the rule that decides a packet, and of the route that the packet gets.
ghost use Rattle.std.specs.Prelude.{◌≡◌, ◌<◌, IfSome, Some, length};
ghost use Rattle.std.specs.List.{Contains};
ghost use Rattle.prt_addr.specs.Rising.{IsRising};
ghost use Rattle.prt_route.specs.Route.{is_listed_before};
ghost use Rattle.prt_version.specs.Select.{select, suppresses};
ghost use Rattle.prt_analyses.specs.Unused.Steps.{agrees, is_lookup_of, place_by, place_of_key, route_place, rule_place};

use prt_route::{Kind, Route};
use prt_rule::{Action, Packet, Rule, matches};
use prt_version::{Verdict, Version};

/// Checks whether a rule of this length says nothing if it finds this route (`ip-rule(8)`, `suppress_prefixlength`).
fn suppresses(suppress: Option<u8>, route: &Route) -> bool
    ensures { result ≡ suppresses suppress route.now }
{
    match suppress {
        Some(len) => route.kind == Kind::Unicast && route.prefix.len() <= len,
        None => false,
    }
}

/// Checks whether the rule looks up the table.
pub(crate) fn is_lookup_of(table: u32, rule: &Rule) -> bool
    ensures { result ≡ is_lookup_of table rule.now }
{
    rule.action == Action::Lookup(table)
}

/// Checks whether the rule matches the packet and does what the verdict says. The first rule that does decides the packet, if
/// the verdict is the packet's.
fn agrees(packet: &Packet, verdict: &Verdict, rule: &Rule) -> bool
    ensures { result ≡ agrees packet.now verdict.now rule.now }
{
    match verdict {
        Verdict::Route(priority, route) => {
            rule.priority == *priority
                && matches(rule, packet)
                && is_lookup_of(route.table, rule)
                && !suppresses(rule.suppress, route)
        }
        Verdict::RuleSays(priority, action) => {
            rule.priority == *priority && matches(rule, packet) && rule.action == *action
        }
        Verdict::NoRoute => false,
    }
}

/// Finds the place of the rule that decides the packet, if the verdict is the packet's.
pub(crate) fn rule_place(version: &Version, packet: &Packet, verdict: &Verdict) -> Option<usize>
    requires { verdict.now ≡ select version.now packet.now }
    ensures place { result ≡ rule_place version.now packet.now }
    ensures within { IfSome result (λ place. place < length version.now.rules) }
{
    version
        .rules()
        .iter()
        .position(|rule| agrees(packet, verdict, rule))
}

/// Finds the place of the route among routes in the order of listings.
fn place_of_key(routes: &[Route], route: &Route) -> usize
    requires order { IsRising is_listed_before routes.now }
    requires held { Contains routes.now route.now }
    ensures place { place_of_key routes.now route.now ≡ Some result }
    ensures within { result < length routes.now }
{
    routes.partition_point(|other| other.listing_key() < route.listing_key())
}

/// Finds the place of the route that the packet gets, if the verdict is the packet's. The routes are those of the version.
pub(crate) fn route_place(
    version: &Version,
    routes: &[Route],
    packet: &Packet,
    verdict: &Verdict,
) -> Option<usize>
    requires routes { routes.now ≡ version.now.routes }
    requires verdict { verdict.now ≡ select version.now packet.now }
    ensures place { result ≡ route_place version.now packet.now }
    ensures within { IfSome result (λ place. place < length version.now.routes) }
{
    // The version's contract says that its routes are in order.
    let _number = version.number();
    match verdict {
        Verdict::Route(_, route) => Some(place_of_key(routes, route)),
        _ => None,
    }
}
