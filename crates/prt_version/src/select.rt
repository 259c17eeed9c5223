ghost use Rattle.std.specs.Prelude.{◌≡◌, ◌<◌, ◌≤◌, length, option_map};
ghost use Rattle.prt_version.specs.Found.{verdict_in};
ghost use Rattle.prt_version.specs.RuleIndex.{IsIndex};
ghost use Rattle.prt_version.specs.Select.{decision, suppresses, table_lookup};
ghost use Rattle.prt_version.specs.Steps.{IsFirstIn, first_verdict};
ghost use Rattle.prt_version.specs.Tried.{AreTried};

use crate::rule_index::{RuleIndex, lists_for};
use crate::tables::Tables;
use crate::tried::Tried;
use crate::{Action, Found, Packet, Route, Rule, Verdict};
use prt_route::Kind;
use prt_rule::matches;

/// The best route of a table, unless a throw route ends the lookup there (`ip-route(8)`).
// Out of line, the search in a table leaves the loop over the rules an innermost one, which the compiler keeps tight.
#[inline(never)]
fn table_lookup<'a>(routes: &'a Tables, table: u32, packet: &Packet) -> Option<&'a Route>
    ensures { option_map (λ r. r.now) result ≡ table_lookup table routes.now packet.now }
{
    let route = routes.find(table, packet.dst)?;
    if route.kind == Kind::Throw {
        None
    } else {
        Some(route)
    }
}

/// Checks whether a rule says nothing if it finds this route: it suppresses unicast routes whose prefixes have this
/// length or less (`ip-rule(8)`, `suppress_prefixlength`).
fn suppresses(suppress: Option<u8>, route: &Route) -> bool
    ensures { result ≡ suppresses suppress route.now }
{
    match suppress {
        Some(len) => route.kind == Kind::Unicast && route.prefix.len() <= len,
        None => false,
    }
}

/// Finds what one rule says of a packet, if it decides (`ip-rule(8)`).
#[inline(always)]
fn decision<'a>(rule: &Rule, routes: &'a Tables, packet: &Packet) -> Option<Found<'a>>
    ensures { option_map verdict_in result ≡ decision rule.now routes.now packet.now }
{
    if !matches(rule, packet) {
        return None;
    }
    let Action::Lookup(table) = rule.action else {
        return Some(Found::RuleSays(rule.priority, rule.action));
    };
    let route = table_lookup(routes, table, packet)?;
    if suppresses(rule.suppress, route) {
        return None;
    }
    Some(Found::Route(rule.priority, route))
}

/// Finds what the first of these rules that decides says, if they are tried as they come (`ip-rule(8)`).
#[tactic(auto, using(crate::proofs::Silent::one_silent, crate::proofs::Silent::first_says, crate::proofs::Silent::none_says))]
pub(crate) fn first_found<'a>(
    rules: &[Rule],
    tried: Tried,
    routes: &'a Tables,
    packet: &Packet,
) -> Found<'a>
    requires { AreTried rules.now routes.now tried }
    ensures { verdict_in result ≡ first_verdict rules.now routes.now packet.now }
{
    for place in tried.from..tried.to {
        if let Some(found) = decision(&rules[place], routes, packet) {
            return found;
        }
    }
    Found::NoRoute
}

/// Finds what the first of these rules that decides says, if they are tried as they come (`ip-rule(8)`). It takes no memory.
pub fn first_verdict(rules: &[Rule], routes: &Tables, packet: &Packet) -> Verdict
    ensures { result ≡ first_verdict rules.now routes.now packet.now }
{
    first_found(rules, Tried::all(rules), routes, packet).verdict()
}

/// Finds the place of the first rule of the list that decides, before this place, and what it says.
fn first_in<'a>(
    rules: &[Rule],
    index: &RuleIndex,
    list: usize,
    before: usize,
    routes: &'a Tables,
    packet: &Packet,
) -> Option<(usize, Found<'a>)>
    requires index { IsIndex rules.now index.now }
    requires list { list < 513 }
    requires before { before ≤ length rules.now }
    ensures { IsFirstIn rules.now list before routes.now packet.now (option_map (λ first. (first.0, verdict_in first.1)) result) }
{
    let mut place = index.first[list] as usize;
    while place < before {
        if let Some(found) = decision(&rules[place], routes, packet) {
            return Some((place, found));
        }
        place = index.next[place] as usize;
    }
    None
}

/// Finds what the first of the rules that decides says, and tries only those in the lists of the packet.
pub(crate) fn indexed_found<'a>(
    rules: &[Rule],
    index: &RuleIndex,
    routes: &'a Tables,
    packet: &Packet,
) -> Found<'a>
    requires { IsIndex rules.now index.now }
    ensures { verdict_in result ≡ first_verdict rules.now routes.now packet.now }
{
    let lists = lists_for(packet);
    let mut before = rules.len();
    let mut found = Found::NoRoute;
    for list in lists.as_slice() {
        if let Some((place, says)) = first_in(rules, index, *list, before, routes, packet) {
            before = place;
            found = says;
        }
    }
    found
}
