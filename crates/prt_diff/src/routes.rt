//! Which routes differ.
ghost use Rattle.std.specs.Prelude.{◌≡◌, ◌==◌, ◌&&◌, ◌++◌, IfOk, OnOk, filter, find, map, not};
ghost use Rattle.std.specs.List.{list_any};
ghost use Rattle.prt_addr.specs.Rising.{IsRising};
ghost use Rattle.prt_route.specs.Edit.{has_key};
ghost use Rattle.prt_route.specs.Route.{is_listed_before, key_of};
ghost use Rattle.prt_trie.specs.Table.{has_same_key};
ghost use Rattle.prt_diff.specs.Routes.{agrees, agrees_on_dev, agrees_on_src, delete_route, early_routes, gateways_are_found, has_agreeing};
ghost use Rattle.prt_diff.specs.Routes.{highest_first, in_turn, is_early, is_kept, is_late_link, is_looked_up, is_lookup_of, is_main_rule};
ghost use Rattle.prt_diff.specs.Routes.{kept_routes, late_routes, leaves_dev, missing_routes, rank, replace_route, unwanted_routes, wanted_routes};
ghost use Rattle.prt_diff.specs.Serving.{has_serving, is_made_alike, serves};

use crate::commands::{delete_route, replace_route};
use crate::fence::{Fence, is_kernels};
use prt_command::Command;
use prt_route::{MAIN_TABLE, Route};
use prt_rule::{Action, Rule};
use std::alloc::{AllocError, Global};

/// Checks whether the route may not be changed.
pub(crate) fn is_kept(fence: &Fence, route: &Route) -> bool
    ensures { result ≡ is_kept fence.now route.now }
{
    !fence.is_route_within(route)
}

/// Checks whether the kernel finds the interface of the route by its gateway.
fn leaves_dev(route: &Route) -> bool
    ensures { result ≡ leaves_dev route.now }
{
    route.via.is_some() && route.dev.is_none()
}

/// Checks whether the interface that is found is as it is wanted.
fn agrees_on_dev(wanted: &Route, found: &Route) -> bool
    ensures { result ≡ agrees_on_dev wanted.now found.now }
{
    leaves_dev(wanted) || wanted.dev == found.dev
}

/// Checks whether the source that is found is as it is wanted.
fn agrees_on_src(wanted: &Route, found: &Route) -> bool
    ensures { result ≡ agrees_on_src wanted.now found.now }
{
    (leaves_dev(wanted) && wanted.src.is_none()) || wanted.src == found.src
}

/// Checks whether the route that is found is as it is wanted, except for what the kernel fills in.
fn agrees(wanted: &Route, found: &Route) -> bool
    ensures { result ≡ agrees wanted.now found.now }
{
    wanted.key() == found.key()
        && wanted.kind == found.kind
        && wanted.via == found.via
        && agrees_on_dev(wanted, found)
        && agrees_on_src(wanted, found)
        && wanted.proto == found.proto
        && wanted.scope == found.scope
}

/// Looks up the route of the same key among routes in the order of listings.
fn find_same_key(routes: &[Route], route: &Route) -> Option<Route>
    requires { IsRising is_listed_before routes.now }
    ensures { result ≡ find (λ other. has_same_key other route.now) routes.now }
{
    let place = routes.partition_point(|other| other.listing_key() < route.listing_key());
    let other = routes.get(place)?;
    if other.key() == route.key() {
        Some(*other)
    } else {
        None
    }
}

/// Checks whether one of the routes has the key.
pub(crate) fn has_key(routes: &[Route], route: &Route) -> bool
    requires { IsRising is_listed_before routes.now }
    ensures { result ≡ has_key (key_of route.now) routes.now }
{
    match find_same_key(routes, route) {
        Some(_) => true,
        None => false,
    }
}

/// Checks whether the kernel made the route itself, as it is wanted except for its protocol and a source that isn't named.
fn is_made_alike(wanted: &Route, found: &Route) -> bool
    ensures { result ≡ is_made_alike wanted.now found.now }
{
    wanted.key() == found.key()
        && is_kernels(found)
        && wanted.kind == found.kind
        && wanted.via == found.via
        && agrees_on_dev(wanted, found)
        && (wanted.src.is_none() || wanted.src == found.src)
        && wanted.scope == found.scope
}

/// Checks whether the route that is found is as it is wanted, or the kernel made it so.
fn serves(wanted: &Route, found: &Route) -> bool
    ensures { result ≡ serves wanted.now found.now }
{
    agrees(wanted, found) || is_made_alike(wanted, found)
}

/// Checks whether the route that is found may not be changed, and doesn't serve for this one.
fn blocks(fence: &Fence, wanted: &Route, found: &Route) -> bool
    ensures { result ≡ is_kept fence.now found.now && not (serves wanted.now found.now) }
{
    is_kept(fence, found) && !serves(wanted, found)
}

/// Checks whether the route that is found may be changed, and isn't as this one is wanted.
fn gives_way(fence: &Fence, wanted: &Route, found: &Route) -> bool
    ensures { result ≡ not (is_kept fence.now found.now) && not (agrees wanted.now found.now) }
{
    !is_kept(fence, found) && !agrees(wanted, found)
}

/// Checks whether a kept route has the key, and none serves for this one.
pub(crate) fn is_blocked(fence: &Fence, found: &[Route], route: &Route) -> bool
    requires { IsRising is_listed_before found.now }
    ensures { result ≡ has_key (key_of route.now) (kept_routes fence.now found.now) && not (has_serving route.now found.now) }
{
    match find_same_key(found, route) {
        Some(other) => blocks(fence, route, &other),
        None => false,
    }
}

/// Checks whether no kept route has the key, and none is as this one is wanted.
fn is_unmade(fence: &Fence, found: &[Route], route: &Route) -> bool
    requires { IsRising is_listed_before found.now }
    ensures { result ≡ not (has_key (key_of route.now) (kept_routes fence.now found.now)) && not (has_agreeing route.now found.now) }
{
    match find_same_key(found, route) {
        Some(other) => gives_way(fence, route, &other),
        None => true,
    }
}

/// Checks whether no kept route has the key.
fn is_free(fence: &Fence, found: &[Route], route: &Route) -> bool
    requires { IsRising is_listed_before found.now }
    ensures { result ≡ not (has_key (key_of route.now) (kept_routes fence.now found.now)) }
{
    match find_same_key(found, route) {
        Some(other) => !is_kept(fence, &other),
        None => true,
    }
}

/// Checks whether a wanted route has the key.
fn has_wanted_key(fence: &Fence, found: &[Route], wanted: &[Route], route: &Route) -> bool
    requires found { IsRising is_listed_before found.now }
    requires wanted { IsRising is_listed_before wanted.now }
    ensures { result ≡ has_key (key_of route.now) (wanted_routes fence.now found.now wanted.now) }
{
    match find_same_key(wanted, route) {
        Some(other) => !is_kept(fence, &other) && is_free(fence, found, &other),
        None => false,
    }
}

/// Checks whether one of the routes serves for this one.
pub(crate) fn has_serving(routes: &[Route], route: &Route) -> bool
    requires { IsRising is_listed_before routes.now }
    ensures { result ≡ has_serving route.now routes.now }
{
    match find_same_key(routes, route) {
        Some(other) => serves(route, &other),
        None => false,
    }
}

/// Collects the wanted routes that are not found so.
pub(crate) fn missing_routes(
    alloc: Global,
    fence: &Fence,
    found: &[Route],
    wanted: &[Route],
) -> Result<Vec<Route>, AllocError>
    requires found { IsRising is_listed_before found.now }
    requires wanted { IsRising is_listed_before wanted.now }
    ensures { IfOk result (λ missing. missing.items ≡ missing_routes fence.now found.now wanted.now) }
{
    let mut missing = Vec::new(alloc);
    for route in wanted {
        if !is_kept(fence, route) && is_unmade(fence, found, route) {
            missing.push(*route)?;
        }
    }
    Ok(missing)
}

/// Appends the commands that delete the managed routes whose key no wanted one has.
pub(crate) fn push_unwanted_routes(
    commands: &mut Vec<Command>,
    fence: &Fence,
    found: &[Route],
    wanted: &[Route],
) -> Result<(), AllocError>
    requires found { IsRising is_listed_before found.now }
    requires wanted { IsRising is_listed_before wanted.now }
    ensures { OnOk result (commands.new.items ≡ commands.old.items ++ map delete_route (unwanted_routes fence.now found.now wanted.now)) }
{
    for route in found {
        if !is_kept(fence, route) && !has_wanted_key(fence, found, wanted, route) {
            commands.extend_from_slice(&[delete_route(route)])?;
        }
    }
    Ok(())
}

/// Checks whether the rule looks up the table.
fn is_lookup_of(table: u32, rule: &Rule) -> bool
    ensures { result ≡ is_lookup_of table rule.now }
{
    match rule.action {
        Action::Lookup(other) => table == other,
        _ => false,
    }
}

/// Checks whether some rule looks up the table.
fn is_looked_up(rules: &[Rule], table: u32) -> bool
    ensures { result ≡ is_looked_up rules.now table }
{
    rules.iter().any(|rule| is_lookup_of(table, rule))
}

/// Checks whether the rule looks up main for every packet.
fn is_main_rule(rule: &Rule) -> bool
    ensures { result ≡ is_main_rule rule.now }
{
    !rule.inverted
        && rule.from.len() == 0
        && rule.to.len() == 0
        && rule.iif.is_none()
        && rule.mark.is_none()
        && rule.suppress.is_none()
        && is_lookup_of(MAIN_TABLE, rule)
}

/// Checks whether some rule looks up main for every packet.
fn looks_through_main(rules: &[Rule]) -> bool
    ensures { result ≡ list_any is_main_rule rules.now }
{
    rules.iter().any(|rule| is_main_rule(rule))
}

/// Checks whether the route may reach a gateway of another, and a rule that is found looks up its table.
fn is_late_link(rules: &[Rule], route: &Route) -> bool
    ensures { result ≡ is_late_link rules.now route.now }
{
    route.via.is_none() && is_looked_up(rules, route.table)
}

/// Checks whether one of the routes is such a link.
fn has_late_link(rules: &[Rule], routes: &[Route]) -> bool
    ensures { result ≡ list_any (is_late_link rules.now) routes.now }
{
    routes.iter().any(|route| is_late_link(rules, route))
}

/// Checks whether the kernel finds each gateway before the rules come.
fn gateways_are_found(rules: &[Rule], routes: &[Route]) -> bool
    ensures { result ≡ gateways_are_found rules.now routes.now }
{
    looks_through_main(rules) && !has_late_link(rules, routes)
}

/// Checks whether the route comes before the rules: no rule looks up its table, and the kernel finds its gateway.
fn is_early(rules: &[Rule], gateways: bool, route: &Route) -> bool
    ensures { result ≡ is_early rules.now gateways route.now }
{
    !is_looked_up(rules, route.table) && (route.via.is_none() || gateways)
}

/// Collects those of the routes that come before the rules.
pub(crate) fn early_routes(
    alloc: Global,
    rules: &[Rule],
    routes: &[Route],
) -> Result<Vec<Route>, AllocError>
    ensures { IfOk result (λ early. early.items ≡ early_routes rules.now routes.now) }
{
    let gateways = gateways_are_found(rules, routes);
    let mut early = Vec::new(alloc);
    for route in routes {
        if is_early(rules, gateways, route) {
            early.push(*route)?;
        }
    }
    Ok(early)
}

/// Collects those of the routes that come after the rules.
pub(crate) fn late_routes(
    alloc: Global,
    rules: &[Rule],
    routes: &[Route],
) -> Result<Vec<Route>, AllocError>
    ensures { IfOk result (λ late. late.items ≡ late_routes rules.now routes.now) }
{
    let gateways = gateways_are_found(rules, routes);
    let mut late = Vec::new(alloc);
    for route in routes {
        if !is_early(rules, gateways, route) {
            late.push(*route)?;
        }
    }
    Ok(late)
}

/// Computes the rank of the route: those of higher rank come first.
fn rank(route: &Route) -> u32
    ensures { result ≡ rank route.now }
{
    let direct = if route.via.is_none() { 33 } else { 0 };
    direct
        + u32::from(if route.prefix.len() <= 32 {
            route.prefix.len()
        } else {
            32
        })
}

/// Appends the commands that put the routes of this rank.
fn push_ranked(commands: &mut Vec<Command>, routes: &[Route], n: u32) -> Result<(), AllocError>
    ensures { OnOk result (commands.new.items ≡ commands.old.items ++ map replace_route (filter (λ route. rank route == n) routes.now)) }
{
    for route in routes {
        if rank(route) == n {
            commands.extend_from_slice(&[replace_route(route)])?;
        }
    }
    Ok(())
}

/// Appends the commands that put the routes of ranks below this one.
fn push_highest_first(
    commands: &mut Vec<Command>,
    routes: &[Route],
    n: u32,
) -> Result<(), AllocError>
    ensures { OnOk result (commands.new.items ≡ commands.old.items ++ map replace_route (highest_first n routes.now)) }
{
    if n == 0 {
        return Ok(());
    }
    push_ranked(commands, routes, n - 1)?;
    push_highest_first(commands, routes, n - 1)
}

/// Appends the commands that put the routes, those without a gateway first, and of each kind longer prefixes first.
#[tactic(auto, unfolding(crate::specs::Routes::in_turn))]
pub(crate) fn push_in_turn(commands: &mut Vec<Command>, routes: &[Route]) -> Result<(), AllocError>
    ensures { OnOk result (commands.new.items ≡ commands.old.items ++ map replace_route (in_turn routes.now)) }
{
    push_highest_first(commands, routes, 66)
}
