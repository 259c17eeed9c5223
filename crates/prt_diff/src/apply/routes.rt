//! Which routes come or change, and which go.
ghost use Rattle.std.specs.Prelude.{◌≡◌, ◌++◌, OnOk, map};
ghost use Rattle.prt_addr.specs.Rising.{IsRising};
ghost use Rattle.prt_route.specs.Route.{is_listed_before};
ghost use Rattle.prt_diff.specs.Routes.{delete_route, replace_route};
ghost use Rattle.prt_diff.specs.Apply.Routes.{is_same_route, missing_routes, unwanted_routes};
ghost use Rattle.prt_diff.specs.Apply.Walk.{has_first_key, is_first, routes_from};

use crate::commands::{delete_route, replace_route};
use prt_command::Command;
use prt_route::Route;
use std::alloc::AllocError;

/// Checks whether the routes are equal in all parts.
fn is_same_route(route: &Route, other: &Route) -> bool
    ensures { result ≡ is_same_route route.now other.now }
{
    route.key() == other.key()
        && route.kind == other.kind
        && route.via == other.via
        && route.dev == other.dev
        && route.src == other.src
        && route.proto == other.proto
        && route.scope == other.scope
}

/// Checks whether the route is listed before the other one.
fn is_listed_before(route: &Route, other: &Route) -> bool
    ensures { result ≡ is_listed_before route.now other.now }
{
    route.listing_key() < other.listing_key()
}

/// Skips the routes up to the first one that is not listed before this one.
fn routes_from<'a>(route: &Route, routes: &'a [Route]) -> &'a [Route]
    ensures { result.now ≡ routes_from route.now routes.now }
{
    let mut rest = routes;
    while let [other, others @ ..] = rest {
        if !is_listed_before(other, route) {
            return rest;
        }
        rest = others;
    }
    rest
}

/// Checks whether the first of the routes is this one.
fn is_first(route: &Route, routes: &[Route]) -> bool
    ensures { result ≡ is_first route.now routes.now }
{
    match routes {
        [other, ..] => is_same_route(other, route),
        [] => false,
    }
}

/// Checks whether the first of the routes has this one's key.
fn has_first_key(route: &Route, routes: &[Route]) -> bool
    ensures { result ≡ has_first_key route.now routes.now }
{
    match routes {
        [other, ..] => other.key() == route.key(),
        [] => false,
    }
}

/// Appends the commands that put the wanted routes that are not found exactly so.
pub(crate) fn push_missing_routes(
    commands: &mut Vec<Command>,
    found: &[Route],
    wanted: &[Route],
) -> Result<(), AllocError>
    requires found { IsRising is_listed_before found.now }
    requires wanted { IsRising is_listed_before wanted.now }
    ensures { OnOk result (commands.new.items ≡ commands.old.items ++ map replace_route (missing_routes found.now wanted.now)) }
{
    let mut rest = found;
    for route in wanted {
        rest = routes_from(route, rest);
        if !is_first(route, rest) {
            commands.extend_from_slice(&[replace_route(route)])?;
        }
    }
    Ok(())
}

/// Appends the commands that delete the found routes whose key no wanted one has.
pub(crate) fn push_unwanted_routes(
    commands: &mut Vec<Command>,
    found: &[Route],
    wanted: &[Route],
) -> Result<(), AllocError>
    requires found { IsRising is_listed_before found.now }
    requires wanted { IsRising is_listed_before wanted.now }
    ensures { OnOk result (commands.new.items ≡ commands.old.items ++ map delete_route (unwanted_routes found.now wanted.now)) }
{
    let mut rest = wanted;
    for route in found {
        rest = routes_from(route, rest);
        if !has_first_key(route, rest) {
            commands.extend_from_slice(&[delete_route(route)])?;
        }
    }
    Ok(())
}
