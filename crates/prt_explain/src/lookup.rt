//! What a lookup in a table finds, and what would come next.
ghost use Rattle.std.specs.Prelude.{◌≡◌, IfOk};
ghost use Rattle.std.specs.Option.{option_copied};
ghost use Rattle.prt_addr.specs.Order.{first_by};
ghost use Rattle.prt_route.specs.Best.{candidates};
ghost use Rattle.prt_route.specs.Route.{is_better};
ghost use Rattle.prt_explain.specs.Steps.{found};

use prt_route::{Addr, Range, Route, Selector};
use prt_version::Version;
use std::alloc::AllocError;

/// The routes that a lookup in a table comes upon first.
#[derive(Clone, Copy)]
pub struct Found {
    /// The best route of the table for the address.
    pub best: Route,
    /// The best of the routes for the address that this one is better than.
    pub runner_up: Option<Route>,
}

/// Collects the routes of the table whose prefixes contain the address.
fn candidates(version: &Version, table: u32, addr: Addr) -> Result<Vec<Route>, AllocError>
    ensures { IfOk result (λ routes. routes.items ≡ candidates version.now.routes table addr) }
{
    let selector = Selector {
        table: Some(table),
        range: Range::All,
        kind: None,
        proto: None,
        scope: None,
        dev: None,
    };
    let Ok(mut routes) = version.routes(&selector) else {
        return Err(AllocError);
    };
    routes.retain(|route| route.prefix.contains(addr));
    Ok(routes)
}

/// Picks the best of the routes, and the first of them if several are equally good.
fn best_of(routes: &[Route]) -> Option<Route>
    ensures { result ≡ first_by is_better routes.now }
{
    if routes.is_empty() {
        return None;
    }
    let mut best = 0;
    for i in 1..routes.len() {
        if routes[i].better(&routes[best]) {
            best = i;
        }
    }
    Some(routes[best])
}

/// Finds the best route of the table for the address, and the one that comes next: the best of those that it is better than.
/// `None` if no route of the table has the address. A throw route is found as any other.
///
/// It goes through all routes of the table, and so takes longer than a lookup of the best route alone.
///
/// # Errors
///
/// Memory is refused.
pub fn look_up(version: &Version, table: u32, addr: Addr) -> Result<Option<Found>, AllocError>
    ensures { IfOk result (λ it. it ≡ found version.now.routes table addr) }
{
    let mut routes = candidates(version, table, addr)?;
    let Some(best) = best_of(&routes) else {
        return Ok(None);
    };
    routes.retain(|route| best.better(route));
    let runner_up = best_of(&routes);
    Ok(Some(Found { best, runner_up }))
}
