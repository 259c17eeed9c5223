//! Whether a table may hold what a version has.
ghost use Rattle.std.specs.Prelude.{◌≡◌, IfOk};
ghost use Rattle.std.specs.List.{list_all};
ghost use Rattle.prt_route.specs.Storable.{is_storable_route};
ghost use Rattle.prt_rule.specs.Storable.{is_storable_rule};
ghost use Rattle.prt_diff.specs.Apply.Plan.{is_storable};

use crate::diff::every_route;
use prt_route::Route;
use prt_rule::Rule;
use prt_version::Version;
use std::alloc::AllocError;

/// Checks whether a table may hold each of the rules.
fn are_storable_rules(rules: &[Rule]) -> bool
    ensures { result ≡ list_all (λ rule. is_storable_rule rule.action rule.suppress) rules.now }
{
    rules.iter().all(|rule| rule.is_storable())
}

/// Checks whether a table may hold each of the routes.
fn are_storable_routes(routes: &[Route]) -> bool
    ensures { result ≡ list_all is_storable_route routes.now }
{
    routes.iter().all(|route| route.is_storable())
}

/// Checks whether a table may hold each rule and each route of the version.
///
/// A version that is made of lines that were read has no others.
///
/// # Errors
///
/// Memory is refused.
pub fn is_storable(version: &Version) -> Result<bool, AllocError>
    ensures { IfOk result (λ answer. answer ≡ is_storable version.now) }
{
    let routes = every_route(version)?;
    Ok(are_storable_rules(version.rules()) && are_storable_routes(&routes))
}
