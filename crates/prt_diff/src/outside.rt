//! What a version has outside a fence.
ghost use Rattle.std.specs.Prelude.{◌≡◌, IfOk};
ghost use Rattle.prt_diff.specs.Fence.{routes_outside, rules_outside};

use crate::diff::every_route;
use crate::fence::{Fence, is_kernels};
use prt_route::Route;
use prt_rule::Rule;
use prt_version::Version;
use std::alloc::AllocError;

/// How many rules and routes a fence doesn't name.
#[derive(Clone, Copy, Debug, PartialEq, Eq)]
pub struct Outside {
    /// The number of rules.
    pub rules: u64,
    /// The number of routes, without those that the kernel makes.
    pub routes: u64,
}

/// Counts the rules outside the fence.
fn rules_outside(fence: &Fence, rules: &[Rule]) -> u64
    ensures { result ≡ rules_outside fence.now rules.now }
{
    let mut count: u64 = 0;
    for rule in rules {
        if !fence.names_rule(rule) {
            count += 1;
        }
    }
    count
}

/// Counts the routes outside the fence, without those that the kernel makes.
fn routes_outside(fence: &Fence, routes: &[Route]) -> u64
    ensures { result ≡ routes_outside fence.now routes.now }
{
    let mut count: u64 = 0;
    for route in routes {
        if !is_kernels(route) && !fence.names_route(route) {
            count += 1;
        }
    }
    count
}

/// Counts what the version has outside the fence: rules and routes that are left as they are.
///
/// # Errors
///
/// Memory is refused.
pub fn count_outside(fence: &Fence, version: &Version) -> Result<Outside, AllocError>
    ensures rules { IfOk result (λ outside. outside.rules ≡ rules_outside fence.now version.now.rules) }
    ensures routes { IfOk result (λ outside. outside.routes ≡ routes_outside fence.now version.now.routes) }
{
    let routes = every_route(version)?;
    Ok(Outside {
        rules: rules_outside(fence, version.rules()),
        routes: routes_outside(fence, &routes),
    })
}
