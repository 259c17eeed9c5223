//! What decides no packet, and what no packet gets.
ghost use Rattle.std.specs.Prelude.{◌≡◌, IfErr, IfOk, length, map};
ghost use Rattle.prt_partition.specs.Boxes.{IsUndivided};
ghost use Rattle.prt_analyses.specs.Unused.Steps.{AreExplained, HasUse, IsUse, all_packets, unmarked, unused_rule};
ghost use Rattle.prt_analyses.specs.Unused.{AreUnused, AreUnusedRoutes, AreUnusedRules};

use super::reasons::{unused_route, unused_rule};
use super::report::{Unused, UnusedRoute, UnusedRule};
use super::starts::{every_route, starts_of};
use super::used::{Used, used_by};
use prt_partition::joined_classes;
use prt_refusals::Refusal;
use prt_route::Route;
use prt_rule::{Packet, Rule};
use prt_version::Version;
use std::alloc::{AllocError, Global};

/// Collects the rules that are not marked.
fn unmarked_rules(alloc: Global, rules: &[Rule], flags: &[bool]) -> Result<Vec<Rule>, AllocError>
    requires { length flags.now ≡ length rules.now }
    ensures { IfOk result (λ left. left.items ≡ unmarked rules.now flags.now) }
{
    let mut left = Vec::new(alloc);
    for (place, rule) in rules.iter().enumerate() {
        if !flags[place] {
            left.push(*rule)?;
        }
    }
    Ok(left)
}

/// Collects the routes that are not marked.
fn unmarked_routes(
    alloc: Global,
    routes: &[Route],
    flags: &[bool],
) -> Result<Vec<Route>, AllocError>
    requires { length flags.now ≡ length routes.now }
    ensures { IfOk result (λ left. left.items ≡ unmarked routes.now flags.now) }
{
    let mut left = Vec::new(alloc);
    for (place, route) in routes.iter().enumerate() {
        if !flags[place] {
            left.push(*route)?;
        }
    }
    Ok(left)
}

/// Lists the rules, each with a packet that it matches and what becomes of that, if there is one.
fn with_rule_reasons(
    alloc: Global,
    version: &Version,
    starts: &[u32],
    classes: &[Packet],
    rules: &[Rule],
) -> Result<Vec<UnusedRule>, AllocError>
    ensures { IfOk result (λ unused. unused.items ≡ map (unused_rule version.now (all_packets starts.now classes.now)) rules.now) }
{
    rules
        .iter()
        .map(|rule| unused_rule(version, starts, classes, rule))
        .collect(alloc)
}

/// Lists the routes, each with what is reported of it.
fn with_route_reasons(
    alloc: Global,
    version: &Version,
    routes: &[Route],
) -> Result<Vec<UnusedRoute>, AllocError>
    ensures { IfOk result (λ unused. AreExplained version.now routes.now unused.items) }
{
    routes
        .iter()
        .map(|route| unused_route(version, route))
        .collect(alloc)
}

/// Finds the rules that decide no packet.
fn unused_rules(
    alloc: Global,
    version: &Version,
    starts: &[u32],
    classes: &[Packet],
    used: &Used,
) -> Result<Vec<UnusedRule>, AllocError>
    requires { IsUse version.now (all_packets starts.now classes.now) used.now }
    ensures { IfOk result (λ unused. AreUnusedRules version.now unused.items) }
{
    let left = unmarked_rules(alloc, version.rules(), &used.rules)?;
    let unused = with_rule_reasons(alloc, version, starts, classes, &left)?;
    Ok(unused)
}

/// Finds the routes that no packet gets. The routes are those of the version.
fn unused_routes(
    alloc: Global,
    version: &Version,
    routes: &[Route],
    used: &Used,
) -> Result<Vec<UnusedRoute>, AllocError>
    requires routes { routes.now ≡ version.now.routes }
    requires used { HasUse version.now used.now }
    ensures { IfOk result (λ unused. AreUnusedRoutes version.now unused.items) }
{
    // The version's contract says that its routes are in order.
    let _number = version.number();
    let left = unmarked_routes(alloc, routes, &used.routes)?;
    let unused = with_route_reasons(alloc, version, &left)?;
    Ok(unused)
}

/// Finds the rules that decide no packet, and the routes that no packet gets.
///
/// Of a rule it tells that no packet matches it, or a packet that it matches and what becomes of that. Of a route it tells that
/// no rule looks up its table, that it is a throw route, or that no rule which looks up its table matches a packet to its
/// prefix, or such a packet and what becomes of that.
///
/// It looks at one packet of each class at each destination at which an answer can change.
///
/// # Errors
///
/// `Full` if the rules would divide packets into more than [`MOST_BOXES`](prt_partition::MOST_BOXES) boxes, and otherwise
/// `NoMemory` alone. `NoMemory` may come before that.
pub fn unused(alloc: Global, version: &Version) -> Result<Unused, Refusal>
    ensures value { IfOk result (AreUnused version.now) }
    ensures reason { IfErr result (IsUndivided version.now.rules) }
{
    // The version's contract says how many rules there are at most.
    let _number = version.number();
    let classes = joined_classes(alloc, version.rules())?;
    let routes = every_route(version)?;
    let starts = starts_of(alloc, version, &routes)?;
    let used = used_by(alloc, version, &routes, &starts, &classes)?;
    let rules = unused_rules(alloc, version, &starts, &classes, &used)?;
    let routes = unused_routes(alloc, version, &routes, &used)?;
    Ok(Unused { rules, routes })
}
