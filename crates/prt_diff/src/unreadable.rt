//! What no line brings or deletes, since `ip -batch` can't read the name of its interface.
ghost use Rattle.std.specs.Prelude.{◌≡◌, IfOk, true};
ghost use Rattle.prt_addr.specs.Rising.{IsRising};
ghost use Rattle.prt_route.specs.Route.{is_listed_before};
ghost use Rattle.prt_diff.specs.Unreadable.{AreUnreadable, is_nothing_unreadable, is_unreadable_route, is_unreadable_rule, missing_routes};
ghost use Rattle.prt_diff.specs.Unreadable.{staying_routes, unreadable_rules};

use crate::fence::{Fence, is_kernels};
use crate::names::is_plain_name;
use crate::routes::{has_key, has_serving};
use crate::rules::has_rule;
use prt_route::Route;
use prt_rule::Rule;
use std::alloc::{AllocError, Global};

/// The rules and routes that no line brings or deletes, since `ip -batch` can't read the name of their interface.
#[derive(Debug, Drop)]
pub struct Unreadable {
    /// The rules that are wanted and not brought.
    pub missing_rules: Vec<Rule>,
    /// The routes that are wanted and not brought.
    pub missing_routes: Vec<Route>,
    /// The rules that are not wanted and stay.
    pub staying_rules: Vec<Rule>,
    /// The routes that are not wanted and stay.
    pub staying_routes: Vec<Route>,
}

impl Unreadable {
    /// Makes what has no rule and no route.
    pub(crate) fn nothing(alloc: Global) -> Unreadable
        ensures { is_nothing_unreadable result ≡ true }
    {
        Unreadable {
            missing_rules: Vec::new(alloc),
            missing_routes: Vec::new(alloc),
            staying_rules: Vec::new(alloc),
            staying_routes: Vec::new(alloc),
        }
    }

    /// Checks whether it has no rule and no route.
    pub(crate) fn is_nothing(&self) -> bool
        ensures { result ≡ is_nothing_unreadable self.now }
    {
        self.missing_rules.is_empty()
            && self.missing_routes.is_empty()
            && self.staying_rules.is_empty()
            && self.staying_routes.is_empty()
    }
}

/// Checks whether `ip -batch` can't read the name of the rule's interface.
pub(crate) fn is_unreadable_rule(rule: &Rule) -> bool
    ensures { result ≡ is_unreadable_rule rule.now }
{
    !is_plain_name(rule.iif)
}

/// Checks whether `ip -batch` can't read the name of the route's interface, if the kernel doesn't make the route itself.
pub(crate) fn is_unreadable_route(route: &Route) -> bool
    ensures { result ≡ is_unreadable_route route.now }
{
    !is_kernels(route) && !is_plain_name(route.dev)
}

/// Finds the unreadable rules of the fence that the others don't have.
fn unreadable_rules(
    alloc: Global,
    fence: &Fence,
    rules: &[Rule],
    others: &[Rule],
) -> Result<Vec<Rule>, AllocError>
    ensures { IfOk result (λ unread. unread.items ≡ unreadable_rules fence.now rules.now others.now) }
{
    rules
        .iter()
        .filter(|rule| fence.names_rule(rule)
            && is_unreadable_rule(rule)
            && !has_rule(rule, others))
        .copied()
        .collect(alloc)
}

/// Finds the unreadable routes of the fence that are wanted, if none that is found serves for them.
fn missing_routes(
    alloc: Global,
    fence: &Fence,
    found: &[Route],
    wanted: &[Route],
) -> Result<Vec<Route>, AllocError>
    requires { IsRising is_listed_before found.now }
    ensures { IfOk result (λ routes. routes.items ≡ missing_routes fence.now found.now wanted.now) }
{
    wanted
        .iter()
        .filter(|route| {
            fence.names_route(route) && is_unreadable_route(route) && !has_serving(found, route)
        })
        .copied()
        .collect(alloc)
}

/// Finds the unreadable routes of the fence whose key no wanted route has.
fn staying_routes(
    alloc: Global,
    fence: &Fence,
    found: &[Route],
    wanted: &[Route],
) -> Result<Vec<Route>, AllocError>
    requires { IsRising is_listed_before wanted.now }
    ensures { IfOk result (λ routes. routes.items ≡ staying_routes fence.now found.now wanted.now) }
{
    found
        .iter()
        .filter(|route| {
            fence.names_route(route) && is_unreadable_route(route) && !has_key(wanted, route)
        })
        .copied()
        .collect(alloc)
}

/// Finds what no line can bring or delete of the changes from found rules and routes to wanted ones.
///
/// # Errors
///
/// Memory is refused.
pub(crate) fn find_unreadable(
    alloc: Global,
    fence: &Fence,
    found_rules: &[Rule],
    found_routes: &[Route],
    wanted_rules: &[Rule],
    wanted_routes: &[Route],
) -> Result<Unreadable, AllocError>
    requires found { IsRising is_listed_before found_routes.now }
    requires wanted { IsRising is_listed_before wanted_routes.now }
    ensures { IfOk result (AreUnreadable fence.now found_rules.now found_routes.now wanted_rules.now wanted_routes.now) }
{
    Ok(Unreadable {
        missing_rules: unreadable_rules(alloc, fence, wanted_rules, found_rules)?,
        missing_routes: missing_routes(alloc, fence, found_routes, wanted_routes)?,
        staying_rules: unreadable_rules(alloc, fence, found_rules, wanted_rules)?,
        staying_routes: staying_routes(alloc, fence, found_routes, wanted_routes)?,
    })
}
