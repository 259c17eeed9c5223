//! What is held back: what is wanted and not brought, and what is not wanted and stays.
ghost use Rattle.std.specs.Prelude.{◌≡◌, IfOk, true};
ghost use Rattle.prt_addr.specs.Rising.{IsRising};
ghost use Rattle.prt_route.specs.Route.{is_listed_before};
ghost use Rattle.prt_diff.specs.Held.{blocked_routes, hindered_routes, hindered_rules, is_nothing_held, staying_routes, staying_rules, unread_rules};
ghost use Rattle.prt_diff.specs.Unreadable.{AreUnreadable};

use crate::fence::Fence;
use crate::routes::{has_key, has_serving, is_blocked, is_kept};
use crate::rules::has_rule;
use crate::unreadable::{Unreadable, find_unreadable};
use prt_route::Route;
use prt_rule::Rule;
use std::alloc::{AllocError, Global};

/// What the changes from one version to another leave, though the fence names it.
#[derive(Debug, Drop)]
pub struct Held {
    /// The routes that are wanted and not brought, since one that may not be changed has their key.
    pub blocked_routes: Vec<Route>,
    /// The routes that are wanted and not brought, since a line that can't be kept has their key.
    pub hindered_routes: Vec<Route>,
    /// The routes that are not wanted and stay, since a line that can't be kept has their key.
    pub staying_routes: Vec<Route>,
    /// The rules that are wanted and not brought, since a line that can't be kept has their priority.
    pub hindered_rules: Vec<Rule>,
    /// The rules that are not wanted and stay, since a line that can't be kept has their priority.
    pub staying_rules: Vec<Rule>,
    /// What no line brings or deletes, since `ip -batch` can't read the name of its interface.
    pub unreadable: Unreadable,
}

impl Held {
    /// Makes what holds nothing.
    pub fn nothing(alloc: Global) -> Held
        ensures { is_nothing_held result ≡ true }
    {
        Held {
            blocked_routes: Vec::new(alloc),
            hindered_routes: Vec::new(alloc),
            staying_routes: Vec::new(alloc),
            hindered_rules: Vec::new(alloc),
            staying_rules: Vec::new(alloc),
            unreadable: Unreadable::nothing(alloc),
        }
    }

    /// Checks whether nothing is held back.
    pub fn is_nothing(&self) -> bool
        ensures { result ≡ is_nothing_held self.now }
    {
        self.blocked_routes.is_empty()
            && self.hindered_routes.is_empty()
            && self.staying_routes.is_empty()
            && self.hindered_rules.is_empty()
            && self.staying_rules.is_empty()
            && self.unreadable.is_nothing()
    }
}

/// Finds the wanted routes whose key one has that may not be changed, if none that is found serves for them.
fn blocked_routes(
    alloc: Global,
    fence: &Fence,
    found: &[Route],
    wanted: &[Route],
) -> Result<Vec<Route>, AllocError>
    requires { IsRising is_listed_before found.now }
    ensures { IfOk result (λ routes. routes.items ≡ blocked_routes fence.now found.now wanted.now) }
{
    wanted
        .iter()
        .filter(|route| !is_kept(fence, route))
        .filter(|route| is_blocked(fence, found, route))
        .copied()
        .collect(alloc)
}

/// Finds the wanted routes whose key a line has that can't be kept, if none that is found serves for them.
fn hindered_routes(
    alloc: Global,
    fence: &Fence,
    found: &[Route],
    wanted: &[Route],
) -> Result<Vec<Route>, AllocError>
    requires { IsRising is_listed_before found.now }
    ensures { IfOk result (λ routes. routes.items ≡ hindered_routes fence.now found.now wanted.now) }
{
    wanted
        .iter()
        .filter(|route| fence.is_unread_route(route) && !has_serving(found, route))
        .copied()
        .collect(alloc)
}

/// Finds the routes whose key a line has that can't be kept, and no wanted route.
fn staying_routes(
    alloc: Global,
    fence: &Fence,
    found: &[Route],
    wanted: &[Route],
) -> Result<Vec<Route>, AllocError>
    requires { IsRising is_listed_before wanted.now }
    ensures { IfOk result (λ routes. routes.items ≡ staying_routes fence.now found.now wanted.now) }
{
    found
        .iter()
        .filter(|route| fence.is_unread_route(route) && !has_key(wanted, route))
        .copied()
        .collect(alloc)
}

/// Finds the rules that the others don't have, and whose priority a line has that can't be kept.
fn unread_rules(
    alloc: Global,
    fence: &Fence,
    rules: &[Rule],
    others: &[Rule],
) -> Result<Vec<Rule>, AllocError>
    ensures { IfOk result (λ unread. unread.items ≡ unread_rules fence.now rules.now others.now) }
{
    rules
        .iter()
        .filter(|rule| fence.is_unread_rule(rule) && !has_rule(rule, others))
        .copied()
        .collect(alloc)
}

/// Finds what is held back of the changes from found rules and routes to wanted ones.
pub(crate) fn find_held(
    alloc: Global,
    fence: &Fence,
    found_rules: &[Rule],
    found_routes: &[Route],
    wanted_rules: &[Rule],
    wanted_routes: &[Route],
) -> Result<Held, AllocError>
    requires found { IsRising is_listed_before found_routes.now }
    requires wanted { IsRising is_listed_before wanted_routes.now }
    ensures blocked_routes { IfOk result (λ held. held.blocked_routes.items ≡ blocked_routes fence.now found_routes.now wanted_routes.now) }
    ensures hindered_routes { IfOk result (λ held. held.hindered_routes.items ≡ hindered_routes fence.now found_routes.now wanted_routes.now) }
    ensures staying_routes { IfOk result (λ held. held.staying_routes.items ≡ staying_routes fence.now found_routes.now wanted_routes.now) }
    ensures hindered_rules { IfOk result (λ held. held.hindered_rules.items ≡ hindered_rules fence.now found_rules.now wanted_rules.now) }
    ensures staying_rules { IfOk result (λ held. held.staying_rules.items ≡ staying_rules fence.now found_rules.now wanted_rules.now) }
    ensures unreadable { IfOk result (λ held. AreUnreadable fence.now found_rules.now found_routes.now wanted_rules.now wanted_routes.now held.unreadable) }
{
    Ok(Held {
        blocked_routes: blocked_routes(alloc, fence, found_routes, wanted_routes)?,
        hindered_routes: hindered_routes(alloc, fence, found_routes, wanted_routes)?,
        staying_routes: staying_routes(alloc, fence, found_routes, wanted_routes)?,
        hindered_rules: unread_rules(alloc, fence, wanted_rules, found_rules)?,
        staying_rules: unread_rules(alloc, fence, found_rules, wanted_rules)?,
        unreadable: find_unreadable(
            alloc,
            fence,
            found_rules,
            found_routes,
            wanted_rules,
            wanted_routes,
        )?,
    })
}
