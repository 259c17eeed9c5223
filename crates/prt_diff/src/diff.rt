//! The commands that bring one version to another.
ghost use Rattle.std.specs.Prelude.{◌≡◌, IfOk, OnOk, filter};
ghost use Rattle.prt_addr.specs.Rising.{IsRising};
ghost use Rattle.prt_route.specs.Route.{is_listed_before};
ghost use Rattle.prt_rule.specs.Sound.{IsInOrder};
ghost use Rattle.prt_diff.specs.Held.{AreHeld};
ghost use Rattle.prt_diff.specs.Plan.{bring_all, clear_all, delete_routes, plan, plan_of, remove_all, replace_routes};
ghost use Rattle.prt_diff.specs.Routes.{early_routes, in_turn, late_routes, unwanted_routes};
ghost use Rattle.prt_diff.specs.Rules.{barring_rules, bars_one, coming_rules, going_rules};

use crate::fence::Fence;
use crate::held::find_held;
use crate::plan::Changes;
use crate::routes::{early_routes, late_routes, missing_routes};
use crate::rules::{barring_rules, coming_rules, going_rules};
use prt_route::{Range, Route, Selector};
use prt_rule::Rule;
use prt_version::Version;
use std::alloc::{AllocError, Global};

/// Collects all routes of the version, in the order of listings.
pub(crate) fn every_route(version: &Version) -> Result<Vec<Route>, AllocError>
    ensures { IfOk result (λ routes. routes.items ≡ version.now.routes) }
{
    let selector = Selector {
        table: None,
        range: Range::All,
        kind: None,
        proto: None,
        scope: None,
        dev: None,
    };
    let Ok(routes) = version.routes(&selector) else {
        return Err(AllocError);
    };
    Ok(routes)
}

/// Finds the rules that go and bar one that comes.
fn barring_of(
    alloc: Global,
    fence: &Fence,
    found: &[Rule],
    wanted: &[Rule],
    coming: &[Rule],
) -> Result<Vec<Rule>, AllocError>
    ensures { IfOk result (λ rules. rules.items ≡ filter (bars_one coming.now) (going_rules fence.now found.now wanted.now)) }
{
    let going = going_rules(alloc, fence, found, wanted)?;
    barring_rules(alloc, coming, &going)
}

/// Has routes come whose table no rule looks up, then rules, and then the other routes. A rule that bars one goes before it.
fn make_missing(
    changes: &mut Changes,
    alloc: Global,
    fence: &Fence,
    found: &[Rule],
    wanted: &[Rule],
    missing: &[Route],
) -> Result<(), AllocError>
    requires found { IsInOrder found.now }
    requires wanted { IsInOrder wanted.now }
    ensures { OnOk result (plan_of changes.new
        ≡ replace_routes (in_turn (late_routes found.now missing.now)) (bring_all (coming_rules fence.now found.now wanted.now)
        (clear_all (barring_rules fence.now found.now wanted.now) (replace_routes (in_turn (early_routes found.now missing.now)) (plan_of changes.old))))) }
{
    changes.replace_routes(&early_routes(alloc, found, missing)?)?;
    let coming = coming_rules(alloc, fence, found, wanted)?;
    changes.clear_all(&barring_of(alloc, fence, found, wanted, &coming)?)?;
    changes.bring_all(&coming)?;
    changes.replace_routes(&late_routes(alloc, found, missing)?)
}

/// Has the other rules go that aren't wanted, and then the routes.
fn remove_unwanted(
    changes: &mut Changes,
    alloc: Global,
    fence: &Fence,
    wanted: &[Rule],
    found_routes: &[Route],
    wanted_routes: &[Route],
) -> Result<(), AllocError>
    requires found { IsRising is_listed_before found_routes.now }
    requires wanted { IsRising is_listed_before wanted_routes.now }
    ensures { OnOk result (plan_of changes.new ≡ delete_routes (unwanted_routes fence.now found_routes.now wanted_routes.now)
        (remove_all (going_rules fence.now (plan_of changes.old).rules wanted.now) (plan_of changes.old))) }
{
    let going = changes.going(alloc, fence, wanted)?;
    changes.remove_all(&going)?;
    changes.delete_unwanted(fence, found_routes, wanted_routes)
}

/// Computes the commands that bring one version to another within the fence: what differs, and nothing else.
///
/// What is outside the fence stays as it is found. A wanted route counts for nothing if a route outside the fence has
/// its key: it is held back. A rule that both have stays, unless it has to move behind another of its priority.
///
/// Each is made before another is broken. First routes come whose table no rule looks up, then rules come. Then other
/// routes come or change, then rules go, and at last routes go. A rule that goes does so before rules come, if the kernel
/// would refuse one of them beside it. Routes without a gateway come before those with one, and longer prefixes before
/// shorter ones. Over the version that was found each command is accepted, if that has room for what is found and what
/// comes at once.
///
/// # Errors
///
/// Memory is refused.
pub fn changes(
    alloc: Global,
    fence: &Fence,
    found: &Version,
    wanted: &Version,
) -> Result<Changes, AllocError>
    ensures plan { IfOk result (λ changes. plan_of changes ≡ plan fence.now found.now wanted.now) }
    ensures held { IfOk result (λ changes. AreHeld fence.now found.now wanted.now changes.held) }
{
    // Each version's contract says that its rules and its routes are in order.
    let _numbers = (found.number(), wanted.number());
    let found_routes = every_route(found)?;
    let wanted_routes = every_route(wanted)?;
    let missing = missing_routes(alloc, fence, &found_routes, &wanted_routes)?;
    let mut changes = Changes::over(alloc, found.rules())?;
    make_missing(
        &mut changes,
        alloc,
        fence,
        found.rules(),
        wanted.rules(),
        &missing,
    )?;
    remove_unwanted(
        &mut changes,
        alloc,
        fence,
        wanted.rules(),
        &found_routes,
        &wanted_routes,
    )?;
    changes.held = find_held(
        alloc,
        fence,
        found.rules(),
        &found_routes,
        wanted.rules(),
        &wanted_routes,
    )?;
    Ok(changes)
}
