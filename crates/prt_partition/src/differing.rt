//! What differs between two versions.
ghost use Rattle.std.specs.Prelude.{◌≡◌, IfErr, IfOk, true};
ghost use Rattle.prt_rule.specs.declared.packet.Packet.{Packet as PacketOf};
ghost use Rattle.prt_refusals.specs.declared.refusal.Refusal.TheVariants.{NoMemory};
ghost use Rattle.prt_partition.specs.Differing.{HoldRouteChanges, HoldRuleChanges, IsDiffering, IsUntouched};

use crate::cuts::every_route;
use crate::near_starts::near_starts;
use crate::reach::blocks_of;
use crate::sameness::is_same_route;
use prt_addr::Prefix;
use prt_refusals::Refusal;
use prt_route::Route;
use prt_rule::{Rule, is_before, same};
use prt_version::Version;
use std::alloc::{AllocError, Global};

/// The rules and routes that only one of two versions has, and the destinations at which they can change an answer.
///
/// [`what_differs`] finds them once for any number of packets.
#[derive(Drop)]
pub struct Differing {
    pub(crate) rules: Vec<Rule>,
    pub(crate) routes: Vec<Route>,
    /// Every packet that one of the rules matches, or whose destination one of the routes has, is to one of these.
    pub(crate) blocks: Vec<Prefix>,
    /// Where the blocks begin and end, and the cuts in them.
    pub(crate) starts: Vec<u32>,
}

/// Collects the rules that only one of the lists has. Ids don't matter.
///
/// Both lists are gone through once, and are in the order in which rules are tried.
fn differing_rules(alloc: Global, before: &[Rule], after: &[Rule]) -> Result<Vec<Rule>, AllocError>
    ensures { IfOk result (λ rules. HoldRuleChanges before.now after.now rules.items) }
{
    let mut rules = Vec::new(alloc);
    let (mut i, mut j) = (0, 0);
    while i < before.len() && j < after.len() {
        if same(&before[i], &after[j]) {
            i += 1;
            j += 1;
        } else if is_before(&after[j], &before[i]) {
            rules.push(after[j])?;
            j += 1;
        } else {
            rules.push(before[i])?;
            i += 1;
        }
    }
    rules.extend_from_slice(&before[i..])?;
    rules.extend_from_slice(&after[j..])?;
    Ok(rules)
}

/// Collects the routes that only one of the lists has.
///
/// Both lists are gone through once, and are in the order of listings.
fn differing_routes(
    alloc: Global,
    before: &[Route],
    after: &[Route],
) -> Result<Vec<Route>, AllocError>
    ensures { IfOk result (λ routes. HoldRouteChanges before.now after.now routes.items) }
{
    let mut routes = Vec::new(alloc);
    let (mut i, mut j) = (0, 0);
    while i < before.len() && j < after.len() {
        if is_same_route(&before[i], &after[j]) {
            i += 1;
            j += 1;
        } else if after[j].listing_key() < before[i].listing_key() {
            routes.push(after[j])?;
            j += 1;
        } else {
            routes.push(before[i])?;
            i += 1;
        }
    }
    routes.extend_from_slice(&before[i..])?;
    routes.extend_from_slice(&after[j..])?;
    Ok(routes)
}

/// Checks whether no rule and no route differs. Then every packet goes the same way.
pub fn is_same_everywhere(differing: &Differing) -> bool
    ensures { result ≡ true → (packet : PacketOf) → IsUntouched differing.now.rules.items differing.now.routes.items packet }
{
    differing.rules.is_empty() && differing.routes.is_empty()
}

/// Finds the rules and routes that only one of the versions has, and the destinations at which they can change an answer.
///
/// # Errors
///
/// `NoMemory` alone.
pub fn what_differs(alloc: Global, before: &Version, after: &Version) -> Result<Differing, Refusal>
    ensures value { IfOk result (IsDiffering before.now after.now) }
    ensures reason { IfErr result (λ reason. reason ≡ NoMemory) }
{
    let before_routes = every_route(before)?;
    let after_routes = every_route(after)?;
    let rules = differing_rules(alloc, before.rules(), after.rules())?;
    let routes = differing_routes(alloc, &before_routes, &after_routes)?;
    let blocks = blocks_of(alloc, &rules, &routes)?;
    let starts = near_starts(
        alloc,
        &blocks,
        before.rules(),
        after.rules(),
        &before_routes,
        &after_routes,
    )?;
    Ok(Differing {
        rules,
        routes,
        blocks,
        starts,
    })
}
