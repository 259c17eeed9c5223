//! Which packets get another answer after a change.
ghost use Rattle.std.specs.Prelude.{◌≡◌, ◌++◌, IfErr, IfOk};
ghost use Rattle.prt_partition.specs.Boxes.{IsUndivided};
ghost use Rattle.prt_impact.specs.Groups.{AreGroups};
ghost use Rattle.prt_impact.specs.MarkSets.{HasEachOnce};

use crate::group::Group;
use crate::merging::merged;
use crate::plain::groups_of;
use prt_partition::{
    Sameness, boxes, fresh_name, is_same_everywhere, mark_blocks, rules_of_both, what_differs,
};
use prt_refusals::Refusal;
use prt_rule::{Mark, Rule};
use prt_version::Version;
use std::alloc::Global;

/// Lists the blocks of marks that boxes are made of.
///
/// # Errors
///
/// As of `impact`.
fn all_blocks(alloc: Global, rules: &[Rule]) -> Result<Vec<Mark>, Refusal>
    ensures value { IfOk result (λ blocks. HasEachOnce blocks.items) }
    ensures reason { IfErr result (IsUndivided rules.now) }
{
    mark_blocks(alloc, rules)
}

/// Finds the packets whose verdict after isn't the same as the one before, as groups of packets with one verdict before and
/// one after. A packet is in a group exactly if its verdicts are not the same, and they are those of the group.
///
/// # Errors
///
/// `Full` if the rules of both versions would divide packets into more than
/// [`MOST_BOXES`](prt_partition::MOST_BOXES) boxes, and otherwise `NoMemory` alone. `NoMemory` may come before that.
pub fn impact(
    alloc: Global,
    before: &Version,
    after: &Version,
    sameness: Sameness,
) -> Result<Vec<Group>, Refusal>
    ensures value { IfOk result (λ groups. AreGroups sameness before.now after.now groups.items) }
    ensures reason { IfErr result (IsUndivided (before.now.rules ++ after.now.rules)) }
{
    let differing = what_differs(alloc, before, after)?;
    if is_same_everywhere(&differing) {
        return Ok(Vec::new(alloc));
    }
    let rules = rules_of_both(alloc, before, after)?;
    let boxes = boxes(alloc, &rules)?;
    let fresh = fresh_name(alloc, &rules)?;
    let groups = groups_of(alloc, before, after, &differing, sameness, &boxes, &fresh)?;
    let blocks = all_blocks(alloc, &rules)?;
    let merged = merged(alloc, &rules, &blocks, groups)?;
    Ok(merged)
}
