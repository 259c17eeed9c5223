//! As few groups as people need to read.
ghost use Rattle.std.specs.Prelude.{◌≡◌, IfOk};
ghost use Rattle.prt_impact.specs.MarkSets.{HasEachOnce};
ghost use Rattle.prt_impact.specs.Replacing.{AlwaysReplaces, ReplacesAt};

use crate::all_interfaces::{every_interface, joined_interfaces};
use crate::group::Group;
use crate::joining::joined_sources;
use crate::mark_joining::joined_marks;
use crate::order::{by_interface, by_place, by_source, by_verdicts};
use prt_rule::{Mark, Rule};
use std::alloc::{AllocError, Global};

/// Joins groups that differ in marks alone. They come in the order of boxes, and all blocks are those that boxes have.
fn with_marks_joined(
    alloc: Global,
    all: &[Mark],
    mut groups: Vec<Group>,
) -> Result<Vec<Group>, AllocError>
    requires { HasEachOnce all.now }
    ensures { IfOk result (λ joined. AlwaysReplaces groups.items joined.items) }
{
    // The sort is stable, so the blocks of groups that differ in nothing else keep the order of the partition.
    groups.sort_by(by_verdicts)?;
    joined_marks(alloc, all, &groups)
}

/// Joins groups that differ in their interfaces alone, if each interface is there.
fn with_interfaces_joined(
    alloc: Global,
    rules: &[Rule],
    mut groups: Vec<Group>,
) -> Result<Vec<Group>, AllocError>
    ensures { IfOk result (λ joined. ReplacesAt rules.now groups.items joined.items) }
{
    groups.sort_by(by_interface)?;
    let interfaces = every_interface(alloc, rules)?;
    joined_interfaces(alloc, &interfaces, &groups)
}

/// Joins groups whose sources follow each other, if they differ in nothing else.
fn with_sources_joined(alloc: Global, mut groups: Vec<Group>) -> Result<Vec<Group>, AllocError>
    ensures { IfOk result (λ joined. AlwaysReplaces groups.items joined.items) }
{
    groups.sort_by(by_source)?;
    joined_sources(alloc, &groups)
}

/// Joins the groups of boxes, which come in the order of boxes, and sorts them by destinations and sources. All blocks are
/// those of the marks of boxes, in their order.
///
/// Groups of one box that are neighbours in destinations are one already, and what is joined here makes no new ones.
pub(crate) fn merged(
    alloc: Global,
    rules: &[Rule],
    all: &[Mark],
    groups: Vec<Group>,
) -> Result<Vec<Group>, AllocError>
    requires { HasEachOnce all.now }
    ensures { IfOk result (λ merged. ReplacesAt rules.now groups.items merged.items) }
{
    let of_marks = with_marks_joined(alloc, all, groups)?;
    let of_interfaces = with_interfaces_joined(alloc, rules, of_marks)?;
    let mut merged = with_sources_joined(alloc, of_interfaces)?;
    merged.sort_by(by_place)?;
    Ok(merged)
}
