//! Whether two versions answer every packet alike.
ghost use Rattle.std.specs.Prelude.{◌≡◌, ◌≤◌, ◌++◌, IfErr, IfOk, length};
ghost use Rattle.prt_partition.specs.Boxes.{IsUndivided};
ghost use Rattle.prt_partition.specs.Comparison.{CanCompare, after_of, before_of};
ghost use Rattle.prt_partition.specs.Differing.{IsDiffering};
ghost use Rattle.prt_partition.specs.Equivalence.{IsChange, IsChangeOf, IsFirstChange};

use crate::class_list::joined_classes;
use crate::comparison::Comparison;
use crate::differing::{Differing, is_same_everywhere, what_differs};
use crate::sameness::Sameness;
use crate::touching::{is_nothing, to, what_touches};
use prt_refusals::Refusal;
use prt_rule::{Packet, Rule};
use prt_version::Version;
use std::alloc::{AllocError, Global};

/// Finds the first of these destinations at which the verdicts on the packet are not the same.
fn first_change(
    comparison: &Comparison<'_>,
    sameness: Sameness,
    packet: &Packet,
    starts: &[u32],
) -> Option<u32>
    requires { CanCompare packet.now comparison.now }
    ensures { IsFirstChange sameness (before_of comparison.now) (after_of comparison.now) packet.now starts.now result }
{
    for start in starts {
        if comparison.transition_at(sameness, packet, *start).is_some() {
            return Some(*start);
        }
    }
    None
}

/// Finds a packet of this class on which the verdicts are not the same, if there is one.
fn change_of(
    alloc: Global,
    before: &Version,
    after: &Version,
    differing: &Differing,
    sameness: Sameness,
    class: &Packet,
) -> Result<Option<Packet>, AllocError>
    requires { IsDiffering before.now after.now differing.now }
    ensures { IfOk result (IsChangeOf sameness before.now after.now class.now) }
{
    let touching = what_touches(alloc, differing, class)?;
    if is_nothing(&touching) {
        return Ok(None);
    }
    let comparison = Comparison::new(alloc, before, after, touching, class)?;
    match first_change(&comparison, sameness, class, &differing.starts) {
        Some(addr) => Ok(Some(to(class, addr))),
        None => Ok(None),
    }
}

/// Collects the rules of both versions.
///
/// # Errors
///
/// Memory is refused.
pub fn rules_of_both(
    alloc: Global,
    before: &Version,
    after: &Version,
) -> Result<Vec<Rule>, AllocError>
    ensures value { IfOk result (λ rules. rules.items ≡ before.now.rules ++ after.now.rules) }
    ensures few { IfOk result (λ rules. length rules.items ≤ 2000) }
{
    // Each version's contract says how many rules there are at most.
    let _numbers = (before.number(), after.number());
    let mut rules = Vec::new(alloc);
    rules.extend_from_slice(before.rules())?;
    rules.extend_from_slice(after.rules())?;
    Ok(rules)
}

/// Finds a packet whose verdict after isn't the same as the one before. If it finds none, there is none: the verdicts on
/// every packet of every source, destination, interface and mark are the same.
///
/// # Errors
///
/// `Full` if the rules of both versions would divide packets into more than [`MOST_BOXES`](crate::MOST_BOXES) boxes, and
/// otherwise `NoMemory` alone. `NoMemory` may come before that.
pub fn find_change(
    alloc: Global,
    before: &Version,
    after: &Version,
    sameness: Sameness,
) -> Result<Option<Packet>, Refusal>
    ensures value { IfOk result (IsChange sameness before.now after.now) }
    ensures reason { IfErr result (IsUndivided (before.now.rules ++ after.now.rules)) }
{
    let differing = what_differs(alloc, before, after)?;
    if is_same_everywhere(&differing) {
        return Ok(None);
    }
    let rules = rules_of_both(alloc, before, after)?;
    let classes = joined_classes(alloc, &rules)?;
    for class in &classes {
        if let Some(packet) = change_of(alloc, before, after, &differing, sameness, class)? {
            return Ok(Some(packet));
        }
    }
    Ok(None)
}
