//! A group for each difference of each box of packets.
ghost use Rattle.std.specs.Prelude.{◌≡◌, ◌++◌, false, IfErr, IfOk, OnOk, map};
ghost use Rattle.prt_refusals.specs.declared.refusal.Refusal.TheVariants.{NoMemory};
ghost use Rattle.prt_partition.specs.Boxes.{AreBoxes};
ghost use Rattle.prt_partition.specs.Classes.{is_named};
ghost use Rattle.prt_partition.specs.Differing.{IsDiffering};
ghost use Rattle.prt_impact.specs.Groups.{AreGroups, rules_of};
ghost use Rattle.prt_impact.specs.Steps.{AddsBox, group_of, interfaces_of};

use crate::group::{AddrRange, Group, InterfaceSet, push_group};
use crate::mark_set::one_block;
use prt_partition::{Difference, Differing, PacketBox, Sameness, changes};
use prt_refusals::Refusal;
use prt_route::Dev;
use prt_rule::Packet;
use prt_version::Version;
use std::alloc::{AllocError, Global};

/// Converts the interfaces of a box.
fn interfaces_of(one: &PacketBox) -> InterfaceSet
    ensures { result ≡ interfaces_of one.now.interfaces }
{
    match one.interfaces {
        prt_partition::Interfaces::Named(name) => InterfaceSet::Named(name),
        prt_partition::Interfaces::AllOthers => InterfaceSet::AllOthers,
    }
}

/// Makes the group of the packets of a box to the destinations of a difference.
fn group_of(one: &PacketBox, difference: &Difference) -> Group
    ensures { result ≡ group_of one.now difference.now }
{
    Group {
        to: AddrRange {
            first: difference.first,
            last: difference.last,
        },
        from: AddrRange {
            first: one.first,
            last: one.last,
        },
        interfaces: interfaces_of(one),
        marks: one_block(&one.mark),
        was: difference.was,
        is: difference.is,
    }
}

/// Appends the group of each difference of a box.
fn push_each(
    groups: &mut Vec<Group>,
    one: &PacketBox,
    differences: &[Difference],
) -> Result<(), AllocError>
    ensures { OnOk result (groups.new.items ≡ groups.old.items ++ map (group_of one.now) differences.now) }
{
    for difference in differences {
        push_group(groups, &group_of(one, difference))?;
    }
    Ok(())
}

/// Appends the groups of a box, which are those of a packet that represents it.
fn push_box(
    groups: &mut Vec<Group>,
    before: &Version,
    after: &Version,
    differing: &Differing,
    sameness: Sameness,
    one: &PacketBox,
    packet: &Packet,
) -> Result<(), Refusal>
    requires { IsDiffering before.now after.now differing.now }
    ensures ok { OnOk result (AddsBox sameness before.now after.now one.now packet.now groups.old.items groups.new.items) }
    ensures reason { IfErr result (λ reason. reason ≡ NoMemory) }
{
    let alloc = *groups.allocator();
    let differences = changes(alloc, before, after, differing, sameness, packet)?;
    push_each(groups, one, &differences)?;
    Ok(())
}

/// Makes a group for each difference of each box. The fresh interface is one that no rule names.
///
/// # Errors
///
/// `NoMemory` alone.
pub(crate) fn groups_of(
    alloc: Global,
    before: &Version,
    after: &Version,
    differing: &Differing,
    sameness: Sameness,
    boxes: &[PacketBox],
    fresh: &Dev,
) -> Result<Vec<Group>, Refusal>
    requires differing { IsDiffering before.now after.now differing.now }
    requires boxes { AreBoxes (rules_of before.now after.now) boxes.now }
    requires fresh { is_named (rules_of before.now after.now) fresh.now ≡ false }
    ensures value { IfOk result (λ groups. AreGroups sameness before.now after.now groups.items) }
    ensures reason { IfErr result (λ reason. reason ≡ NoMemory) }
{
    let mut groups = Vec::new(alloc);
    for one in boxes {
        push_box(
            &mut groups,
            before,
            after,
            differing,
            sameness,
            one,
            &one.packet(fresh),
        )?;
    }
    Ok(groups)
}
