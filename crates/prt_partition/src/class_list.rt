//! Classes of packets that every rule takes alike, whatever their destinations.
ghost use Rattle.std.specs.Prelude.{◌≡◌, ◌≤◌, IfErr, IfOk, length, map};
ghost use Rattle.std.specs.List.{IsDistinct};
ghost use Rattle.prt_partition.specs.Classes.{AreClasses, are_alike};
ghost use Rattle.prt_partition.specs.Boxes.{IsUndivided, packet_of};

use crate::division::boxes;
use crate::interfaces::fresh_name;
use crate::joining::join;
use crate::packet_box::PacketBox;
use prt_refusals::Refusal;
use prt_route::Dev;
use prt_rule::{Packet, Rule};
use std::alloc::{AllocError, Global};

/// Makes a packet of each box. The fresh interface is one that no rule names.
fn packets_of(alloc: Global, boxes: &[PacketBox], fresh: &Dev) -> Result<Vec<Packet>, AllocError>
    ensures { IfOk result (λ packets. packets.items ≡ map (packet_of fresh.now) boxes.now) }
{
    boxes.iter().map(|one| one.packet(fresh)).collect(alloc)
}

/// Finds packets that represent all packets: for each packet there is one that every rule takes alike, whatever destination
/// the two are given. It is one packet of each box.
///
/// # Errors
///
/// `Full` if the rules would divide packets into more than [`MOST_BOXES`](crate::MOST_BOXES) boxes, and otherwise `NoMemory`
/// alone. `NoMemory` may come before that.
pub fn classes(alloc: Global, rules: &[Rule]) -> Result<Vec<Packet>, Refusal>
    requires { length rules.now ≤ 2000 }
    ensures value { IfOk result (λ classes. AreClasses rules.now classes.items) }
    ensures reason { IfErr result (IsUndivided rules.now) }
{
    let boxes = boxes(alloc, rules)?;
    let fresh = fresh_name(alloc, rules)?;
    let all = packets_of(alloc, &boxes, &fresh)?;
    Ok(all)
}

/// Finds packets that represent all packets: for each packet there is one that every rule takes alike, whatever destination
/// the two are given. No two of them are taken alike by every rule.
///
/// # Errors
///
/// `Full` if the rules would divide packets into more than [`MOST_BOXES`](crate::MOST_BOXES) boxes, and otherwise `NoMemory`
/// alone. `NoMemory` may come before that.
pub fn joined_classes(alloc: Global, rules: &[Rule]) -> Result<Vec<Packet>, Refusal>
    requires { length rules.now ≤ 2000 }
    ensures value { IfOk result (λ classes. AreClasses rules.now classes.items) }
    ensures apart { IfOk result (λ classes. IsDistinct (are_alike rules.now) classes.items) }
    ensures reason { IfErr result (IsUndivided rules.now) }
{
    let all = classes(alloc, rules)?;
    let joined = join(alloc, rules, &all)?;
    Ok(joined)
}
