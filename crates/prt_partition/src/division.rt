//! All packets divided into boxes, by rules.
ghost use Rattle.std.specs.Prelude.{◌≡◌, ◌≤◌, ◌*◌, ◌++◌, IfErr, IfOk, OnOk, drop, flat_map, length, map};
ghost use Rattle.prt_partition.specs.Boxes.{AreBoxes, IsUndivided, all_interfaces, box_of, boxes_between, boxes_from, last_before};

use crate::cuts::source_starts;
use crate::interfaces::names_of;
use crate::limits::MOST_BOXES;
use crate::marks::mark_blocks;
use crate::packet_box::{Interfaces, PacketBox};
use prt_addr::Addr;
use prt_refusals::Refusal;
use prt_route::Dev;
use prt_rule::{Mark, Rule};
use std::alloc::{AllocError, Global};

/// Lists each of the names, and all interfaces that have none of them.
fn all_interfaces(alloc: Global, names: &[Dev]) -> Result<Vec<Interfaces>, AllocError>
    ensures { IfOk result (λ interfaces. interfaces.items ≡ all_interfaces names.now) }
{
    let mut interfaces = Vec::new(alloc);
    interfaces.push(Interfaces::AllOthers)?;
    for name in names {
        interfaces.push(Interfaces::Named(*name))?;
    }
    Ok(interfaces)
}

/// Builds the box of these.
fn box_of(first: u32, last: u32, interfaces: &Interfaces, mark: &Mark) -> PacketBox
    ensures { result ≡ box_of first last interfaces.now mark.now }
{
    PacketBox {
        first: Addr(first),
        last: Addr(last),
        interfaces: *interfaces,
        mark: *mark,
    }
}

/// Appends the box of each block of marks, for a range of sources and these interfaces.
fn push_marks(
    boxes: &mut Vec<PacketBox>,
    first: u32,
    last: u32,
    interfaces: &Interfaces,
    marks: &[Mark],
) -> Result<(), AllocError>
    ensures { OnOk result (boxes.new.items ≡ boxes.old.items ++ map (box_of first last interfaces.now) marks.now) }
{
    for mark in marks {
        boxes.push(box_of(first, last, interfaces, mark))?;
    }
    Ok(())
}

/// Appends the boxes of a range of sources.
fn push_between(
    boxes: &mut Vec<PacketBox>,
    first: u32,
    last: u32,
    interfaces: &[Interfaces],
    marks: &[Mark],
) -> Result<(), AllocError>
    ensures { OnOk result (boxes.new.items ≡ boxes.old.items ++ boxes_between first last interfaces.now marks.now) }
{
    for one in interfaces {
        push_marks(boxes, first, last, one, marks)?;
    }
    Ok(())
}

/// Computes the last source before the range at this place begins.
fn last_before(starts: &[u32], place: usize) -> u32
    requires { place ≤ length starts.now }
    ensures { result ≡ last_before (drop place starts.now) }
{
    if place < starts.len() {
        starts[place].saturating_sub(1)
    } else {
        u32::MAX
    }
}

/// Builds the boxes of the ranges that begin at these sources.
fn boxes_from(
    alloc: Global,
    starts: &[u32],
    interfaces: &[Interfaces],
    marks: &[Mark],
) -> Result<Vec<PacketBox>, AllocError>
    ensures { IfOk result (λ boxes. boxes.items ≡ boxes_from starts.now interfaces.now marks.now) }
{
    let mut boxes = Vec::new(alloc);
    for (i, first) in starts.iter().enumerate() {
        let last = last_before(starts, i + 1);
        push_between(&mut boxes, *first, last, interfaces, marks)?;
    }
    Ok(boxes)
}

/// Computes how many boxes there are of so many ranges of sources, interfaces and blocks of marks.
fn count(sources: usize, interfaces: usize, marks: usize) -> usize
    requires sources { sources ≤ 4001 }
    requires interfaces { interfaces ≤ 2001 }
    requires marks { marks ≤ MOST_BOXES }
    ensures { result ≡ sources * interfaces * marks }
{
    sources * interfaces * marks
}

/// Divides all packets into boxes by the rules. Each packet is in exactly one box, and each rule takes all packets of a box
/// alike, if they are given one destination.
///
/// # Errors
///
/// `Full` if there would be more than [`MOST_BOXES`], and otherwise `NoMemory` alone. `NoMemory` may come before that.
pub fn boxes(alloc: Global, rules: &[Rule]) -> Result<Vec<PacketBox>, Refusal>
    requires { length rules.now ≤ 2000 }
    ensures value { IfOk result (λ boxes. AreBoxes rules.now boxes.items) }
    ensures reason { IfErr result (IsUndivided rules.now) }
{
    let starts = source_starts(alloc, rules)?;
    let names = names_of(alloc, rules)?;
    let interfaces = all_interfaces(alloc, &names)?;
    let marks = mark_blocks(alloc, rules)?;
    if count(starts.len(), interfaces.len(), marks.len()) > MOST_BOXES {
        return Err(Refusal::Full);
    }
    let boxes = boxes_from(alloc, &starts, &interfaces, &marks)?;
    Ok(boxes)
}
