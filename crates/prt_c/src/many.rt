//! Lookups of many packets.
ghost use Rattle.std.specs.Prelude.{◌≡◌, ◌≤◌, ◌⊎◌};
ghost use Rattle.prt_c.specs.Lookup.{answer_to};
ghost use Rattle.prt_c.specs.Many.{AreFound, AreLookedUp};
ghost use Rattle.prt_c.specs.States.{held_state};

use crate::answer::AnswerC;
use crate::held::Held;
use crate::lookup::look_up;
use crate::packet::PacketC;
use crate::parts::Parts;
use crate::status::{DONE, EMPTY};
use prt_version::{Refusal, Version};
use std::alloc::Global;
use std::mem::replace;

/// How many packets were looked up, and why no more.
#[derive(Clone, Copy)]
pub(crate) struct LookedUp {
    /// The packets that were looked up, from the first on.
    pub(crate) count: usize,
    /// Why the packet after them has no answer; None if there is none, or no room for its answer.
    pub(crate) refused: Option<Refusal>,
}

/// Returns the smaller of two numbers.
pub(crate) fn smaller(one: usize, other: usize) -> usize
    ensures first { result ≤ one }
    ensures second { result ≤ other }
    ensures either { (result ≡ one) ⊎ (result ≡ other) }
{
    if one < other { one } else { other }
}

/// Looks packets up, one after the other, as many as there is room for answers, up to the first that has none.
///
/// It takes no memory.
fn answer_all(version: &Version, packets: &[PacketC], answers: &mut [AnswerC]) -> LookedUp
    ensures { AreLookedUp (answer_to version.now) packets.now answers.old answers.new result }
{
    let room = smaller(packets.len(), answers.len());
    for place in 0..room {
        match look_up(version, &packets[place], &mut answers[place]) {
            Ok(()) => {}
            Err(reason) => {
                return LookedUp {
                    count: place,
                    refused: Some(reason),
                };
            }
        }
    }
    LookedUp {
        count: room,
        refused: None,
    }
}

/// Looks packets up in the version that is held, one after the other, up to the first that has no answer. It looks up as
/// many as there are packets and answers.
///
/// It takes no memory, and waits for nothing. `count` is how many were looked up. Each of `answers` before it is that of
/// the packet at its place, and the others are as they were. `version` holds the same afterwards.
///
/// Returns 0, or 13 if the interface of the packet at `count` has no such name. If `version` holds nothing it returns
/// 100, and all is as it was.
#[unsafe(no_mangle)]
pub extern "C" fn prt_lookup_many(
    alloc: Global,
    version: &mut Held,
    packets: &[PacketC],
    answers: &mut [AnswerC],
    count: &mut usize,
) -> u32
    ensures same { version.new.home ≡ version.old.home }
    ensures found { AreFound answer_to (held_state version.old.home) packets.now answers.old answers.new count.old count.new result }
{
    let Some(parts) = replace(version, Held::empty(alloc)).into_parts() else {
        return EMPTY;
    };
    let owner = parts.into_box();
    let looked_up = answer_all(&owner.version, packets, answers);
    *version = Held::of_parts(Parts::of(owner));
    *count = looked_up.count;
    match looked_up.refused {
        Some(reason) => reason.code(),
        None => DONE,
    }
}
