//! What becomes of packets that differ in their destinations alone, before and after.
ghost use Rattle.std.specs.Prelude.{◌≡◌, IfOk};
ghost use Rattle.prt_partition.specs.Comparison.{CanCompare, after_of, before_of};
ghost use Rattle.prt_partition.specs.Cuts.{to};
ghost use Rattle.prt_partition.specs.Touching.{IsQuiet, transition_of};

use crate::class_rules::ClassRules;
use crate::sameness::{Sameness, are_same};
use crate::touching::{Touching, is_touched, to};
use prt_rule::Packet;
use prt_version::{Verdict, Version};
use std::alloc::{AllocError, Global};

/// The verdicts of a packet before and after, which are not the same.
#[derive(Clone, Copy)]
pub(crate) struct Transition {
    pub was: Verdict,
    pub is: Verdict,
}

/// Two versions, and what of their difference can touch packets that differ in their destinations alone.
#[derive(Drop)]
pub(crate) struct Comparison<'a> {
    before: ClassRules<'a>,
    after: ClassRules<'a>,
    touching: Touching,
}

impl<'a> Comparison<'a> {
    /// Compares two versions for packets that differ from this one in their destinations alone.
    pub(crate) fn new(
        alloc: Global,
        before: &'a Version,
        after: &'a Version,
        touching: Touching,
        packet: &Packet,
    ) -> Result<Comparison<'a>, AllocError>
        requires { IsQuiet before.now after.now touching packet.now }
        ensures can { IfOk result (CanCompare packet.now) }
        ensures before { IfOk result (λ comparison. before_of comparison ≡ before.now) }
        ensures after { IfOk result (λ comparison. after_of comparison ≡ after.now) }
    {
        let before = ClassRules::new(alloc, before, packet)?;
        let after = ClassRules::new(alloc, after, packet)?;
        Ok(Comparison {
            before,
            after,
            touching,
        })
    }

    /// Returns the verdicts before and after on the packet with this destination, unless they are the same.
    fn transition_of(&self, sameness: Sameness, packet: &Packet, addr: u32) -> Option<Transition>
        requires { CanCompare packet.now self.now }
        ensures { result ≡ transition_of sameness (before_of self.now) (after_of self.now) (to packet.now addr) }
    {
        let was = self.before.verdict_to(packet, addr);
        let is = self.after.verdict_to(packet, addr);
        if are_same(sameness, &was, &is) {
            None
        } else {
            Some(Transition { was, is })
        }
    }

    /// The same. It computes the verdicts only if the difference can touch the packet.
    pub(crate) fn transition_at(
        &self,
        sameness: Sameness,
        packet: &Packet,
        addr: u32,
    ) -> Option<Transition>
        requires { CanCompare packet.now self.now }
        ensures { result ≡ transition_of sameness (before_of self.now) (after_of self.now) (to packet.now addr) }
    {
        if is_touched(&self.touching, &to(packet, addr)) {
            self.transition_of(sameness, packet, addr)
        } else {
            None
        }
    }
}
