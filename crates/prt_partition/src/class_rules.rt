//! The rules that can match one of the packets that differ in their destinations alone.
ghost use Rattle.std.specs.Prelude.{◌≡◌, IfOk};
ghost use Rattle.prt_version.specs.Select.{select};
ghost use Rattle.prt_partition.specs.ClassRules.{AreOfClass, state_of};
ghost use Rattle.prt_partition.specs.Cuts.{to};

use crate::touching::{candidates, to};
use prt_rule::{Packet, Rule};
use prt_version::{Verdict, Version, first_verdict};
use std::alloc::{AllocError, Global};

/// A version, and those of its rules that match a packet if it is given some destination.
#[derive(Drop)]
pub(crate) struct ClassRules<'a> {
    version: &'a Version,
    rules: Vec<Rule>,
}

impl<'a> ClassRules<'a> {
    /// Finds the rules of a version that match the packet if it is given some destination.
    pub(crate) fn new(
        alloc: Global,
        version: &'a Version,
        packet: &Packet,
    ) -> Result<ClassRules<'a>, AllocError>
        ensures state { IfOk result (λ narrowed. state_of narrowed ≡ version.now) }
        ensures rules { IfOk result (AreOfClass packet.now) }
    {
        let rules = candidates(alloc, version.rules(), packet)?;
        Ok(ClassRules { version, rules })
    }

    /// Finds what becomes of the packet with this destination.
    pub(crate) fn verdict_to(&self, packet: &Packet, addr: u32) -> Verdict
        requires { AreOfClass packet.now self.now }
        ensures { result ≡ select (state_of self.now) (to packet.now addr) }
    {
        // The version's contract says that its rules are in order.
        let _number = self.version.number();
        let routes = self.version.shared_routes();
        first_verdict(&self.rules, routes, &to(packet, addr))
    }
}
