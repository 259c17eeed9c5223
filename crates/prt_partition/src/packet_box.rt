//! Boxes of packets, as people read them.
ghost use Rattle.std.specs.Prelude.{◌≡◌};
ghost use Rattle.prt_partition.specs.Boxes.{has_interface, has_packet, is_between, packet_of};

use crate::interfaces::is_named;
use crate::joining::takes_mark;
use prt_addr::Addr;
use prt_route::Dev;
use prt_rule::{Mark, Packet, Rule};

/// Interfaces that every rule takes alike.
#[derive(Clone, Copy, Debug, PartialEq, Eq)]
pub enum Interfaces {
    /// The one of this name.
    Named(Dev),
    /// All that no rule names.
    AllOthers,
}

/// Packets of a range of sources, of some interfaces and of a block of marks, to any destination.
#[derive(Clone, Copy, Debug, PartialEq, Eq)]
pub struct PacketBox {
    /// The first source.
    pub first: Addr,
    /// The last source.
    pub last: Addr,
    /// The interfaces that the packets came in by.
    pub interfaces: Interfaces,
    /// The block of marks: those that agree with the value in the bits of the mask.
    pub mark: Mark,
}

/// Checks whether the number is in the range. Both ends belong to it.
fn is_between(first: u32, last: u32, number: u32) -> bool
    ensures { result ≡ is_between first last number }
{
    first <= number && number <= last
}

/// Checks whether the interface is one of these.
fn has_interface(rules: &[Rule], interfaces: &Interfaces, iif: &Dev) -> bool
    ensures { result ≡ has_interface rules.now interfaces.now iif.now }
{
    match interfaces {
        Interfaces::Named(name) => name.as_bytes() == iif.as_bytes(),
        Interfaces::AllOthers => !is_named(rules, iif),
    }
}

impl PacketBox {
    /// Checks whether the packet is in the box, whatever its destination. The rules are those that packets are divided by.
    pub fn contains(&self, rules: &[Rule], packet: &Packet) -> bool
        ensures { result ≡ has_packet rules.now packet.now self.now }
    {
        is_between(self.first.0, self.last.0, packet.src.0)
            && has_interface(rules, &self.interfaces, &packet.iif)
            && takes_mark(&Some(self.mark), packet.mark)
    }

    /// Builds a packet of the box, to 0.0.0.0, which represents all packets of the box.
    ///
    /// The fresh interface is one that no rule names, as [`fresh_name`](crate::fresh_name) finds it.
    pub fn packet(&self, fresh: &Dev) -> Packet
        ensures { result ≡ packet_of fresh.now self.now }
    {
        let iif = match self.interfaces {
            Interfaces::Named(name) => name,
            Interfaces::AllOthers => *fresh,
        };
        Packet {
            dst: Addr(0),
            src: self.first,
            iif,
            mark: self.mark.mark,
        }
    }
}
