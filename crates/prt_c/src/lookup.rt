//! Lookups of packets.
ghost use Rattle.std.specs.Prelude.{◌≡◌, Err, IfErr, Ok, OnErr, OnOk};
ghost use Rattle.prt_c.specs.Lookup.{answer_to, held_answer, status, written};
ghost use Rattle.prt_c.specs.States.{held_state};

use crate::answer::{AnswerC, write_found};
use crate::held::Held;
use crate::packet::{PacketC, packet_by, read_interface};
use crate::parts::Parts;
use crate::status::{DONE, EMPTY};
use prt_route::Dev;
use prt_version::{Refusal, Version};
use std::alloc::Global;
use std::mem::replace;

/// Looks a packet up, and writes the answer. It takes no memory.
///
/// # Errors
///
/// `BadName` if its interface has no such name; the answer is then as it was.
pub(crate) fn look_up(
    version: &Version,
    packet: &PacketC,
    answer: &mut AnswerC,
) -> Result<(), Refusal>
    ensures found { OnOk result (answer_to version.now packet.now ≡ Ok answer.new) }
    ensures refused { IfErr result (λ reason. answer_to version.now packet.now ≡ Err reason) }
    ensures same { OnErr result (answer.new ≡ answer.old) }
{
    let mut looked_up = packet_by(packet, Dev::loopback());
    read_interface(&packet.interface, &mut looked_up.iif)?;
    write_found(version.number(), &version.find(&looked_up), answer);
    Ok(())
}

/// Looks a packet up in the version that is held.
///
/// It takes no memory, and waits for nothing. Returns 0, 13 if the packet's interface has no such name, or 100 if
/// `version` holds nothing; the answer is then as it was. `version` holds the same afterwards.
#[unsafe(no_mangle)]
pub extern "C" fn prt_lookup(
    alloc: Global,
    version: &mut Held,
    packet: &PacketC,
    answer: &mut AnswerC,
) -> u32
    ensures same { version.new.home ≡ version.old.home }
    ensures status { result ≡ status (held_answer (held_state version.old.home) packet.now) }
    ensures answer { answer.new ≡ written (held_answer (held_state version.old.home) packet.now) answer.old }
{
    let Some(parts) = replace(version, Held::empty(alloc)).into_parts() else {
        return EMPTY;
    };
    let owner = parts.into_box();
    let looked_up = look_up(&owner.version, packet, answer);
    *version = Held::of_parts(Parts::of(owner));
    match looked_up {
        Ok(()) => DONE,
        Err(reason) => reason.code(),
    }
}
