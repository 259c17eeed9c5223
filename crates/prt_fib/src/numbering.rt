//! The numbers of the outcomes at starts.
ghost use Rattle.std.specs.Prelude.{◌≡◌, ◌⊎◌, ◌<◌, ℕ, IfErr, IfOk, OnOk, length, slice_index};
ghost use Rattle.prt_refusals.specs.declared.refusal.Refusal.TheVariants.{Full, NoMemory};
ghost use Rattle.prt_partition.specs.Cuts.{to};
ghost use Rattle.prt_fib.specs.Fib.{HasTooMany, outcome_to};
ghost use Rattle.prt_fib.specs.Hashes.{IsIndex, hash_of};
ghost use Rattle.prt_fib.specs.Numbers.{AreNumbered, IsLeftOut, IsNumber};

use crate::hashing::{HASHES, append_outcome, search};
use crate::outcomes::Outcomes;
use prt_addr::Addr;
use prt_partition::{Outcome, outcome_of};
use prt_refusals::Refusal;
use prt_rule::Packet;
use prt_version::Version;
use std::alloc::Global;

/// Makes the packet that differs in its destination alone.
pub(crate) fn to(packet: &Packet, dst: Addr) -> Packet
    ensures { result ≡ to packet.now dst.0 }
{
    Packet {
        dst,
        src: packet.src,
        iif: packet.iif,
        mark: packet.mark,
    }
}

/// Finds what becomes of the packet to this destination.
pub(crate) fn outcome_to(version: &Version, packet: &Packet, dst: u32) -> Outcome
    ensures { result ≡ outcome_to version.now packet.now dst }
{
    let answer = version.select(&to(packet, Addr(dst)));
    outcome_of(&answer.verdict)
}

/// The numbers of starts, and the outcomes by their numbers.
#[derive(Drop)]
pub(crate) struct Numbered {
    pub(crate) numbers: Vec<u16>,
    pub(crate) outcomes: Outcomes,
}

/// Finds the number of an outcome, which is appended if it has none.
///
/// # Errors
///
/// `Full` if it has no number and 16 bits count no more. `NoMemory`.
fn number_of(
    outcomes: &mut Vec<Outcome>,
    heads: &mut Vec<u32>,
    next: &mut Vec<u32>,
    outcome: &Outcome,
) -> Result<u16, Refusal>
    requires { IsIndex hash_of outcomes.old.items heads.old.items next.old.items }
    ensures value { IfOk result (λ number. IsNumber outcomes.old.items outcome.now number outcomes.new.items) }
    ensures index { OnOk result (IsIndex hash_of outcomes.new.items heads.new.items next.new.items) }
    ensures reason { IfErr result (λ reason. ((reason ≡ Full) × IsLeftOut outcomes.old.items outcome.now) ⊎ (reason ≡ NoMemory)) }
{
    if let Some(place) = search(outcomes, heads, next, outcome) {
        return Ok(place as u16);
    }
    let place = outcomes.len();
    if place > 0xffff {
        return Err(Refusal::Full);
    }
    append_outcome(outcomes, heads, next, outcome)?;
    Ok(place as u16)
}

/// Numbers what becomes of the packet at each of the starts.
///
/// # Errors
///
/// `Full` if the packet has more outcomes than 16 bits count. `NoMemory` may come before that.
pub(crate) fn number_starts(
    alloc: Global,
    version: &Version,
    packet: &Packet,
    starts: &[u32],
) -> Result<Numbered, Refusal>
    ensures value { IfOk result (λ made. AreNumbered version.now packet.now starts.now made.numbers.items made.outcomes) }
    ensures reason { IfErr result (λ reason. ((reason ≡ Full) × HasTooMany version.now packet.now) ⊎ (reason ≡ NoMemory)) }
{
    let mut numbers = Vec::with_capacity(alloc, starts.len())?;
    let mut outcomes = Vec::new(alloc);
    let mut heads = Vec::from_elem(alloc, 0u32, HASHES)?;
    let mut next = Vec::new(alloc);
    for start in starts {
        let outcome = outcome_to(version, packet, *start);
        let number = number_of(&mut outcomes, &mut heads, &mut next, &outcome)?;
        numbers.push(number)?;
    }
    Ok(Numbered {
        numbers,
        outcomes: Outcomes::of(outcomes, heads, next),
    })
}
