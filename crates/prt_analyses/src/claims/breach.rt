//! Whether a claim holds: a packet that breaks it, if there is one.
ghost use Rattle.std.specs.Prelude.{◌≡◌, ◌≤◌, ◌++◌, IfErr, IfOk, length};
ghost use Rattle.prt_refusals.specs.declared.refusal.Refusal.TheVariants.{NoMemory};
ghost use Rattle.prt_partition.specs.Boxes.{IsUndivided};
ghost use Rattle.prt_partition.specs.Classes.{IsPacket};
ghost use Rattle.prt_partition.specs.Cuts.{to};
ghost use Rattle.prt_analyses.specs.Claims.{IsBreach, IsBreachAmong, IsBreachOf, is_breach, rules_of};

use super::claim::Claim;
use super::selector::{PacketSelector, block_of, rule_of};
use prt_addr::Addr;
use prt_partition::{Span, joined_classes, spans};
use prt_refusals::Refusal;
use prt_route::Dev;
use prt_rule::{Packet, Rule};
use prt_version::Version;
use std::alloc::{AllocError, Global};

/// Makes a packet. By their types its numbers have 32 bits.
fn packet_of(dst: u32, src: u32, iif: Dev, mark: u32) -> Packet
    ensures value { result ≡ record { dst = record { 0 = dst }; src = record { 0 = src }; iif = iif; mark = mark } }
    ensures fits { IsPacket result }
{
    Packet {
        dst: Addr(dst),
        src: Addr(src),
        iif,
        mark,
    }
}

/// Makes the packet to this destination, with all else as it is.
fn to(packet: &Packet, addr: u32) -> Packet
    ensures value { result ≡ to packet.now addr }
    ensures fits { IsPacket result }
{
    packet_of(addr, packet.src.0, packet.iif, packet.mark)
}

/// Checks whether the packet breaks the claim: the claim takes it, and it doesn't meet the claim.
fn is_breach(version: &Version, claim: &Claim, packet: &Packet) -> bool
    ensures { result ≡ is_breach version.now claim.now packet.now }
{
    claim.takes(packet) && !claim.is_met(&version.select(packet).verdict)
}

/// Finds a packet of the class that breaks the claim, among those to the first destinations of these spans.
fn first_breach(version: &Version, claim: &Claim, class: &Packet, spans: &[Span]) -> Option<Packet>
    ensures { IsBreachAmong version.now claim.now class.now spans.now result }
{
    for span in spans {
        let packet = to(class, span.first.0);
        if is_breach(version, claim, &packet) {
            return Some(packet);
        }
    }
    None
}

/// Finds a packet of the class that breaks the claim, among those to all destinations.
///
/// The verdict on them changes only at the first destination of a span. So it is enough to look at these, and at the first
/// destination that the claim takes.
fn breach_of(
    alloc: Global,
    version: &Version,
    claim: &Claim,
    class: &Packet,
) -> Result<Option<Packet>, Refusal>
    ensures value { IfOk result (IsBreachOf version.now claim.now class.now) }
    ensures reason { IfErr result (λ reason. reason ≡ NoMemory) }
{
    let lowest = to(class, block_of(&claim.selector.to).bits());
    if !claim.takes(&lowest) {
        return Ok(None);
    }
    if is_breach(version, claim, &lowest) {
        return Ok(Some(lowest));
    }
    let spans = spans(alloc, version, class)?;
    Ok(first_breach(version, claim, class, &spans))
}

/// Lists the rules of the version, and those by which the selector divides packets.
fn rules_and(
    alloc: Global,
    version: &Version,
    selector: &PacketSelector,
) -> Result<Vec<Rule>, AllocError>
    ensures value { IfOk result (λ rules. rules.items ≡ version.now.rules ++ rules_of selector.now) }
    ensures few { IfOk result (λ rules. length rules.items ≤ 2000) }
{
    // The version's contract says how many rules there are at most.
    let _number = version.number();
    let mut rules = Vec::new(alloc);
    rules.extend_from_slice(version.rules())?;
    rules.push(rule_of(selector, selector.mark))?;
    if let Some(mark) = selector.not_mark {
        rules.push(rule_of(selector, Some(mark)))?;
    }
    Ok(rules)
}

/// Finds a packet that breaks the claim: the claim takes it, and it doesn't meet the claim.
///
/// `None` means that there is none. The claim then holds of every source, destination, interface and mark.
///
/// # Errors
///
/// `Full` if the rules and the selector would divide packets into more than [`MOST_BOXES`](prt_partition::MOST_BOXES) boxes.
/// Otherwise `NoMemory` alone, which may also come before `Full`.
pub fn find_breach(
    alloc: Global,
    version: &Version,
    claim: &Claim,
) -> Result<Option<Packet>, Refusal>
    ensures value { IfOk result (IsBreach version.now claim.now) }
    ensures reason { IfErr result (IsUndivided (version.now.rules ++ rules_of claim.now.selector)) }
{
    let rules = rules_and(alloc, version, &claim.selector)?;
    let classes = joined_classes(alloc, &rules)?;
    for class in &classes {
        if let Some(packet) = breach_of(alloc, version, claim, class)? {
            return Ok(Some(packet));
        }
    }
    Ok(None)
}
