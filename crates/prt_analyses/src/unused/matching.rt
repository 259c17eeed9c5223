//! A packet to a prefix that a rule matches, if there is one.
ghost use Rattle.std.specs.Prelude.{◌≡◌, MatchOption, codes, find, true};
ghost use Rattle.prt_addr.specs.Prefix.{contains};
ghost use Rattle.prt_addr.specs.Sound.{IsPrefix};
ghost use Rattle.prt_rule.specs.Rule.{matches};
ghost use Rattle.prt_analyses.specs.Unused.Steps.{candidates, is_hit, last_of, named_packet, other_mark};
ghost use Rattle.prt_analyses.specs.Unused.{MatchesNone};

use super::used::{packet_by, to};
use prt_addr::{Addr, Prefix};
use prt_route::{Dev, read_dev};
use prt_rule::{Packet, Rule, matches};

/// Makes a packet to this address that has what the selector of the rule names. It comes in by `lo` if that names no
/// interface, and has the mark 0 if it names no mark.
pub(crate) fn named_packet(rule: &Rule, addr: u32) -> Packet
    ensures { result ≡ named_packet rule.now addr }
{
    let iif = match rule.iif {
        Some(iif) => iif,
        None => Dev::loopback(),
    };
    let mark = match rule.mark {
        Some(mark) => mark.mark,
        None => 0,
    };
    Packet {
        dst: Addr(addr),
        src: Addr(rule.from.bits()),
        iif,
        mark,
    }
}

/// Returns an interface other than `lo`.
fn other_interface() -> Dev
    ensures { result ≡ codes "eth0" }
{
    match read_dev(b"eth0") {
        Ok(name) => name,
        Err(_) => Dev::loopback(),
    }
}

/// Computes a mark that differs from the rule's in each bit that the rule compares.
fn other_mark(rule: &Rule) -> u32
    ensures { result ≡ other_mark rule.now.mark }
{
    match rule.mark {
        Some(mark) => mark.mark ^ mark.mask,
        None => 0,
    }
}

/// Computes the last address of the prefix.
fn last_of(prefix: &Prefix) -> u32
    ensures { result ≡ last_of prefix.now }
{
    prefix.bits() + ((1u64 << (32 - prefix.len())) - 1) as u32
}

/// Makes packets, among them one to the prefix that the rule matches, if there is one at all.
///
/// A rule that isn't inverted matches one of the first two if its destinations and the prefix meet. An inverted one matches a
/// packet of which some part isn't what its selector names, so each part is tried with other values.
fn candidates(rule: &Rule, prefix: &Prefix) -> [Packet; 7]
    ensures value { result ≡ candidates rule.now prefix.now }
    ensures prefix { IsPrefix prefix.now }
{
    let named = named_packet(rule, prefix.bits());
    [
        named,
        to(&named, rule.to.bits()),
        packet_by(prefix.bits(), 0, Dev::loopback(), 0),
        Packet {
            src: Addr(u32::MAX),
            ..named
        },
        Packet {
            iif: other_interface(),
            ..named
        },
        Packet {
            mark: other_mark(rule),
            ..named
        },
        to(&named, last_of(prefix)),
    ]
}

/// Checks whether the packet is to the prefix, and the rule matches it.
fn is_hit(rule: &Rule, prefix: &Prefix, packet: &Packet) -> bool
    ensures { result ≡ is_hit rule.now prefix.now packet.now }
{
    prefix.contains(packet.dst) && matches(rule, packet)
}

/// Finds the first of these packets that is to the prefix and matched by the rule.
fn first_hit(rule: &Rule, prefix: &Prefix, packets: &[Packet]) -> Option<Packet>
    ensures { result ≡ find (is_hit rule.now prefix.now) packets.now }
{
    packets
        .iter()
        .copied()
        .find(|packet| is_hit(rule, prefix, packet))
}

/// Finds a packet to the prefix that the rule matches, if there is one.
pub(crate) fn packet_to(rule: &Rule, prefix: &Prefix) -> Option<Packet>
    ensures { MatchOption result (MatchesNone prefix.now rule.now) (λ packet. (contains prefix.now packet.dst ≡ true) × (matches rule.now packet ≡ true)) }
{
    first_hit(rule, prefix, &candidates(rule, prefix))
}
