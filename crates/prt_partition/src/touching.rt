//! Which of the packets that differ in their destinations alone a difference of two versions can send another way.
ghost use Rattle.std.specs.List.{list_any};
ghost use Rattle.prt_addr.specs.Prefix.{contains};
ghost use Rattle.prt_rule.specs.Rule.{matches};
ghost use Rattle.std.specs.Prelude.{◌≡◌, IfOk, false, filter, true};
ghost use Rattle.prt_rule.specs.declared.packet.Packet.{Packet as PacketOf};
ghost use Rattle.prt_partition.specs.Cuts.{to};
ghost use Rattle.prt_partition.specs.Touching.{IsTouching, can_match, is_touched};

use crate::differing::Differing;
use crate::joining::takes_apart;
use crate::reach::FEW;
use prt_addr::Addr;
use prt_route::Route;
use prt_rule::{Packet, Rule, matches};
use std::alloc::{AllocError, Global};

/// What of a difference can touch packets that differ in their destinations alone.
#[derive(Drop)]
pub(crate) struct Touching {
    /// Whether each of them counts as touched, since there are many rules or routes.
    all: bool,
    rules: Vec<Rule>,
    routes: Vec<Route>,
}

/// Returns the packet with this destination.
pub(crate) fn to(packet: &Packet, addr: u32) -> Packet
    ensures { result ≡ to packet.now addr }
{
    Packet {
        dst: Addr(addr),
        src: packet.src,
        iif: packet.iif,
        mark: packet.mark,
    }
}

/// Checks whether the rule matches the packet if it is given some destination.
fn can_match(packet: &Packet, rule: &Rule) -> bool
    ensures { result ≡ can_match packet.now rule.now }
{
    rule.inverted || takes_apart(rule, packet)
}

/// Collects the rules that match the packet if it is given some destination.
pub(crate) fn candidates(
    alloc: Global,
    rules: &[Rule],
    packet: &Packet,
) -> Result<Vec<Rule>, AllocError>
    ensures { IfOk result (λ candidates. candidates.items ≡ filter (can_match packet.now) rules.now) }
{
    rules
        .iter()
        .filter(|rule| can_match(packet, rule))
        .copied()
        .collect(alloc)
}

/// Finds what of a difference can touch the packet, whatever its destination.
pub(crate) fn what_touches(
    alloc: Global,
    differing: &Differing,
    packet: &Packet,
) -> Result<Touching, AllocError>
    ensures { IfOk result (IsTouching differing.now.rules.items differing.now.routes.items packet.now) }
{
    let rules = candidates(alloc, &differing.rules, packet)?;
    if rules.len() > FEW || differing.routes.len() > FEW {
        return Ok(Touching {
            all: true,
            rules: Vec::new(alloc),
            routes: Vec::new(alloc),
        });
    }
    let routes = Vec::from_slice(alloc, &differing.routes)?;
    Ok(Touching {
        all: false,
        rules,
        routes,
    })
}

/// Checks whether one of the rules matches the packet.
fn any_matches(rules: &[Rule], packet: &Packet) -> bool
    ensures { result ≡ list_any (λ rule. matches rule packet.now) rules.now }
{
    rules.iter().any(|rule| matches(rule, packet))
}

/// Checks whether one of the routes has the address.
fn any_holds(routes: &[Route], addr: Addr) -> bool
    ensures { result ≡ list_any (λ route. contains route.prefix addr) routes.now }
{
    routes.iter().any(|route| route.prefix.contains(addr))
}

/// Checks whether a rule matches the packet, or a route has its destination.
pub(crate) fn is_touched(touching: &Touching, packet: &Packet) -> bool
    ensures { result ≡ is_touched touching.now packet.now }
{
    touching.all || any_matches(&touching.rules, packet) || any_holds(&touching.routes, packet.dst)
}

/// Checks whether no packet is touched.
pub(crate) fn is_nothing(touching: &Touching) -> bool
    ensures { result ≡ true → (packet : PacketOf) → is_touched touching.now packet ≡ false }
{
    !touching.all && touching.rules.is_empty() && touching.routes.is_empty()
}
