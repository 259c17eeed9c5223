//! Which rules decide packets, and which routes these packets get.
ghost use Rattle.std.specs.Prelude.{◌≡◌, ◌<◌, IfOk, IfSome, false, length, map};
ghost use Rattle.std.specs.List.{AllByRecursion as Each};
ghost use Rattle.prt_partition.specs.Classes.{AreClasses, IsPacket};
ghost use Rattle.prt_partition.specs.Cuts.{AreStarts, destination_cuts, to};
ghost use Rattle.prt_analyses.specs.Unused.Steps.{IsUse, all_packets, mark_at, marked, packet_by, packets_to, route_place, rule_place};

use super::places;
use prt_addr::Addr;
use prt_route::{Dev, Route};
use prt_rule::{Packet, Rule};
use prt_version::Version;
use std::alloc::{AllocError, Global};

/// For each rule whether it decides a packet, and for each route whether a packet gets it, in their order.
#[derive(Drop)]
pub(crate) struct Used {
    pub rules: Vec<bool>,
    pub routes: Vec<bool>,
}

/// Builds the packet of these parts.
pub(crate) fn packet_by(dst: u32, src: u32, iif: Dev, mark: u32) -> Packet
    ensures value { result ≡ packet_by dst src iif mark }
    ensures fits { IsPacket result }
{
    Packet {
        dst: Addr(dst),
        src: Addr(src),
        iif,
        mark,
    }
}

/// Returns the packet with this destination.
pub(crate) fn to(packet: &Packet, addr: u32) -> Packet
    ensures value { result ≡ to packet.now addr }
    ensures fits { IsPacket result }
{
    packet_by(addr, packet.src.0, packet.iif, packet.mark)
}

/// Sets the flag at the place, if there is a place.
fn mark(flags: &mut Vec<bool>, place: Option<usize>)
    requires { IfSome place (λ place. place < length flags.old.items) }
    ensures flags { flags.new.items ≡ mark_at flags.old.items place }
    ensures len { length flags.new.items ≡ length flags.old.items }
{
    if let Some(place) = place {
        flags[place] = true;
    }
}

/// Marks the rule that decides the packet, and the route that it gets.
fn mark_packet(used: &mut Used, version: &Version, routes: &[Route], packet: &Packet)
    requires routes { routes.now ≡ version.now.routes }
    requires rule_flags { length used.old.rules.items ≡ length version.now.rules }
    requires route_flags { length used.old.routes.items ≡ length version.now.routes }
    ensures rules { used.new.rules.items ≡ mark_at used.old.rules.items (rule_place version.now packet.now) }
    ensures routes { used.new.routes.items ≡ mark_at used.old.routes.items (route_place version.now packet.now) }
    ensures rule_flags { length used.new.rules.items ≡ length version.now.rules }
    ensures route_flags { length used.new.routes.items ≡ length version.now.routes }
{
    let verdict = version.select(packet).verdict;
    let rule = places::rule_place(version, packet, &verdict);
    let route = places::route_place(version, routes, packet, &verdict);
    mark(&mut used.rules, rule);
    mark(&mut used.routes, route);
}

/// Marks the rules that decide the packet at these destinations, and the routes that it gets there.
fn mark_class(used: &mut Used, version: &Version, routes: &[Route], starts: &[u32], class: &Packet)
    requires routes { routes.now ≡ version.now.routes }
    requires rule_flags { length used.old.rules.items ≡ length version.now.rules }
    requires route_flags { length used.old.routes.items ≡ length version.now.routes }
    ensures rules { used.new.rules.items ≡ marked (rule_place version.now) used.old.rules.items (packets_to starts.now class.now) }
    ensures routes { used.new.routes.items ≡ marked (route_place version.now) used.old.routes.items (packets_to starts.now class.now) }
    ensures rule_flags { length used.new.rules.items ≡ length version.now.rules }
    ensures route_flags { length used.new.routes.items ≡ length version.now.routes }
    ensures packets { Each IsPacket (packets_to starts.now class.now) }
{
    for start in starts {
        mark_packet(used, version, routes, &to(class, *start));
    }
}

/// Marks the rules that decide packets of these classes at these destinations, and the routes that the packets get.
fn mark_classes(
    used: &mut Used,
    version: &Version,
    routes: &[Route],
    starts: &[u32],
    classes: &[Packet],
)
    requires routes { routes.now ≡ version.now.routes }
    requires rule_flags { length used.old.rules.items ≡ length version.now.rules }
    requires route_flags { length used.old.routes.items ≡ length version.now.routes }
    ensures rules { used.new.rules.items ≡ marked (rule_place version.now) used.old.rules.items (all_packets starts.now classes.now) }
    ensures routes { used.new.routes.items ≡ marked (route_place version.now) used.old.routes.items (all_packets starts.now classes.now) }
    ensures packets { Each IsPacket (all_packets starts.now classes.now) }
{
    for class in classes {
        mark_class(used, version, routes, starts, class);
    }
}

/// Makes for each rule a flag that isn't set.
fn rule_flags(alloc: Global, rules: &[Rule]) -> Result<Vec<bool>, AllocError>
    ensures { IfOk result (λ flags. flags.items ≡ map (λ rule. false) rules.now) }
{
    rules.iter().map(|_| false).collect(alloc)
}

/// Makes for each route a flag that isn't set.
fn route_flags(alloc: Global, routes: &[Route]) -> Result<Vec<bool>, AllocError>
    ensures { IfOk result (λ flags. flags.items ≡ map (λ route. false) routes.now) }
{
    routes.iter().map(|_| false).collect(alloc)
}

/// Finds for each rule whether it decides a packet of these classes at these destinations, and for each route whether such a
/// packet gets it. The routes are those of the version.
pub(crate) fn used_by(
    alloc: Global,
    version: &Version,
    routes: &[Route],
    starts: &[u32],
    classes: &[Packet],
) -> Result<Used, AllocError>
    requires routes { routes.now ≡ version.now.routes }
    requires starts { AreStarts (destination_cuts version.now) starts.now }
    requires classes { AreClasses version.now.rules classes.now }
    ensures { IfOk result (IsUse version.now (all_packets starts.now classes.now)) }
{
    let rules = rule_flags(alloc, version.rules())?;
    let flags = route_flags(alloc, routes)?;
    let mut used = Used {
        rules,
        routes: flags,
    };
    mark_classes(&mut used, version, routes, starts, classes);
    Ok(used)
}
