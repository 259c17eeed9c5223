ghost use Rattle.std.specs.Prelude.{◌≡◌};
ghost use Rattle.prt_rule.specs.Rule.{matches, selects, takes_interface, takes_mark};

use crate::{Dev, Mark, Packet, Rule};

/// Checks whether the rule matches the packet (`ip-rule(8)`).
///
/// The selector names sources, destinations, an incoming interface and a mark, and takes a packet of which all that it
/// names holds. An inverted rule matches exactly the packets that its selector does not take.
pub fn matches(rule: &Rule, packet: &Packet) -> bool
    ensures { result ≡ matches rule.now packet.now }
{
    selects(rule, packet) != rule.inverted
}

/// Checks whether all that the selector names holds of the packet.
fn selects(rule: &Rule, packet: &Packet) -> bool
    ensures { result ≡ selects rule.now packet.now }
{
    rule.from.contains(packet.src)
        && rule.to.contains(packet.dst)
        && takes_interface(&rule.iif, &packet.iif)
        && takes_mark(&rule.mark, packet.mark)
}

/// Checks whether the interface is the one that is given, if one is.
fn takes_interface(given: &Option<Dev>, iif: &Dev) -> bool
    ensures { result ≡ takes_interface given.now iif.now }
{
    match given {
        Some(dev) => dev.as_bytes() == iif.as_bytes(),
        None => true,
    }
}

/// Checks whether the marks agree in the bits of the mask, if a mark is given.
fn takes_mark(given: &Option<Mark>, mark: u32) -> bool
    ensures { result ≡ takes_mark given.now mark }
{
    match given {
        Some(given) => (given.mark ^ mark) & given.mask == 0,
        None => true,
    }
}
