//! Which part of a rule's selector a packet doesn't agree with.
ghost use Rattle.std.specs.Prelude.{◌≡◌};
ghost use Rattle.prt_rule.specs.Rule.{takes_interface, takes_mark};
ghost use Rattle.prt_listing.specs.Steps.{part_of};
ghost use Rattle.prt_explain.specs.Explanation.{first_mismatch};

use prt_listing::{Part, Value, dev_part, mark_part};
use prt_route::Dev;
use prt_rule::{Mark, Packet, Rule};

/// Checks whether the interface is the one that is given, if one is.
fn takes_interface(given: &Option<Dev>, iif: &Dev) -> bool
    ensures { result ≡ takes_interface given.now iif.now }
{
    match given {
        Some(dev) => dev.as_bytes() == iif.as_bytes(),
        None => true,
    }
}

/// Checks whether the marks agree in the bits of the mask, if a mark is given.
fn takes_mark(given: &Option<Mark>, mark: u32) -> bool
    ensures { result ≡ takes_mark given.now mark }
{
    match given {
        Some(given) => (given.mark ^ mark) & given.mask == 0,
        None => true,
    }
}

/// Finds the first part of the rule's selector that the packet doesn't agree with, in the order of a rule's text: `from`,
/// `to`, `fwmark`, `iif`. `None` if it agrees with all of them. It doesn't look at `not`: a rule matches if there is no
/// such part, and an inverted one if there is one.
pub fn first_mismatch(rule: &Rule, packet: &Packet) -> Option<Part>
    ensures { part_of result ≡ first_mismatch rule.now packet.now }
{
    if !rule.from.contains(packet.src) {
        return Some(Part::Named("from", Value::Prefix(rule.from)));
    }
    if !rule.to.contains(packet.dst) {
        return Some(Part::Named("to", Value::Prefix(rule.to)));
    }
    if !takes_mark(&rule.mark, packet.mark) {
        return mark_part(rule.mark);
    }
    if !takes_interface(&rule.iif, &packet.iif) {
        return dev_part("iif", rule.iif);
    }
    None
}
