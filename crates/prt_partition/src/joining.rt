//! Classes that every rule takes alike, joined into one.
ghost use Rattle.std.specs.Prelude.{◌≡◌, ◌++◌, ◌∷◌, [], IfOk, OnOk, filter, not};
ghost use Rattle.std.specs.List.{IsDistinct};
ghost use Rattle.prt_rule.specs.Rule.{takes_interface, takes_mark};
ghost use Rattle.prt_partition.specs.Classes.{AreClasses, are_alike, joined, takes_apart};

use prt_route::Dev;
use prt_rule::{Mark, Packet, Rule};
use std::alloc::{AllocError, Global};

/// Checks whether the interface is the one that is given, if one is.
fn takes_interface(given: &Option<Dev>, iif: &Dev) -> bool
    ensures { result ≡ takes_interface given.now iif.now }
{
    match given {
        Some(dev) => dev.as_bytes() == iif.as_bytes(),
        None => true,
    }
}

/// Checks whether the marks agree in the bits of the mask, if a mark is given.
pub(crate) fn takes_mark(given: &Option<Mark>, mark: u32) -> bool
    ensures { result ≡ takes_mark given.now mark }
{
    match given {
        Some(given) => (given.mark ^ mark) & given.mask == 0,
        None => true,
    }
}

/// Checks whether the rule's selector takes the packet, if its destination is left out. `not` doesn't matter.
pub fn takes_apart(rule: &Rule, packet: &Packet) -> bool
    ensures { result ≡ takes_apart rule.now packet.now }
{
    rule.from.contains(packet.src)
        && takes_interface(&rule.iif, &packet.iif)
        && takes_mark(&rule.mark, packet.mark)
}

/// Collects the packets that the rule takes, if their destinations are left out.
fn taken(alloc: Global, rule: &Rule, packets: &[Packet]) -> Result<Vec<Packet>, AllocError>
    ensures { IfOk result (λ taken. taken.items ≡ filter (takes_apart rule.now) packets.now) }
{
    packets
        .iter()
        .filter(|packet| takes_apart(rule, packet))
        .copied()
        .collect(alloc)
}

/// Collects the packets that the rule doesn't take, if their destinations are left out.
fn left(alloc: Global, rule: &Rule, packets: &[Packet]) -> Result<Vec<Packet>, AllocError>
    ensures { IfOk result (λ left. left.items ≡ filter (λ packet. not (takes_apart rule.now packet)) packets.now) }
{
    packets
        .iter()
        .filter(|packet| !takes_apart(rule, packet))
        .copied()
        .collect(alloc)
}

/// Appends the packet.
fn keep(classes: &mut Vec<Packet>, packet: &Packet) -> Result<(), AllocError>
    ensures { OnOk result (classes.new.items ≡ classes.old.items ++ packet.now ∷ []) }
{
    classes.push(*packet)?;
    Ok(())
}

/// Appends one of the packets for each set of them that every rule takes alike.
///
/// It calls itself for each half that a rule makes, at most as deep as there are rules. It ends early at a set of one.
#[tactic(auto, using(crate::proofs::Joined::joined_none, crate::proofs::Joined::joined_one))]
fn push_joined(
    classes: &mut Vec<Packet>,
    rules: &[Rule],
    packets: &[Packet],
) -> Result<(), AllocError>
    ensures { OnOk result (classes.new.items ≡ classes.old.items ++ joined rules.now packets.now) }
{
    let Some((first, others)) = packets.split_first() else {
        return Ok(());
    };
    let Some((rule, rest)) = rules.split_first() else {
        return keep(classes, first);
    };
    if others.is_empty() {
        return keep(classes, first);
    }
    let alloc = *classes.allocator();
    push_joined(classes, rest, &taken(alloc, rule, packets)?)?;
    push_joined(classes, rest, &left(alloc, rule, packets)?)
}

/// Leaves out each class that every rule takes as one that is kept.
pub(crate) fn join(
    alloc: Global,
    rules: &[Rule],
    classes: &[Packet],
) -> Result<Vec<Packet>, AllocError>
    requires { AreClasses rules.now classes.now }
    ensures value { IfOk result (λ joined. AreClasses rules.now joined.items) }
    ensures apart { IfOk result (λ joined. IsDistinct (are_alike rules.now) joined.items) }
{
    let mut joined = Vec::new(alloc);
    push_joined(&mut joined, rules, classes)?;
    Ok(joined)
}
