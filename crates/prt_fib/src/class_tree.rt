//! Which class a packet is of, whatever its destination.
ghost use Rattle.std.specs.Prelude.{◌≡◌, ◌<◌, IfOk, filter, length, map, not};
ghost use Rattle.prt_partition.specs.Classes.{takes_apart};
ghost use Rattle.prt_fib.specs.Policy.{FindsClass, class_of, is_left, is_taken};

use prt_partition::takes_apart;
use prt_rule::{Packet, Rule};
use std::alloc::{AllocError, Global};

/// A packet that represents its class, and the number of the class.
#[derive(Clone, Copy)]
pub(crate) struct Class {
    pub(crate) number: usize,
    pub(crate) packet: Packet,
}

/// Questions that lead to the class of a packet.
#[derive(Drop)]
pub(crate) enum ClassTree {
    /// The packet is of the class of this number.
    Class(usize),
    /// The first tree knows the classes that the rule takes, and the second one the others.
    Split(Rule, Box<ClassTree>, Box<ClassTree>),
}

/// Finds the number of the packet's class. It takes no memory.
pub(crate) fn class_of(tree: &ClassTree, packet: &Packet) -> usize
    ensures { result ≡ class_of tree.now packet.now }
{
    match tree {
        ClassTree::Class(number) => *number,
        ClassTree::Split(rule, taken, left) => {
            if takes_apart(rule, packet) {
                class_of(taken, packet)
            } else {
                class_of(left, packet)
            }
        }
    }
}

/// Collects the classes that the rule takes.
fn taken_by(alloc: Global, rule: &Rule, classes: &[Class]) -> Result<Vec<Class>, AllocError>
    ensures { IfOk result (λ taken. taken.items ≡ filter (is_taken rule.now) classes.now) }
{
    classes
        .iter()
        .filter(|class| takes_apart(rule, &class.packet))
        .copied()
        .collect(alloc)
}

/// Collects the classes that the rule doesn't take.
fn left_by(alloc: Global, rule: &Rule, classes: &[Class]) -> Result<Vec<Class>, AllocError>
    ensures { IfOk result (λ left. left.items ≡ filter (is_left rule.now) classes.now) }
{
    classes
        .iter()
        .filter(|class| !takes_apart(rule, &class.packet))
        .copied()
        .collect(alloc)
}

/// Makes the tree of some classes by these rules. It is at most as deep as there are classes.
///
/// It calls itself for each half that a rule makes, at most as deep as there are rules.
pub(crate) fn tree_of(
    alloc: Global,
    rules: &[Rule],
    classes: &[Class],
) -> Result<ClassTree, AllocError>
    requires { 0 < length classes.now }
    ensures { IfOk result (FindsClass rules.now classes.now) }
{
    let Some((rule, rest)) = rules.split_first() else {
        return Ok(ClassTree::Class(classes[0].number));
    };
    if classes.len() == 1 {
        return Ok(ClassTree::Class(classes[0].number));
    }
    let taken = taken_by(alloc, rule, classes)?;
    let left = left_by(alloc, rule, classes)?;
    if taken.is_empty() || left.is_empty() {
        return tree_of(alloc, rest, classes);
    }
    let taken = tree_of(alloc, rest, &taken)?;
    let left = tree_of(alloc, rest, &left)?;
    Ok(ClassTree::Split(*rule, Box::new(alloc, taken)?, Box::new(alloc, left)?))
}
