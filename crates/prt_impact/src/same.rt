//! Which groups are equal in every part.
ghost use Rattle.std.specs.Prelude.{◌≡◌};
ghost use Rattle.prt_impact.specs.Steps.{is_same_group, is_same_interfaces, is_same_mark, is_same_marks, is_same_range};

use crate::group::{AddrRange, Group, InterfaceSet};
use crate::mark_set::MarkSet;
use prt_partition::is_same_verdict;
use prt_rule::Mark;

/// Checks whether the ranges have the same ends.
fn is_same_range(range: &AddrRange, other: &AddrRange) -> bool
    ensures { result ≡ is_same_range range.now other.now }
{
    range.first.0 == other.first.0 && range.last.0 == other.last.0
}

/// Checks whether the interfaces are described alike.
fn is_same_interfaces(interfaces: &InterfaceSet, other: &InterfaceSet) -> bool
    ensures { result ≡ is_same_interfaces interfaces.now other.now }
{
    match (interfaces, other) {
        (InterfaceSet::Named(name), InterfaceSet::Named(other)) => {
            name.as_bytes() == other.as_bytes()
        }
        (InterfaceSet::AllOthers, InterfaceSet::AllOthers) => true,
        (InterfaceSet::All, InterfaceSet::All) => true,
        _ => false,
    }
}

/// Checks whether the marks have the same value and the same mask.
pub(crate) fn is_same_mark(mark: &Mark, other: &Mark) -> bool
    ensures { result ≡ is_same_mark mark.now other.now }
{
    mark.mark == other.mark && mark.mask == other.mask
}

/// Checks whether the sets have the same blocks in the same order, and are both inverted or neither.
fn is_same_marks(marks: &MarkSet, other: &MarkSet) -> bool
    ensures { result ≡ is_same_marks marks.now other.now }
{
    marks.inverted == other.inverted && marks.blocks.as_slice() == other.blocks.as_slice()
}

/// Checks whether the groups are equal in every part.
pub(crate) fn is_same_group(group: &Group, other: &Group) -> bool
    ensures { result ≡ is_same_group group.now other.now }
{
    is_same_range(&group.to, &other.to)
        && is_same_range(&group.from, &other.from)
        && is_same_interfaces(&group.interfaces, &other.interfaces)
        && is_same_marks(&group.marks, &other.marks)
        && is_same_verdict(&group.was, &other.was)
        && is_same_verdict(&group.is, &other.is)
}
