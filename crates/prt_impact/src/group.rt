//! Groups of packets that a change sends another way, as people read them.
ghost use Rattle.std.specs.Prelude.{◌≡◌, ◌++◌, ◌∷◌, [], OnOk};

use crate::mark_set::MarkSet;
use prt_addr::Addr;
use prt_route::Dev;
use prt_version::Verdict;
use std::alloc::AllocError;

/// A range of addresses. Both ends belong to it.
#[derive(Clone, Copy, Debug, PartialEq, Eq)]
pub struct AddrRange {
    /// The first address.
    pub first: Addr,
    /// The last address.
    pub last: Addr,
}

/// Interfaces that packets come in by.
#[derive(Clone, Copy, Debug, PartialEq, Eq)]
pub enum InterfaceSet {
    /// The one of this name.
    Named(Dev),
    /// All that no rule of the two versions names.
    AllOthers,
    /// All that there are.
    All,
}

/// Packets that all have one verdict before a change and another one after it.
#[derive(Clone, Copy)]
pub struct Group {
    /// Their destinations.
    pub to: AddrRange,
    /// Their sources.
    pub from: AddrRange,
    /// The interfaces that they come in by.
    pub interfaces: InterfaceSet,
    /// Their marks.
    pub marks: MarkSet,
    /// What becomes of them before.
    pub was: Verdict,
    /// What becomes of them after.
    pub is: Verdict,
}

/// Appends a group.
pub(crate) fn push_group(groups: &mut Vec<Group>, group: &Group) -> Result<(), AllocError>
    ensures { OnOk result (groups.new.items ≡ groups.old.items ++ group.now ∷ []) }
{
    groups.extend_from_slice(&[*group])
}
