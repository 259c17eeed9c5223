//! The orders that bring together the groups that may be joined.
ghost use Rattle.std.specs.Prelude.{◌≡◌};
ghost use Rattle.prt_impact.specs.Orders.{by_interface, by_place, by_source, by_verdicts, first_of, interfaces_cmp, last_of, mark_cmp, marks_cmp};
ghost use Rattle.prt_impact.specs.Orders.{name_of, place_of, priority_of, rank_of, verdict_cmp};

use crate::group::{Group, InterfaceSet};
use crate::mark_set::{MOST_BLOCKS, MarkSet, NO_MARK};
use prt_route::Dev;
use prt_rule::Mark;
use prt_version::Verdict;
use std::cmp::Ordering;

/// Finds the name, if it is one interface.
fn name_of(interfaces: &InterfaceSet) -> Option<Dev>
    ensures { result ≡ name_of interfaces.now }
{
    match interfaces {
        InterfaceSet::Named(name) => Some(*name),
        InterfaceSet::AllOthers | InterfaceSet::All => None,
    }
}

/// The order of interfaces: those without a name come first.
pub(crate) fn interfaces_cmp(interfaces: &InterfaceSet, other: &InterfaceSet) -> Ordering
    ensures { result ≡ interfaces_cmp interfaces.now other.now }
{
    let name = name_of(interfaces);
    let other_name = name_of(other);
    let bytes = name.as_ref().map(Dev::as_bytes);
    bytes.cmp(&other_name.as_ref().map(Dev::as_bytes))
}

/// The order of marks by value and mask.
pub(crate) fn mark_cmp(mark: &Mark, other: &Mark) -> Ordering
    ensures { result ≡ mark_cmp mark.now other.now }
{
    (mark.mark.cmp(&other.mark)).then(mark.mask.cmp(&other.mask))
}

/// Returns the first block, or that of all marks if there is none.
fn first_of(marks: &MarkSet) -> Mark
    ensures { result ≡ first_of marks.now }
{
    marks.blocks.as_slice().first().copied().unwrap_or(NO_MARK)
}

/// Returns the last block, or that of all marks if there is none.
fn last_of(marks: &MarkSet) -> Mark
    ensures { result ≡ last_of marks.now }
{
    marks.blocks.as_slice().last().copied().unwrap_or(NO_MARK)
}

/// Returns a number by which inverted sets come before the others, and sets of few blocks before those of more.
fn rank_of(marks: &MarkSet) -> usize
    ensures { result ≡ rank_of marks.now }
{
    let count = marks.blocks.as_slice().len();
    if marks.inverted {
        count
    } else {
        count + MOST_BLOCKS + 1
    }
}

/// The order of sets of marks. Equal ones are next to each other in it, unless other ones have as many blocks, with the same
/// first and last one.
fn marks_cmp(marks: &MarkSet, other: &MarkSet) -> Ordering
    ensures { result ≡ marks_cmp marks.now other.now }
{
    (rank_of(marks).cmp(&rank_of(other)))
        .then(mark_cmp(&first_of(marks), &first_of(other)))
        .then(mark_cmp(&last_of(marks), &last_of(other)))
}

/// Returns the priority of the rule that decides, or a number above all if none does.
fn priority_of(verdict: &Verdict) -> u64
    ensures { result ≡ priority_of verdict.now }
{
    match verdict {
        Verdict::Route(priority, _) | Verdict::RuleSays(priority, _) => u64::from(*priority),
        Verdict::NoRoute => 1 << 32,
    }
}

/// Returns the place of the route in listings, or zeros if no route decides.
fn place_of(verdict: &Verdict) -> (u32, u32, u8, u32)
    ensures { result ≡ place_of verdict.now }
{
    match verdict {
        Verdict::Route(_, route) => route.listing_key(),
        Verdict::RuleSays(_, _) | Verdict::NoRoute => (0, 0, 0, 0),
    }
}

/// The order of verdicts: by the rule and the route that decide.
fn verdict_cmp(verdict: &Verdict, other: &Verdict) -> Ordering
    ensures { result ≡ verdict_cmp verdict.now other.now }
{
    let place = place_of(verdict);
    let next = place_of(other);
    (priority_of(verdict).cmp(&priority_of(other)))
        .then(place.0.cmp(&next.0))
        .then(place.1.cmp(&next.1))
        .then(place.2.cmp(&next.2))
        .then(place.3.cmp(&next.3))
}

/// The order of groups by destinations, then by sources.
pub(crate) fn by_place(group: &Group, other: &Group) -> Ordering
    ensures { result ≡ by_place group.now other.now }
{
    (group.to.first.0.cmp(&other.to.first.0)).then(group.from.first.0.cmp(&other.from.first.0))
}

/// The order of groups by all but their marks.
pub(crate) fn by_verdicts(group: &Group, other: &Group) -> Ordering
    ensures { result ≡ by_verdicts group.now other.now }
{
    by_place(group, other)
        .then(group.to.last.0.cmp(&other.to.last.0))
        .then(interfaces_cmp(&group.interfaces, &other.interfaces))
        .then(verdict_cmp(&group.was, &other.was))
        .then(verdict_cmp(&group.is, &other.is))
}

/// The order of groups by destinations, sources, marks and interfaces.
pub(crate) fn by_interface(group: &Group, other: &Group) -> Ordering
    ensures { result ≡ by_interface group.now other.now }
{
    by_place(group, other)
        .then(marks_cmp(&group.marks, &other.marks))
        .then(interfaces_cmp(&group.interfaces, &other.interfaces))
}

/// The order of groups by destinations, interfaces, marks and sources.
pub(crate) fn by_source(group: &Group, other: &Group) -> Ordering
    ensures { result ≡ by_source group.now other.now }
{
    (group.to.first.0.cmp(&other.to.first.0))
        .then(interfaces_cmp(&group.interfaces, &other.interfaces))
        .then(marks_cmp(&group.marks, &other.marks))
        .then(group.from.first.0.cmp(&other.from.first.0))
}
