//! Groups joined with their neighbours in sources.
ghost use Rattle.std.specs.Prelude.{◌≡◌, ◌++◌, ◌∷◌, ◌-◌, ◌<◌, [], IfOk, IfSome, OnOk, length, take};
ghost use Rattle.prt_impact.specs.Replacing.{AlwaysReplaces};
ghost use Rattle.prt_impact.specs.Steps.{follows, up_to};

use crate::group::{AddrRange, Group, push_group};
use crate::same::is_same_group;
use std::alloc::{AllocError, Global};

/// Checks whether the range begins just after the other one ends.
fn follows(range: &AddrRange, next: &AddrRange) -> bool
    ensures { result ≡ follows range.now next.now }
{
    u64::from(range.last.0) + 1 == u64::from(next.first.0)
}

/// Joins two ranges, of which the second follows the first.
fn up_to(range: &AddrRange, next: &AddrRange) -> AddrRange
    ensures { result ≡ up_to range.now next.now }
{
    AddrRange {
        first: range.first,
        last: next.last,
    }
}

/// Joins two groups if the sources of the second follow those of the first, and all else is equal.
fn join_sources(group: &Group, next: &Group) -> Option<Group>
    ensures { IfSome result (λ joined. AlwaysReplaces (group.now ∷ next.now ∷ []) (joined ∷ [])) }
{
    let moved = Group {
        from: group.from,
        ..*next
    };
    if !follows(&group.from, &next.from) || !is_same_group(&moved, group) {
        return None;
    }
    Some(Group {
        from: up_to(&group.from, &next.from),
        ..*group
    })
}

/// Joins the last of the groups with one more, if that can be done.
fn join_last(groups: &[Group], group: &Group) -> Option<Group>
    ensures some { IfSome result (λ joined. 0 < length groups.now) }
    ensures replaces { IfSome result (λ joined. AlwaysReplaces (groups.now ++ group.now ∷ []) (take (length groups.now - 1) groups.now ++ joined ∷ [])) }
{
    let Some((last, _)) = groups.split_last() else {
        return None;
    };
    join_sources(last, group)
}

/// Appends a group, joined with the last ones as long as that can be done.
fn push_joined(groups: &mut Vec<Group>, group: &Group) -> Result<(), AllocError>
    ensures { OnOk result (AlwaysReplaces (groups.old.items ++ group.now ∷ []) groups.new.items) }
{
    let mut whole = *group;
    while let Some(joined) = join_last(groups, &whole) {
        groups.truncate(groups.len().saturating_sub(1));
        whole = joined;
    }
    push_group(groups, &whole)
}

/// Joins groups whose sources follow each other, if they are next to each other in the list.
pub(crate) fn joined_sources(alloc: Global, groups: &[Group]) -> Result<Vec<Group>, AllocError>
    ensures { IfOk result (λ joined. AlwaysReplaces groups.now joined.items) }
{
    let mut joined = Vec::new(alloc);
    for group in groups {
        push_joined(&mut joined, group)?;
    }
    Ok(joined)
}
