//! Groups of each interface, joined into one of all interfaces.
ghost use Rattle.std.specs.Prelude.{◌≡◌, ◌++◌, ◌∷◌, ◌≤◌, ◌-◌, [], IfOk, OnOk, drop, length, map, true};
ghost use Rattle.prt_impact.specs.Replacing.{AreAll, ReplacesIfAll};
ghost use Rattle.prt_impact.specs.Steps.{with_interfaces};
ghost use Rattle.prt_impact.specs.declared.group.InterfaceSet.TheVariants.{Named};

use crate::group::{Group, InterfaceSet, push_group};
use crate::order::interfaces_cmp;
use crate::same::is_same_group;
use prt_partition::names_of;
use prt_route::Dev;
use prt_rule::Rule;
use std::alloc::{AllocError, Global};

/// Makes the set of the interface of this name.
fn named(name: &Dev) -> InterfaceSet
    ensures { result ≡ Named name.now }
{
    InterfaceSet::Named(*name)
}

/// Makes the set of each of these names.
fn all_named(alloc: Global, names: &[Dev]) -> Result<Vec<InterfaceSet>, AllocError>
    ensures { IfOk result (λ interfaces. interfaces.items ≡ map Named names.now) }
{
    names.iter().map(named).collect(alloc)
}

/// Lists the interfaces that boxes are made of, sorted.
pub(crate) fn every_interface(
    alloc: Global,
    rules: &[Rule],
) -> Result<Vec<InterfaceSet>, AllocError>
    ensures { IfOk result (λ interfaces. AreAll rules.now interfaces.items) }
{
    let names = names_of(alloc, rules)?;
    let mut interfaces = all_named(alloc, &names)?;
    interfaces.extend_from_slice(&[InterfaceSet::AllOthers])?;
    interfaces.sort_by(interfaces_cmp)?;
    Ok(interfaces)
}

/// Copies the group, with these interfaces in place of its own.
fn with_interfaces(group: &Group, interfaces: &InterfaceSet) -> Group
    ensures { result ≡ with_interfaces group.now interfaces.now }
{
    Group {
        interfaces: *interfaces,
        ..*group
    }
}

/// Checks whether the groups are those of each of these interfaces in turn, and equal in all else.
fn are_one(groups: &[Group], interfaces: &[InterfaceSet], like: &Group) -> bool
    requires { length groups.now ≡ length interfaces.now }
    ensures { result ≡ true → groups.now ≡ map (with_interfaces like.now) interfaces.now }
{
    for (i, one) in interfaces.iter().enumerate() {
        if !is_same_group(&groups[i], &with_interfaces(like, one)) {
            return false;
        }
    }
    true
}

/// Takes so many of the groups at the end.
fn last_of(groups: &[Group], count: usize) -> &[Group]
    requires { count ≤ length groups.now }
    ensures value { result.now ≡ drop (length groups.now - count) groups.now }
    ensures len { length result.now ≡ count }
{
    &groups[groups.len() - count..]
}

/// Appends a group, and makes one group of the last ones if they are those of each interface in turn.
fn push_whole(
    groups: &mut Vec<Group>,
    interfaces: &[InterfaceSet],
    group: &Group,
) -> Result<(), AllocError>
    ensures { OnOk result (ReplacesIfAll interfaces.now (groups.old.items ++ group.now ∷ []) groups.new.items) }
{
    push_group(groups, group)?;
    let len = groups.len();
    if len < interfaces.len() {
        return Ok(());
    }
    let last = last_of(groups, interfaces.len());
    if !are_one(last, interfaces, group) {
        return Ok(());
    }
    groups.truncate(len - interfaces.len());
    push_group(groups, &with_interfaces(group, &InterfaceSet::All))
}

/// Joins the groups of each interface that are next to each other in the list, in the order of the interfaces.
pub(crate) fn joined_interfaces(
    alloc: Global,
    interfaces: &[InterfaceSet],
    groups: &[Group],
) -> Result<Vec<Group>, AllocError>
    ensures { IfOk result (λ joined. ReplacesIfAll interfaces.now groups.now joined.items) }
{
    let mut joined = Vec::new(alloc);
    for group in groups {
        push_whole(&mut joined, interfaces, group)?;
    }
    Ok(joined)
}
