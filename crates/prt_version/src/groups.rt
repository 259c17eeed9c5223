//! Groups of tables, for versions with many: one that differs in one table copies one group, and shares the others.
ghost use Rattle.std.specs.Prelude.{◌≡◌, ◌<◌, ◌++◌, ◌∷◌, ◌+◌, length, filter, take, drop, IfOk, OnOk};
ghost use Rattle.std.specs.List.{AllByRecursion as Each};
ghost use Rattle.prt_route.specs.RouteChoice.{is_selected};
ghost use Rattle.prt_version.specs.Groups.{AreGroups, IsGroup, TableGroup, joined};
ghost use Rattle.prt_version.specs.Tables.{AreTables, HasOwnRows, all_rows, rows_of_table};

use crate::Route;
use crate::shared_table::{SharedTable, push_selected, push_shares};
use prt_route::Selector;
use std::alloc::{AllocError, Global};
use std::marker::Model;
use std::sync::Arc;

/// How many tables each new group has, except for the last: half of the most, so that many edits fit.
const TABLES_OF_GROUP: usize = 64;

/// How many tables a group has at most.
pub(crate) const MOST_OF_GROUP: usize = 2 * TABLES_OF_GROUP;

/// Tables whose numbers follow each other, which versions share until an edit of one of them.
#[derive(Drop)]
pub(crate) struct Group {
    /// The number of the first table.
    first: u32,
    tables: Arc<Vec<SharedTable>>,
}

impl Model for Group {
    ghost use Rattle.std.specs.Arc.{arc_value};
    ghost use Rattle.prt_version.specs.Groups.{TableGroup};

    ghost Value = { TableGroup };

    ghost view = { λ group. record { first = group.first; tables = (arc_value group.tables).items } };
}

impl Group {
    /// Makes a group of these tables.
    pub(crate) fn of(alloc: Global, tables: Vec<SharedTable>) -> Result<Group, AllocError>
        requires { 0 < length tables.items }
        ensures tables { IfOk result (λ group. group.tables ≡ tables.items) }
        ensures group { IfOk result IsGroup }
    {
        let first = tables[0].number;
        Ok(Group {
            first,
            tables: Arc::new(alloc, tables)?,
        })
    }

    /// Makes one more owner of the same tables.
    fn share(&self) -> Result<Group, AllocError>
        ensures { IfOk result (λ group. group ≡ self.now) }
    {
        Ok(Group {
            first: self.first,
            tables: Arc::try_clone(&self.tables)?,
        })
    }

    /// Returns its tables.
    pub(crate) fn as_slice(&self) -> &[SharedTable]
        ensures { result.now ≡ self.now.tables }
    {
        self.tables.as_slice()
    }
}

/// Makes a group of shares of these tables.
fn group_of(alloc: Global, tables: &[SharedTable]) -> Result<Group, AllocError>
    requires { 0 < length tables.now }
    ensures tables { IfOk result (λ group. group.tables ≡ tables.now) }
    ensures group { IfOk result IsGroup }
{
    let mut own = Vec::with_capacity(alloc, tables.len())?;
    push_shares(&mut own, tables)?;
    Group::of(alloc, own)
}

/// Makes groups of the tables.
pub(crate) fn groups_of(alloc: Global, tables: &[SharedTable]) -> Result<Vec<Group>, AllocError>
    ensures whole { IfOk result (λ groups. joined groups.items ≡ tables.now) }
    ensures each { IfOk result (λ groups. Each IsGroup groups.items) }
{
    let mut groups = Vec::new(alloc);
    let mut rest = tables;
    while !rest.is_empty() {
        let (own, others) = rest.split_at(rest.len().min(TABLES_OF_GROUP));
        groups.push(group_of(alloc, own)?)?;
        rest = others;
    }
    Ok(groups)
}

/// Makes one list of the tables of all groups.
pub(crate) fn all_tables(alloc: Global, groups: &[Group]) -> Result<Vec<SharedTable>, AllocError>
    ensures { IfOk result (λ tables. tables.items ≡ joined groups.now) }
{
    let mut tables = Vec::new(alloc);
    for group in groups {
        push_shares(&mut tables, group.as_slice())?;
    }
    Ok(tables)
}

/// Puts one more owner of each of these groups behind those so far.
fn push_groups(groups: &mut Vec<Group>, more: &[Group]) -> Result<(), AllocError>
    ensures { OnOk result (groups.new.items ≡ groups.old.items ++ more.now) }
{
    for group in more {
        groups.push(group.share()?)?;
    }
    Ok(())
}

/// Makes the groups of one that is new and of shares of those before and those behind it.
pub(crate) fn groups_around(
    alloc: Global,
    front: &[Group],
    group: Group,
    back: &[Group],
) -> Result<Vec<Group>, AllocError>
    ensures { IfOk result (λ groups. groups.items ≡ front.now ++ group ∷ back.now) }
{
    let mut groups = Vec::new(alloc);
    push_groups(&mut groups, front)?;
    groups.push(group)?;
    push_groups(&mut groups, back)?;
    Ok(groups)
}

/// Finds the place of the group where a table of this number is or would be.
fn group_for(groups: &[Group], number: u32) -> usize
    requires are { AreGroups groups.now }
    requires some { 0 < length groups.now }
    ensures bound { result < length groups.now }
    ensures lower { Each (λ table. table.number < number) (joined (take result groups.now)) }
    ensures higher { Each (λ table. number < table.number) (joined (drop (result + 1) groups.now)) }
{
    groups
        .partition_point(|group| group.first <= number)
        .saturating_sub(1)
}

/// Splits the groups at the one where a table of this number is or would be.
pub(crate) fn split_groups(groups: &[Group], number: u32) -> (&[Group], &Group, &[Group])
    requires are { AreGroups groups.now }
    requires some { 0 < length groups.now }
    ensures whole { result.0.now ++ result.1.now ∷ result.2.now ≡ groups.now }
    ensures lower { Each (λ table. table.number < number) (joined result.0.now) }
    ensures higher { Each (λ table. number < table.number) (joined result.2.now) }
{
    let place = group_for(groups, number);
    (&groups[..place], &groups[place], &groups[place + 1..])
}

/// Finds the tables of the group where a table of this number is or would be.
pub(crate) fn tables_for(groups: &[Group], number: u32) -> &[SharedTable]
    requires are { AreGroups groups.now }
    requires some { 0 < length groups.now }
    ensures are { AreTables result.now }
    ensures rows { rows_of_table number (all_rows result.now) ≡ rows_of_table number (all_rows (joined groups.now)) }
{
    let (_, group, _) = split_groups(groups, number);
    group.as_slice()
}

/// Puts copies of the routes of all groups that the selector takes behind the rows so far.
fn push_selected_of_all(
    rows: &mut Vec<Route>,
    groups: &[Group],
    selector: &Selector,
) -> Result<(), AllocError>
    requires { Each HasOwnRows (joined groups.now) }
    ensures { OnOk result (rows.new.items ≡ rows.old.items ++ filter (is_selected selector.now) (all_rows (joined groups.now))) }
{
    for group in groups {
        push_selected(rows, group.as_slice(), selector)?;
    }
    Ok(())
}

/// Puts copies of the routes that the selector takes behind the rows so far. If it names a table, only the group of
/// that is read.
pub(crate) fn push_selected_of(
    rows: &mut Vec<Route>,
    groups: &[Group],
    selector: &Selector,
) -> Result<(), AllocError>
    requires are { AreGroups groups.now }
    requires some { 0 < length groups.now }
    ensures { OnOk result (rows.new.items ≡ rows.old.items ++ filter (is_selected selector.now) (all_rows (joined groups.now))) }
{
    match selector.table {
        Some(number) => push_selected(rows, tables_for(groups, number), selector),
        None => push_selected_of_all(rows, groups, selector),
    }
}
