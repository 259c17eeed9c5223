//! Tables under their numbers, which versions share, and lists of such tables.
ghost use Rattle.std.specs.Prelude.{◌≡◌, ◌<◌, ◌≤◌, ◌++◌, [], length, filter, nat_lt, position, unwrap_or, IfOk, OnOk, option_map};
ghost use Rattle.std.specs.List.{AllByRecursion as Each};
ghost use Rattle.prt_addr.specs.Order.{insert_by};
ghost use Rattle.prt_addr.specs.Rising.{IsRising};
ghost use Rattle.prt_route.specs.Route.{is_listed_before};
ghost use Rattle.prt_route.specs.RouteChoice.{is_selected};
ghost use Rattle.prt_trie.specs.Table.{table_of as first_table};
ghost use Rattle.prt_version.specs.Tables.{AreTables, HasOwnRows, TableRows, all_rows, has_rows, has_table, is_lower, named_table, names_table};
ghost use Rattle.prt_version.specs.Tables.{rows_of_table, table_after, tables_after, table_of, tables_with};

use crate::{MOST_ROUTES, Route};
use prt_addr::agrees;
use prt_route::{RouteEdit, Selector};
use prt_trie::Table;
use std::alloc::{AllocError, Global};
use std::marker::Model;
use std::slice;
use std::sync::Arc;

/// A table under its number, which versions share until an edit of it.
#[derive(Drop)]
pub(crate) struct SharedTable {
    pub(crate) number: u32,
    pub(crate) table: Arc<Table>,
}

impl Model for SharedTable {
    ghost use Rattle.std.specs.Arc.{arc_value};
    ghost use Rattle.prt_version.specs.Tables.{TableRows};

    ghost Value = { TableRows };

    ghost view = { λ shared. record { number = shared.number; rows = arc_value shared.table } };
}

/// Returns the number of the one table that the edit may change; `None` if it may change each.
pub(crate) fn named_table(edit: &RouteEdit) -> Option<u32>
    ensures { result ≡ named_table edit.now }
{
    match edit {
        RouteEdit::Put(route) => Some(route.table),
        RouteEdit::Remove(key) => Some(key.table),
        RouteEdit::Flush(selector) => selector.table,
    }
}

/// Checks whether the edit may change a row of the table of this number.
fn names_table(edit: &RouteEdit, number: u32) -> bool
    ensures { result ≡ names_table edit.now number }
{
    match edit {
        RouteEdit::Put(route) => route.table == number,
        RouteEdit::Remove(key) => key.table == number,
        RouteEdit::Flush(selector) => agrees(&selector.table, &number),
    }
}

impl SharedTable {
    /// Makes one more owner of the same table.
    fn share(&self) -> Result<SharedTable, AllocError>
        ensures { IfOk result (λ shared. shared ≡ self.now) }
    {
        Ok(SharedTable {
            number: self.number,
            table: Arc::try_clone(&self.table)?,
        })
    }

    /// Makes a table of these rows, under its number.
    fn with_rows(alloc: Global, number: u32, table: Table) -> Result<SharedTable, AllocError>
        ensures { IfOk result (λ shared. shared ≡ record { number = number; rows = table }) }
    {
        Ok(SharedTable {
            number,
            table: Arc::new(alloc, table)?,
        })
    }

    /// Makes the table after the edit: the same one if the edit names another.
    fn after_edit(&self, alloc: Global, edit: &RouteEdit) -> Result<SharedTable, AllocError>
        requires { HasOwnRows self.now }
        ensures { IfOk result (λ shared. shared ≡ table_after edit.now self.now) }
    {
        if !names_table(edit, self.number) {
            return self.share();
        }
        let Ok(table) = self.table.with_change(edit) else {
            return Err(AllocError);
        };
        SharedTable::with_rows(alloc, self.number, table)
    }

    /// Returns whether the table has routes.
    fn has_rows(&self) -> bool
        ensures { result ≡ has_rows self.now }
    {
        self.table.len() > 0
    }

    /// Adds the table's routes that the selector takes.
    fn add_selected(&self, rows: &mut Vec<Route>, selector: &Selector) -> Result<(), AllocError>
        requires { HasOwnRows self.now }
        ensures { OnOk result (rows.new.items ≡ rows.old.items ++ filter (is_selected selector.now) self.now.rows) }
    {
        if !agrees(&selector.table, &self.number) {
            return Ok(());
        }
        let Ok(mut part) = self.table.rows() else {
            return Err(AllocError);
        };
        part.retain(|row| selector.takes(row));
        rows.extend_from_slice(part.as_slice())?;
        Ok(())
    }
}

/// Finds the table of this number.
pub(crate) fn find_table(tables: &[SharedTable], number: u32) -> Option<&SharedTable>
    requires { AreTables tables.now }
    ensures { unwrap_or (option_map (λ table. table.now.rows) result) [] ≡ rows_of_table number (all_rows tables.now) }
{
    match tables.binary_search_by_key(&number, |table| table.number) {
        Ok(place) => Some(&tables[place]),
        Err(_) => None,
    }
}

/// Puts one more owner of each of these tables behind those so far.
pub(crate) fn push_shares(
    tables: &mut Vec<SharedTable>,
    more: &[SharedTable],
) -> Result<(), AllocError>
    ensures { OnOk result (tables.new.items ≡ tables.old.items ++ more.now) }
{
    for table in more {
        tables.push(table.share()?)?;
    }
    Ok(())
}

/// Puts copies of the routes of these tables that the selector takes behind the rows so far.
pub(crate) fn push_selected(
    rows: &mut Vec<Route>,
    tables: &[SharedTable],
    selector: &Selector,
) -> Result<(), AllocError>
    requires { Each HasOwnRows tables.now }
    ensures { OnOk result (rows.new.items ≡ rows.old.items ++ filter (is_selected selector.now) (all_rows tables.now)) }
{
    for table in tables {
        table.add_selected(rows, selector)?;
    }
    Ok(())
}

/// Checks whether there is a table of this number.
fn has_table(tables: &[SharedTable], number: u32) -> bool
    ensures { result ≡ has_table number tables.now }
{
    tables.iter().any(|table| table.number == number)
}

/// Counts how many routes the tables have.
pub(crate) fn count_rows(tables: &[SharedTable]) -> usize
    requires { length (all_rows tables.now) ≤ MOST_ROUTES }
    ensures { result ≡ length (all_rows tables.now) }
{
    let mut count = 0;
    for table in tables {
        count += table.table.len();
    }
    count
}

/// Makes the tables after the edit, except one that has no routes left.
fn tables_after(
    alloc: Global,
    tables: &[SharedTable],
    edit: &RouteEdit,
) -> Result<Vec<SharedTable>, AllocError>
    requires { AreTables tables.now }
    ensures { IfOk result (λ after. after.items ≡ tables_after edit.now tables.now) }
{
    let mut after = Vec::new(alloc);
    for table in tables {
        let table = table.after_edit(alloc, edit)?;
        if table.has_rows() {
            after.push(table)?;
        }
    }
    Ok(after)
}

/// Makes a table of these rows.
fn table_of_rows(alloc: Global, number: u32, rows: &[Route]) -> Result<SharedTable, AllocError>
    requires own { Each (λ row. row.table ≡ number) rows.now }
    requires rising { IsRising is_listed_before rows.now }
    ensures { IfOk result (λ table. table ≡ record { number = number; rows = rows.now }) }
{
    let Ok(table) = Table::from_sorted(alloc, rows) else {
        return Err(AllocError);
    };
    SharedTable::with_rows(alloc, number, table)
}

/// Makes a table of one route.
fn table_of(alloc: Global, route: &Route) -> Result<SharedTable, AllocError>
    ensures { IfOk result (λ table. table ≡ table_of route.now) }
{
    table_of_rows(alloc, route.table, slice::from_ref(route))
}

/// Finds the place of the first table whose number is higher.
fn table_above(tables: &[SharedTable], number: u32) -> Option<usize>
    ensures { result ≡ position (λ table. nat_lt number table.number) tables.now }
{
    tables.iter().position(|table| number < table.number)
}

/// Makes the tables with a new one of the route in its place.
fn with_table_of(
    alloc: Global,
    mut tables: Vec<SharedTable>,
    route: &Route,
) -> Result<Vec<SharedTable>, AllocError>
    ensures { IfOk result (λ after. after.items ≡ insert_by is_lower (table_of route.now) tables.items) }
{
    let table = table_of(alloc, route)?;
    let place = table_above(&tables, route.table).unwrap_or(tables.len());
    tables.insert(place, table)?;
    Ok(tables)
}

/// Makes all tables after the edit.
pub(crate) fn tables_with(
    alloc: Global,
    tables: &[SharedTable],
    edit: &RouteEdit,
) -> Result<Vec<SharedTable>, AllocError>
    requires { AreTables tables.now }
    ensures { IfOk result (λ after. after.items ≡ tables_with edit.now tables.now) }
{
    let after = tables_after(alloc, tables, edit)?;
    match edit {
        RouteEdit::Put(route) if !has_table(tables, route.table) => {
            with_table_of(alloc, after, route)
        }
        RouteEdit::Put(_) | RouteEdit::Remove(_) | RouteEdit::Flush(_) => Ok(after),
    }
}

/// Splits the rows of a table, which come first, from the rows after them.
fn split_table(rows: &[Route], number: u32) -> (&[Route], &[Route])
    requires rising { IsRising is_listed_before rows.now }
    requires some { 0 < length rows.now }
    requires first { first_table rows.now ≡ number }
    ensures whole { result.0.now ++ result.1.now ≡ rows.now }
    ensures own { Each (λ row. row.table ≡ number) result.0.now }
    ensures some { 0 < length result.0.now }
    ensures higher { Each (λ row. number < row.table) result.1.now }
{
    rows.split_at(rows.partition_point(|row| row.table <= number))
}

/// Makes the tables of rows in the order of listings.
pub(crate) fn tables_of_rows(alloc: Global, rows: &[Route]) -> Result<Vec<SharedTable>, AllocError>
    requires { IsRising is_listed_before rows.now }
    ensures tables { IfOk result (λ tables. AreTables tables.items) }
    ensures value { IfOk result (λ tables. all_rows tables.items ≡ rows.now) }
{
    let mut tables = Vec::new(alloc);
    let mut rest = rows;
    while let Some(first) = rest.first() {
        let (own, others) = split_table(rest, first.table);
        let table = table_of_rows(alloc, first.table, own)?;
        tables.push(table)?;
        rest = others;
    }
    Ok(tables)
}
