//! The routes of a version, in one table for each number that has any.
ghost use Rattle.std.specs.Prelude.{◌≡◌, ◌≤◌, [], ◌++◌, length, filter, true, unwrap_or, IfOk, IfSome, OnOk, option_map};
ghost use Rattle.std.specs.Arc.{arc_value};
ghost use Rattle.std.specs.Option.{option_copied};
ghost use Rattle.prt_addr.specs.Rising.{IsRising};
ghost use Rattle.prt_route.specs.Best.{best};
ghost use Rattle.prt_route.specs.Edit.{after_edit, has_key};
ghost use Rattle.prt_route.specs.Route.{is_listed_before, key_of};
ghost use Rattle.prt_route.specs.RouteChoice.{chosen_route, is_selected};
ghost use Rattle.prt_version.specs.Shape.{IsShape, tables_of};
ghost use Rattle.prt_version.specs.Tables.{AreTables, all_rows, rows_of_table};

use crate::groups::{
    Group, MOST_OF_GROUP, all_tables, groups_around, groups_of, push_selected_of, split_groups,
    tables_for,
};
use crate::shared_table::{
    SharedTable, count_rows, find_table, named_table, push_selected, tables_of_rows, tables_with,
};
use crate::{MOST_ROUTES, Route};
use prt_route::{Addr, RouteChoice, RouteEdit, RouteKey, Selector};
use prt_trie::Table;
use std::alloc::{AllocError, Global};
use std::marker::Model;
use std::sync::Arc;

/// How many tables are in one list at most.
const MOST_OF_LIST: usize = 64;

/// Few tables in one list, and many in groups, so that an edit of one table copies few of them.
#[derive(Drop)]
enum Shape {
    Few(Vec<SharedTable>),
    Many(Vec<Group>),
}

/// The routes in the order of listings: each table's rows, by the tables' numbers.
#[derive(Drop)]
pub struct Tables {
    shape: Shape,
    len: usize,
}

impl Model for Tables {
    ghost use Rattle.std.specs.Prelude.{List};
    ghost use Rattle.prt_route.specs.declared.route.Route.{Route as Row};
    ghost use Rattle.prt_version.specs.Shape.{AreWhole, tables_of};
    ghost use Rattle.prt_version.specs.Tables.{all_rows};

    ghost Value = { List Row };

    ghost view = { λ it. all_rows (tables_of it.shape) };

    ghost invariant = { λ it. AreWhole it.shape it.len };
}

/// Leaves few tables in their list, and makes groups of many.
fn shape_of(tables: Vec<SharedTable>) -> Result<Shape, AllocError>
    requires { AreTables tables.items }
    ensures is { IfOk result IsShape }
    ensures tables { IfOk result (λ shape. tables_of shape ≡ tables.items) }
{
    if tables.len() <= MOST_OF_LIST {
        return Ok(Shape::Few(tables));
    }
    let groups = groups_of(*tables.allocator(), &tables)?;
    Ok(Shape::Many(groups))
}

impl Tables {
    /// Makes tables of no routes.
    pub(crate) fn new(alloc: Global) -> Tables
        ensures { result ≡ [] }
    {
        Tables {
            shape: Shape::Few(Vec::new(alloc)),
            len: 0,
        }
    }

    /// Makes the whole of these tables.
    fn from_tables(tables: Vec<SharedTable>) -> Result<Tables, AllocError>
        requires tables { AreTables tables.items }
        requires room { length (all_rows tables.items) ≤ MOST_ROUTES }
        ensures { IfOk result (λ whole. whole ≡ all_rows tables.items) }
    {
        let len = count_rows(&tables);
        let shape = shape_of(tables)?;
        Ok(Tables { shape, len })
    }

    /// Makes the tables of these rows, which are in the order of listings.
    pub(crate) fn from_sorted(alloc: Global, rows: &[Route]) -> Result<Tables, AllocError>
        requires rising { IsRising is_listed_before rows.now }
        requires room { length rows.now ≤ MOST_ROUTES }
        ensures { IfOk result (λ tables. tables ≡ rows.now) }
    {
        Tables::from_tables(tables_of_rows(alloc, rows)?)
    }

    /// Returns the allocator of the tables.
    fn allocator(&self) -> Global {
        match &self.shape {
            Shape::Few(tables) => *tables.allocator(),
            Shape::Many(groups) => *groups.allocator(),
        }
    }

    /// Finds the tables among which one of this number is, if there is one.
    fn tables_for(&self, number: u32) -> &[SharedTable]
        ensures are { AreTables result.now }
        ensures rows { rows_of_table number (all_rows result.now) ≡ rows_of_table number self.now }
    {
        match &self.shape {
            Shape::Few(tables) => tables,
            Shape::Many(groups) => tables_for(groups, number),
        }
    }

    /// Finds the table of this number, with its owners; `None` if it has no routes.
    pub fn shared_table(&self, number: u32) -> Option<&Arc<Table>>
        ensures { unwrap_or (option_map (λ table. arc_value table.now) result) [] ≡ rows_of_table number self.now }
    {
        Some(&find_table(self.tables_for(number), number)?.table)
    }

    /// Finds the table of this number, if it has routes.
    fn table(&self, number: u32) -> Option<&Table>
        ensures { unwrap_or (option_map (λ table. table.now) result) [] ≡ rows_of_table number self.now }
    {
        Some(self.shared_table(number)?)
    }

    /// Checks whether the table of this number has no routes.
    pub(crate) fn lacks(&self, number: u32) -> bool
        ensures { result ≡ true → [] ≡ rows_of_table number self.now }
    {
        self.table(number).is_none()
    }

    /// Finds the best route of the table for the address: longest match, then lowest metric (RFC 1812, section
    /// 5.2.4.3). It takes no memory.
    pub(crate) fn find(&self, table: u32, addr: Addr) -> Option<&Route>
        ensures { option_copied result ≡ best self.now table addr }
    {
        match self.table(table) {
            Some(table) => table.find(addr),
            None => None,
        }
    }

    /// Returns how many routes there are.
    pub(crate) fn len(&self) -> usize
        ensures { result ≡ length self.now }
    {
        self.len
    }

    /// Checks whether one of the routes has the key.
    pub(crate) fn holds(&self, key: &RouteKey) -> bool
        ensures { result ≡ has_key key.now self.now }
    {
        match self.table(key.table) {
            Some(table) => table.holds(key),
            None => false,
        }
    }

    /// Finds the key of the route of lowest metric among those that the choice takes (`ip-route(8)`, `delete`).
    pub(crate) fn choose(&self, choice: &RouteChoice) -> Option<RouteKey>
        ensures { result ≡ option_map key_of (chosen_route choice.now self.now) }
    {
        match self.table(choice.table) {
            Some(table) => table.choose(choice),
            None => None,
        }
    }

    /// Puts copies of the routes that the selector takes behind the rows so far.
    fn push_selected(&self, rows: &mut Vec<Route>, selector: &Selector) -> Result<(), AllocError>
        ensures { OnOk result (rows.new.items ≡ rows.old.items ++ filter (is_selected selector.now) self.now) }
    {
        match &self.shape {
            Shape::Few(tables) => push_selected(rows, tables, selector),
            Shape::Many(groups) => push_selected_of(rows, groups, selector),
        }
    }

    /// Makes a copy of the routes that the selector takes, in the order of listings (`ip-route(8)`, `show`).
    pub(crate) fn rows(&self, selector: &Selector) -> Result<Vec<Route>, AllocError>
        ensures { IfOk result (λ rows. rows.items ≡ filter (is_selected selector.now) self.now) }
    {
        let mut rows = Vec::new(self.allocator());
        self.push_selected(&mut rows, selector)?;
        Ok(rows)
    }

    /// Makes one list of all tables after the edit.
    fn list_with(&self, edit: &RouteEdit) -> Result<Vec<SharedTable>, AllocError>
        ensures are { IfOk result (λ tables. AreTables tables.items) }
        ensures rows { IfOk result (λ tables. all_rows tables.items ≡ after_edit edit.now self.now) }
    {
        match &self.shape {
            Shape::Few(tables) => tables_with(*tables.allocator(), tables, edit),
            Shape::Many(groups) => {
                let alloc = *groups.allocator();
                let tables = all_tables(alloc, groups)?;
                tables_with(alloc, &tables, edit)
            }
        }
    }

    /// Makes the routes after an edit that names one table, by its group alone. `None` if the tables aren't in groups or the
    /// group would have no tables or too many, and for an edit of all tables.
    fn with_group(&self, edit: &RouteEdit) -> Result<Option<Tables>, AllocError>
        requires { length (after_edit edit.now self.now) ≤ MOST_ROUTES }
        ensures { IfOk result (λ after. IfSome after (λ after. after ≡ after_edit edit.now self.now)) }
    {
        let Shape::Many(groups) = &self.shape else {
            return Ok(None);
        };
        let Some(number) = named_table(edit) else {
            return Ok(None);
        };
        let alloc = *groups.allocator();
        let (front, group, back) = split_groups(groups, number);
        let own = group.as_slice();
        let tables = tables_with(alloc, own, edit)?;
        if tables.is_empty() {
            return Ok(None);
        }
        if tables.len() > MOST_OF_GROUP {
            return Ok(None);
        }
        let len = self.len - count_rows(own) + count_rows(&tables);
        let groups = groups_around(alloc, front, Group::of(alloc, tables)?, back)?;
        Ok(Some(Tables {
            shape: Shape::Many(groups),
            len,
        }))
    }

    /// Makes the routes after the edit, in tables that are shared except for those that it changes. These stay as they
    /// are.
    pub(crate) fn with_edit(&self, edit: &RouteEdit) -> Result<Tables, AllocError>
        requires { length (after_edit edit.now self.now) ≤ MOST_ROUTES }
        ensures { IfOk result (λ after. after ≡ after_edit edit.now self.now) }
    {
        if let Some(tables) = self.with_group(edit)? {
            return Ok(tables);
        }
        Tables::from_tables(self.list_with(edit)?)
    }
}
