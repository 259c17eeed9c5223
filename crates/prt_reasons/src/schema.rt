//! Tables that have the name of one of the four and other columns.

ghost use Rattle.std.specs.Prelude.{◌↔◌, IsNone};
ghost use Rattle.prt_rows.specs.Format.{SuitsFormat2};

use crate::{DatabaseTable, Reason};
use prt_rows::{
    META_COLUMNS, ROUTE_COLUMNS, RULE_COLUMNS, SUPPRESS_COLUMNS, is_column, suits_format_2,
};
use sqlite_schema::names::same_name;
use sqlite_schema::schema::{Column, Kind, Schema, Table as Declared};

/// Checks whether the column at a place is the one of this name and type.
fn has_column(columns: &[Column], at: usize, name: &str, kind: Kind) -> bool {
    match columns.get(at) {
        Some(column) => is_column(column, name, kind),
        None => false,
    }
}

/// Names the first column that is not as wanted.
fn other_column(
    table: DatabaseTable,
    columns: &[Column],
    wanted: &[(&'static str, Kind)],
) -> Option<Reason> {
    for (at, column) in wanted.iter().enumerate() {
        if !has_column(columns, at, column.0, column.1) {
            return Some(Reason::Column(table, column.0));
        }
    }
    if columns.len() > wanted.len() {
        return Some(Reason::FurtherColumn(table, wanted.len() + 1));
    }
    None
}

/// Looks up which of the four tables has this name, in whatever case of ASCII letters.
fn table_named(name: &[u8]) -> Option<DatabaseTable> {
    if same_name(b"rule".as_slice(), name) {
        return Some(DatabaseTable::Rule);
    }
    if same_name(b"route".as_slice(), name) {
        return Some(DatabaseTable::Route);
    }
    if same_name(b"meta".as_slice(), name) {
        return Some(DatabaseTable::Meta);
    }
    if same_name(b"suppress".as_slice(), name) {
        return Some(DatabaseTable::Suppress);
    }
    None
}

/// Names the first column of a table that is not as in the table of the four that has its name.
fn column_reason(declared: &Declared) -> Option<Reason> {
    let columns = declared.columns.as_slice();
    match table_named(declared.name.as_slice())? {
        DatabaseTable::Rule => other_column(DatabaseTable::Rule, columns, &RULE_COLUMNS),
        DatabaseTable::Route => other_column(DatabaseTable::Route, columns, &ROUTE_COLUMNS),
        DatabaseTable::Meta => other_column(DatabaseTable::Meta, columns, &META_COLUMNS),
        DatabaseTable::Suppress => other_column(
            DatabaseTable::Suppress,
            columns,
            &SUPPRESS_COLUMNS,
        ),
    }
}

/// Names the first column of the tables that is not as in the table of the four that has its name.
fn first_column(tables: &[Declared]) -> Option<Reason> {
    for declared in tables {
        let reason = column_reason(declared);
        if reason.is_some() {
            return reason;
        }
    }
    None
}

/// Finds which table has the name of one of the four and other columns, keys or constraints. The first column that is
/// not as in format 2 (`FILE-FORMAT.md`) comes with it.
///
/// None if each table that has such a name is that one.
pub fn columns_reason(schema: &Schema) -> Option<Reason>
    ensures { IsNone result ↔ SuitsFormat2 schema.now }
{
    if suits_format_2(schema) {
        return None;
    }
    match first_column(schema.tables.as_slice()) {
        Some(reason) => Some(reason),
        None => Some(Reason::Keys),
    }
}
