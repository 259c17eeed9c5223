//! Whether a file has the tables of format 2.

ghost use Rattle.std.specs.Prelude.{◌≡◌, ◌↔◌, [], ◌∷◌, Some, true, false, codes, map, IsTrue};
ghost use Rattle.sqlite_schema.specs.Names.{same_name};
ghost use Rattle.sqlite_rules.specs.Lists.{Has};
ghost use Rattle.sqlite_schema.specs.Rules.{guards};
ghost use Rattle.sqlite_schema.specs.declared.schema.Reference.{Reference as Referring};
ghost use Rattle.sqlite.specs.Table.{Table as Declared};
ghost use Rattle.prt_rows.specs.Format.{BeginsFormat2, HasFormat2, IsFormat2, SuitsFormat2, SuitsName, has_table};
ghost use Rattle.prt_rows.specs.Others.{AreNotOfRoutes, AreOthers, IsElsewhere, IsOther};
ghost use Rattle.prt_rows.specs.Tables.{format_1_alone, key_places, meta_table, no_tables, plain_table, route_key, route_table, rule_alone};
ghost use Rattle.prt_rows.specs.Tables.{rule_and_route, rule_table, strict_column, suppress_table, to_rule};

use crate::column::{META_COLUMNS, ROUTE_COLUMNS, RULE_COLUMNS, SUPPRESS_COLUMNS};
use sqlite_schema::names::same_name;
use sqlite_schema::schema::{Action, Column, Index, Kind, Reference, Schema, Table};
use sqlite_value::keys::Collation;
use sqlite_value::value::{Bytes, Value};

/// Checks whether a column has this name and type, is one of a STRICT table, and takes no NULL.
pub fn is_column(column: &Column, name: &str, kind: Kind) -> bool
    ensures { IsTrue result ↔ (column.now ≡ strict_column name.now kind) }
{
    column.name.as_slice() == name.as_bytes()
        && column.kind == kind
        && column.is_strict
        && column.not_null
        && matches!(column.default, Value::Null)
        && column.collation == Collation::Binary
}

/// Checks whether the columns have these names and types.
fn are_columns(columns: &[Column], wanted: &[(&str, Kind)]) -> bool
    ensures { IsTrue result ↔ (columns.now ≡ map (λ w. strict_column w.0.now w.1) wanted.now) }
{
    if columns.len() != wanted.len() {
        return false;
    }
    for at in 0..columns.len() {
        let (name, kind) = wanted[at];
        if !is_column(&columns[at], name, kind) {
            return false;
        }
    }
    true
}

/// Checks whether the table declares nothing except its name, columns, keys and references.
fn is_unchecked(table: &Table) -> bool
    ensures { IsTrue result ↔ (table.now
        ≡ record table.now { checks = []; computed = []; stamps = record { places = []; terms = []; formats = [] }; is_counted = false }) }
{
    table.checks.roots.is_empty()
        && table.computed.is_empty()
        && table.stamps.places.is_empty()
        && table.stamps.terms.roots.is_empty()
        && table.stamps.formats.is_empty()
        && !table.is_counted
}

/// Checks whether the table declares nothing except its name, columns and keys.
fn is_plain(table: &Table) -> bool
    ensures { IsTrue result ↔ (table.now
        ≡ record table.now {
          checks = [];
          references = [];
          computed = [];
          stamps =
              record { places = []; terms = []; formats = [] };
          is_counted = false;
        }) }
{
    table.references.is_empty() && is_unchecked(table)
}

/// Checks whether the name is that of the column `id`.
fn is_id(name: &Bytes) -> bool
    ensures { IsTrue result ↔ (name.now ≡ codes "id") }
{
    name.as_slice() == b"id".as_slice()
}

/// Checks whether the names are that of the column `id` alone.
fn are_id_alone(names: &[Bytes]) -> bool
    ensures { IsTrue result ↔ (names.now ≡ codes "id" ∷ []) }
{
    match names {
        [name] => is_id(name),
        _ => false,
    }
}

/// Checks whether the reference is that of a row of `suppress` to the rule that it goes with.
fn is_to_rule(reference: &Reference) -> bool
    ensures { IsTrue result ↔ (reference.now ≡ to_rule) }
{
    reference.columns.as_slice() == [0usize].as_slice()
        && reference.parent.as_slice() == b"rule".as_slice()
        && are_id_alone(reference.parent_columns.as_slice())
        && reference.on_delete == Action::Cascade
        && reference.on_update == Action::NoAction
        && !reference.is_deferred
}

/// Checks whether the only reference of the table is that one.
fn refers_to_rule(table: &Table) -> bool
    ensures { IsTrue result ↔ (table.now ≡ record table.now { references = to_rule ∷ [] }) }
{
    match table.references.as_slice() {
        [reference] => is_to_rule(reference),
        _ => false,
    }
}

/// Checks whether the primary key of the table is its first column, and it has no other key.
fn is_keyed_by_first(table: &Table) -> bool
    ensures { IsTrue result ↔ (table.now ≡ record table.now { key = Some 0; primary = 0 ∷ []; uniques = []; orders = [] }) }
{
    table.key == Some(0)
        && table.primary.as_slice() == [0usize].as_slice()
        && table.uniques.is_empty()
        && table.orders.is_empty()
}

/// Checks whether the table is a plain one of this name and these columns.
fn is_table_by_id(table: &Table, name: &str, columns: &[(&str, Kind)]) -> bool
    ensures { IsTrue result ↔ (table.now ≡ plain_table name.now table.now.tree (map (λ w. strict_column w.0.now w.1) columns.now)) }
{
    table.name.as_slice() == name.as_bytes()
        && are_columns(table.columns.as_slice(), columns)
        && is_keyed_by_first(table)
        && is_plain(table)
}

/// Checks whether the table is that of rules, in whatever tree.
fn is_rule_table(table: &Table) -> bool
    ensures { IsTrue result ↔ (table.now ≡ record rule_table { tree = table.now.tree }) }
{
    is_table_by_id(table, "rule", &RULE_COLUMNS)
}

/// Checks whether the table is `meta`, in whatever tree.
fn is_meta_table(table: &Table) -> bool
    ensures { IsTrue result ↔ (table.now ≡ record meta_table { tree = table.now.tree }) }
{
    is_table_by_id(table, "meta", &META_COLUMNS)
}

/// Checks whether the table is `suppress`, in whatever tree.
fn is_suppress_table(table: &Table) -> bool
    ensures { IsTrue result ↔ (table.now ≡ record suppress_table { tree = table.now.tree }) }
{
    table.name.as_slice() == b"suppress".as_slice()
        && are_columns(table.columns.as_slice(), &SUPPRESS_COLUMNS)
        && is_keyed_by_first(table)
        && refers_to_rule(table)
        && is_unchecked(table)
}

/// Checks whether the places are those of table, address, length and metric.
fn are_key_places(places: &[usize]) -> bool
    ensures { IsTrue result ↔ (places.now ≡ key_places) }
{
    places == [1usize, 2, 3, 4].as_slice()
}

/// Checks whether the only UNIQUE of the table is the key of routes, in the default order.
fn has_route_key(table: &Table) -> bool
    ensures { IsTrue result ↔ (table.now ≡ record table.now { uniques = key_places ∷ []; orders = (record { digits = 0 }) ∷ [] }) }
{
    match (table.uniques.as_slice(), table.orders.as_slice()) {
        ([unique], [order]) => are_key_places(unique.as_slice()) && order.digits == 0,
        _ => false,
    }
}

/// Checks whether the table is that of routes, in whatever tree.
fn is_route_table(table: &Table) -> bool
    ensures { IsTrue result ↔ (table.now ≡ record route_table { tree = table.now.tree }) }
{
    table.name.as_slice() == b"route".as_slice()
        && are_columns(table.columns.as_slice(), &ROUTE_COLUMNS)
        && table.key.is_none()
        && are_key_places(table.primary.as_slice())
        && has_route_key(table)
        && is_plain(table)
}

/// Checks whether the index is that of the key of routes, in its place.
fn is_route_index(index: &Index) -> bool
    ensures { IsTrue result ↔ (index.now ≡ route_key) }
{
    index.name.as_slice() == b"sqlite_autoindex_route_1".as_slice()
        && index.tree == 2
        && index.table == 1
        && are_key_places(index.columns.as_slice())
        && index.order.digits == 0
        && index.is_unique
}

/// Checks whether the reference names none of the four tables.
fn is_elsewhere(reference: &Reference) -> bool
    ensures { IsTrue result ↔ IsElsewhere reference.now }
{
    let parent = reference.parent.as_slice();
    !same_name(b"rule".as_slice(), parent)
        && !same_name(b"route".as_slice(), parent)
        && !same_name(b"meta".as_slice(), parent)
        && !same_name(b"suppress".as_slice(), parent)
}

/// Checks whether none of the references names one of the four tables.
fn are_elsewhere(references: &[Reference]) -> bool
    ensures { IsTrue result ↔ ((reference : Referring) → Has references.now reference → IsElsewhere reference) }
{
    for reference in references {
        if !is_elsewhere(reference) {
            return false;
        }
    }
    true
}

/// Checks whether the table is apart from the four tables, and refers to none of them.
fn is_other(table: &Table) -> bool
    ensures { IsTrue result ↔ IsOther table.now }
{
    table.tree != 0
        && table.tree != 1
        && table.tree != 3
        && table.tree != 4
        && are_elsewhere(table.references.as_slice())
}

/// Checks whether each of the tables is apart from the four tables, and refers to none of them.
fn are_others(tables: &[Table]) -> bool
    ensures { IsTrue result ↔ AreOthers tables.now }
{
    for table in tables {
        if !is_other(table) {
            return false;
        }
    }
    true
}

/// Checks whether the index is not a unique one of the table of routes.
fn is_not_of_routes(index: &Index) -> bool
    ensures { IsTrue result ↔ (guards index.now route_table ≡ false) }
{
    !(index.is_unique && index.table == 1)
}

/// Checks whether none of the indexes is a unique one of the table of routes.
fn are_not_of_routes(indexes: &[Index]) -> bool
    ensures { IsTrue result ↔ AreNotOfRoutes indexes.now }
{
    for index in indexes {
        if !is_not_of_routes(index) {
            return false;
        }
    }
    true
}

/// Checks whether the table is that of rules, in its place.
fn is_rule_in_place(table: &Table) -> bool
    ensures { IsTrue result ↔ (table.now ≡ rule_table) }
{
    table.tree == 0 && is_rule_table(table)
}

/// Checks whether the table is that of routes, in its place.
fn is_route_in_place(table: &Table) -> bool
    ensures { IsTrue result ↔ (table.now ≡ route_table) }
{
    table.tree == 1 && is_route_table(table)
}

/// Checks whether the table is `meta`, in its place.
fn is_meta_in_place(table: &Table) -> bool
    ensures { IsTrue result ↔ (table.now ≡ meta_table) }
{
    table.tree == 3 && is_meta_table(table)
}

/// Checks whether the table is `suppress`, in its place.
fn is_suppress_in_place(table: &Table) -> bool
    ensures { IsTrue result ↔ (table.now ≡ suppress_table) }
{
    table.tree == 4 && is_suppress_table(table)
}

/// Checks whether these are the first three tables and the index of the key of routes, each in its place.
fn are_first(rule: &Table, route: &Table, meta: &Table, key: &Index) -> bool
    ensures { IsTrue result ↔ ((rule.now ≡ rule_table) × (route.now ≡ route_table) × (meta.now ≡ meta_table) × (key.now ≡ route_key)) }
{
    is_rule_in_place(rule)
        && is_route_in_place(route)
        && is_meta_in_place(meta)
        && is_route_index(key)
}

/// Checks whether the first tables of the file are those of format 2 (`FILE-FORMAT.md`), as the first opening makes
/// them in an empty file. Then no other table refers to them either, and no other unique index is on the table of
/// routes.
pub fn is_format_2(schema: &Schema) -> bool
    ensures { IsTrue result ↔ IsFormat2 schema.now }
{
    let tables = schema.tables.as_slice();
    let indexes = schema.indexes.as_slice();
    if tables.len() < 4 || indexes.is_empty() {
        return false;
    }
    if !are_first(&tables[0], &tables[1], &tables[2], &indexes[0]) {
        return false;
    }
    if !is_suppress_in_place(&tables[3]) {
        return false;
    }
    if !are_others(&tables[4..]) {
        return false;
    }
    are_not_of_routes(&indexes[1..])
}

/// Checks whether the file has no tables.
fn has_no_tables(schema: &Schema) -> bool
    ensures { IsTrue result ↔ (schema.now ≡ no_tables) }
{
    schema.tables.is_empty() && schema.indexes.is_empty() && schema.views.is_empty()
}

/// Checks whether the file has the table of rules alone.
fn has_rule_alone(schema: &Schema) -> bool
    ensures { IsTrue result ↔ (schema.now ≡ rule_alone) }
{
    match schema.tables.as_slice() {
        [rule] => is_rule_in_place(rule) && schema.indexes.is_empty() && schema.views.is_empty(),
        _ => false,
    }
}

/// Checks whether the file has the tables of rules and of routes alone.
fn has_rule_and_route(schema: &Schema) -> bool
    ensures { IsTrue result ↔ (schema.now ≡ rule_and_route) }
{
    match (schema.tables.as_slice(), schema.indexes.as_slice()) {
        ([rule, route], [key]) => {
            is_rule_in_place(rule)
                && is_route_in_place(route)
                && is_route_index(key)
                && schema.views.is_empty()
        }
        _ => false,
    }
}

/// Checks whether the file has the tables of format 1 alone: rules, routes and `meta`.
fn has_format_1_alone(schema: &Schema) -> bool
    ensures { IsTrue result ↔ (schema.now ≡ format_1_alone) }
{
    match (schema.tables.as_slice(), schema.indexes.as_slice()) {
        ([rule, route, meta], [key]) => are_first(rule, route, meta, key)
            && schema.views.is_empty(),
        _ => false,
    }
}

/// Checks whether the file has no tables, those that a stopped opening of an empty file had made, or those of format 1
/// first.
pub fn begins_format_2(schema: &Schema) -> bool
    ensures { IsTrue result ↔ BeginsFormat2 schema.now }
{
    has_no_tables(schema)
        || has_rule_alone(schema)
        || has_rule_and_route(schema)
        || has_format_1_alone(schema)
        || is_format_2(schema)
}

/// Checks whether the file has a table of this name, in whatever case of ASCII letters, as SQLite compares names.
pub fn has_table(schema: &Schema, name: &str) -> bool
    ensures { result ≡ has_table name.now schema.now }
{
    schema
        .tables
        .as_slice()
        .iter()
        .any(|table| same_name(table.name.as_slice(), name.as_bytes()))
}

/// Checks whether the table is ours, or has another name than this.
fn suits(table: &Table, name: &str, is_ours: bool) -> bool
    ensures { IsTrue result ↔ (same_name name.now table.now.name ≡ true → IsTrue is_ours) }
{
    is_ours || !same_name(name.as_bytes(), table.name.as_slice())
}

/// Checks whether a table that has the name of one of the four tables is that table, in whatever tree.
fn suits_name(table: &Table) -> bool
    ensures { IsTrue result ↔ SuitsName table.now }
{
    suits(table, "rule", is_rule_table(table))
        && suits(table, "route", is_route_table(table))
        && suits(table, "meta", is_meta_table(table))
        && suits(table, "suppress", is_suppress_table(table))
}

/// Checks whether each of the tables that has the name of one of the four tables is that table.
fn suit_names(tables: &[Table]) -> bool
    ensures { IsTrue result ↔ ((table : Declared) → Has tables.now table → SuitsName table) }
{
    for table in tables {
        if !suits_name(table) {
            return false;
        }
    }
    true
}

/// Checks whether each table of the file that has the name of one of the four tables has its columns too, in whatever
/// tree. A file without tables has no other columns.
pub fn suits_format_2(schema: &Schema) -> bool
    ensures { IsTrue result ↔ SuitsFormat2 schema.now }
{
    suit_names(schema.tables.as_slice())
}

/// Checks whether the file has the four tables of format 2 (`FILE-FORMAT.md`), column by column, in whatever trees and
/// order.
pub fn has_format_2(schema: &Schema) -> bool
    ensures { IsTrue result ↔ HasFormat2 schema.now }
{
    has_table(schema, "rule")
        && has_table(schema, "route")
        && has_table(schema, "meta")
        && has_table(schema, "suppress")
        && suits_format_2(schema)
}
