//! What tables share with those before an edit, and versions with those before a command.

use super::script::{next_version, version_after};
use super::tables::{MAIN, route, small_table, with_route};
use prt_command::{Prefix, Range, Selector};
use prt_route::{RouteEdit, RouteKey};
use prt_trie::Table;
use prt_version::Version;
use std::alloc::{AllocError, Global};
use std::sync::Arc;
use std::test::Fail;

/// Selects all routes of main with prefixes in this one.
fn all_within(prefix: Prefix) -> Selector {
    Selector {
        table: Some(MAIN),
        range: Range::Root(prefix),
        kind: None,
        proto: None,
        scope: None,
        dev: None,
    }
}

/// Lists how many owners each piece has. Those without routes are one piece, which has an owner for each of their places.
fn owners_of(alloc: Global, table: &Table) -> Result<Vec<usize>, AllocError> {
    table
        .pieces()
        .iter()
        .map(|piece| Arc::strong_count(piece))
        .collect(alloc)
}

/// Counts the pieces that have more owners than they had: those that another table has got too.
fn count_shared(table: &Table, owners: &[usize]) -> usize {
    table
        .pieces()
        .iter()
        .zip(owners)
        .filter(|(piece, owners)| Arc::strong_count(piece) > **owners)
        .count()
}

#[test]
fn edits_share_the_other_pieces(rt: HostRuntime) -> Result<(), Fail> {
    let table = small_table(rt.alloc())?;
    let owners = owners_of(rt.alloc(), &table)?;
    let put = with_route(&table, route(0x0a020000, 16, 0))?;
    assert_eq!(rt; count_shared(&table, &owners), 256);
    drop(put);
    let default = RouteKey {
        table: MAIN,
        prefix: Prefix::masked(0, 0),
        metric: 0,
    };
    let removed = table.with_change(&RouteEdit::Remove(default))?;
    assert_eq!(rt; count_shared(&table, &owners), 256);
    drop(removed);
    let flushed = table.with_change(&RouteEdit::Flush(all_within(Prefix::masked(0x0a000000, 7))))?;
    assert_eq!(rt; count_shared(&table, &owners), 255);
    assert_eq!(rt; (table.len(), flushed.len()), (5, 2));
    drop(flushed);
    let same = table.with_change(&RouteEdit::Flush(all_within(Prefix::masked(0x0c000000, 8))))?;
    assert_eq!(rt; count_shared(&table, &owners), 257);
    assert_eq!(rt; same.len(), 5);
    Ok(())
}

/// Counts the owners of the table of this number; 0 if there is no such table.
fn table_owners(version: &Version, number: u32) -> usize {
    match version.shared_routes().shared_table(number) {
        Some(table) => Arc::strong_count(table),
        None => 0,
    }
}

/// Counts the owners of the rules.
fn rule_owners(version: &Version) -> usize {
    Arc::strong_count(version.shared_rules())
}

/// Counts the owners of all tables together.
fn route_owners(version: &Version) -> usize {
    Arc::strong_count(version.shared_routes())
}

#[test]
fn shares_what_stays(rt: HostRuntime) -> Result<(), Fail> {
    let version = version_after(
        rt.alloc(),
        "route add 10/8 dev a table 7\nroute add 10/8 dev a\nroute add 10/8 dev a table 100",
    )?;
    let after_route = next_version(&version, "route add 11/8 dev a table 100")?;
    assert_eq!(rt;
        (
            table_owners(&after_route, 7),
            table_owners(&after_route, 100),
            table_owners(&after_route, 254)
        ),
        (2, 1, 2)
    );
    assert_eq!(rt; (rule_owners(&after_route), route_owners(&version)), (2, 1));
    let after_rule = next_version(&version, "rule flush")?;
    assert_eq!(rt;
        (rule_owners(&after_rule), route_owners(&after_rule)),
        (1, 2)
    );
    Ok(())
}
