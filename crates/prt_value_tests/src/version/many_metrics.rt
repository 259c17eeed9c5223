//! Edits of a table with thousands of routes of one prefix, which differ in their metrics, beside a plain list.
ghost use Rattle.std.specs.Prelude.{◌≡◌, IfOk};
ghost use Rattle.prt_trie.specs.Table.{IsOfTable};

use super::plain_list::{drop_key, put};
use super::random::Random;
use super::random_edits::compare;
use super::tables::{MAIN, empty_table, route, with_route};
use prt_command::{Addr, Prefix, Range, Refusal, Route, Selector};
use prt_route::{RouteChoice, RouteEdit};
use prt_trie::Table;
use std::alloc::Global;
use std::process::Abort;
use std::test::Fail;

/// 10.8.9.0
const NETWORK: u32 = 0x0a080900;

/// Puts the route into table and list.
fn put_both(table: &Table, rows: &mut Vec<Route>, new: Route) -> Result<Table, Refusal>
    requires table { IsOfTable 254 table.now }
    requires route { new.table ≡ 254 }
    ensures { IfOk result (λ table. IsOfTable 254 table) }
{
    put(rows, &new)?;
    with_route(table, new)
}

/// Puts so many routes of the network, that of the highest metric first.
fn put_metrics(table: Table, rows: &mut Vec<Route>, metrics: u32) -> Result<Table, Refusal>
    requires { IsOfTable 254 table }
    ensures { IfOk result (λ table. IsOfTable 254 table) }
{
    let mut table = table;
    for number in 0..metrics {
        table = put_both(&table, rows, route(NETWORK, 24, metrics - number))?;
    }
    Ok(table)
}

/// Makes table and list of 2,000 routes of the network and of three of other prefixes near it.
fn crowded(alloc: Global, rows: &mut Vec<Route>) -> Result<Table, Refusal>
    ensures { IfOk result (λ table. IsOfTable 254 table) }
{
    let table = empty_table(alloc)?;
    let table = put_both(&table, rows, route(0x0a080800, 23, 5))?;
    let table = put_both(&table, rows, route(0x0a080907, 32, 5))?;
    let table = put_metrics(table, rows, 2_000)?;
    put_both(&table, rows, route(0x0a080980, 25, 5))
}

/// Puts another next hop for each fifth metric up to 2,000, and compares with the list on the way.
fn replace_some(
    rt: &impl Abort,
    table: Table,
    rows: &mut Vec<Route>,
    random: &mut Random,
) -> Result<Table, Fail>
    requires { IsOfTable 254 table }
    ensures { IfOk result (λ table. IsOfTable 254 table) }
{
    let mut table = table;
    for number in 1..401u32 {
        let mut new = route(NETWORK, 24, number * 5);
        new.via = Some(Addr(number));
        table = put_both(&table, rows, new)?;
        if number % 50 == 0 {
            compare(rt, &table, rows, random)?;
        }
    }
    Ok(table)
}

/// Names the routes of the network.
fn choice() -> RouteChoice {
    RouteChoice {
        table: MAIN,
        prefix: Prefix::masked(NETWORK, 24),
        metric: None,
        kind: None,
        via: None,
        dev: None,
        src: None,
        proto: None,
        scope: None,
    }
}

/// Removes the route of the network with the lowest metric, as long as there is one, and compares with the list on the way.
fn remove_lowest(
    rt: &impl Abort,
    table: Table,
    rows: &mut Vec<Route>,
    random: &mut Random,
) -> Result<(), Fail> {
    let mut table = table;
    for metric in 1..2_001u32 {
        let key = route(NETWORK, 24, metric).key();
        assert_eq!(rt; table.choose(&choice()), Some(key));
        table = table.with_change(&RouteEdit::Remove(key))?;
        drop_key(rows, &key);
        if metric % 50 == 0 {
            compare(rt, &table, rows, random)?;
        }
    }
    assert_eq!(rt; (table.choose(&choice()), table.len()), (None, 3));
    Ok(())
}

#[test]
fn edits_of_many_metrics(rt: HostRuntime) -> Result<(), Fail> {
    let mut random = Random(0x9e3779b97f4a7c15);
    let mut rows = Vec::new(rt.alloc());
    let table = crowded(rt.alloc(), &mut rows)?;
    assert_eq!(rt; table.len(), 2_003);
    let table = replace_some(&rt, table, &mut rows, &mut random)?;
    assert_eq!(rt; table.len(), 2_003);
    remove_lowest(&rt, table, &mut rows, &mut random)
}

#[test]
fn a_flush_of_many_metrics(rt: HostRuntime) -> Result<(), Fail> {
    let mut random = Random(0x2545f4914f6cdd1d);
    let mut rows = Vec::new(rt.alloc());
    let table = crowded(rt.alloc(), &mut rows)?;
    let network = Prefix::masked(NETWORK, 24);
    let flush = RouteEdit::Flush(Selector {
        table: None,
        range: Range::Exact(network),
        kind: None,
        proto: None,
        scope: None,
        dev: None,
    });
    let left = table.with_change(&flush)?;
    rows.retain(|row| row.prefix != network);
    assert_eq!(rt; rows.len(), 3);
    compare(&rt, &left, &rows, &mut random)?;
    assert_eq!(rt; table.len(), 2_003, "the table before is as it was");
    Ok(())
}
