//! Tables of routes and trees: what each public call answers, and the best route as a comparison of all finds it.
ghost use Rattle.std.specs.Prelude.{◌≡◌, ◌≤◌, IfOk};
ghost use Rattle.prt_trie.specs.Table.{IsOfTable};

use super::random::Random;
use prt_command::{Addr, Kind, Prefix, Refusal, Route};
use prt_route::{RouteChoice, RouteEdit};
use prt_trie::{Table, Tree};
use std::alloc::Global;
use std::process::Abort;
use std::test::Fail;

pub const MAIN: u32 = 254;

pub fn route(bits: u32, len: u8, metric: u32) -> Route
    requires { len ≤ 32 }
    ensures { result.table ≡ 254 }
{
    Route {
        table: MAIN,
        prefix: Prefix::masked(bits, len),
        metric,
        kind: Kind::Unicast,
        via: Some(Addr(bits)),
        dev: None,
        src: None,
        proto: 3,
        scope: 0,
    }
}

/// Returns a table with one more route of main.
pub fn with_route(table: &Table, route: Route) -> Result<Table, Refusal>
    requires table { IsOfTable 254 table.now }
    requires route { route.table ≡ 254 }
    ensures { IfOk result (λ table. IsOfTable 254 table) }
{
    let after = table.with_change(&RouteEdit::Put(route))?;
    Ok(after)
}

/// Makes a table of main with no routes.
pub fn empty_table(alloc: Global) -> Result<Table, Refusal>
    ensures { IfOk result (λ table. IsOfTable 254 table) }
{
    let table = Table::build(alloc, &[])?;
    Ok(table)
}

/// Which addresses the prefixes of a random table begin near: the bits of `spread` differ from those of one of `bases`.
#[derive(Clone, Copy)]
struct Area<'a> {
    bases: &'a [u32],
    spread: u32,
}

/// Makes a prefix of any length in the area.
fn random_prefix(random: &mut Random, area: Area<'_>) -> Prefix {
    let roll = (random.next() as usize).checked_rem(area.bases.len());
    let base = match area.bases.get(roll.unwrap_or(0)) {
        Some(base) => *base,
        None => 0,
    };
    let len = (random.next() % 33) as u8;
    Prefix::masked(base ^ (random.next() & area.spread), len)
}

/// Makes a table of up to so many routes of main with prefixes in the area, of three metrics.
fn random_table(
    alloc: Global,
    random: &mut Random,
    area: Area<'_>,
    count: u32,
) -> Result<Table, Refusal>
    ensures { IfOk result (λ table. IsOfTable 254 table) }
{
    let mut table = empty_table(alloc)?;
    for _ in 0..count {
        let prefix = random_prefix(random, area);
        let mut new = route(0, 0, random.next() % 3);
        new.prefix = prefix;
        table = with_route(&table, new)?;
    }
    Ok(table)
}

/// Finds the best of the rows by comparing each with each.
fn best_by_scan(rows: &[Route], addr: Addr) -> Option<Route> {
    let mut best: Option<Route> = None;
    for row in rows {
        if row.prefix.contains(addr) {
            best = match best {
                Some(kept) if !row.better(&kept) => Some(kept),
                _ => Some(*row),
            };
        }
    }
    best
}

/// Compares the three ways to find the best route for the address.
fn compare(rt: &impl Abort, rows: &[Route], tree: &Tree, table: &Table, addr: u32) {
    let addr = Addr(addr);
    let expected = best_by_scan(rows, addr);
    assert!(rt;
        tree.find(addr).copied() == expected,
        "tree: {addr:?} among {rows:?}"
    );
    assert!(rt;
        table.find(addr).copied() == expected,
        "table: {addr:?} among {rows:?}"
    );
}

/// Makes a table of a default route, and of routes of the octets 10, 11 and 255.
pub fn small_table(alloc: Global) -> Result<Table, Refusal>
    ensures { IfOk result (λ table. IsOfTable 254 table) }
{
    let table = empty_table(alloc)?;
    let table = with_route(&table, route(0x0b000000, 8, 5))?;
    let table = with_route(&table, route(0x0a010000, 16, 7))?;
    let table = with_route(&table, route(0x0a010000, 16, 3))?;
    let table = with_route(&table, route(0xffffffff, 32, 0))?;
    with_route(&table, route(0, 0, 0))
}

#[test]
fn each_call_answers(rt: HostRuntime) -> Result<(), Fail> {
    let table = small_table(rt.alloc())?;
    let rows = table.rows()?;
    let tree = Tree::build(rt.alloc(), &rows)?;
    let built = Table::build(rt.alloc(), &rows)?;
    assert!(rt; built.rows()? == rows);
    assert_eq!(rt; (tree.len(), built.len(), rows.len()), (5, 5, 5));
    let choice = RouteChoice {
        table: MAIN,
        prefix: Prefix::masked(0x0a010000, 16),
        metric: None,
        kind: None,
        via: None,
        dev: None,
        src: None,
        proto: None,
        scope: None,
    };
    let key = route(0x0a010000, 16, 3).key();
    assert_eq!(rt;
        (tree.choose(&choice), built.choose(&choice)),
        (Some(key), Some(key))
    );
    assert!(rt; tree.holds(&key) && built.holds(&key));
    let after = built.with_change(&RouteEdit::Remove(key))?;
    assert!(rt; !after.holds(&key));
    assert!(rt; built.holds(&key), "the table before is as it was");
    assert_eq!(rt; after.len(), 4);
    Ok(())
}

/// Compares what tree and table find at both ends of each prefix, and beside them, with a scan of all rows.
fn compare_ends(rt: &impl Abort, alloc: Global, table: &Table) -> Result<(), Fail> {
    let rows = table.rows()?;
    let tree = Tree::build(alloc, &rows)?;
    assert!(rt; tree.rows()? == rows);
    for row in &rows {
        let first = row.prefix.bits();
        let host_bits = u32::MAX.checked_shr(u32::from(row.prefix.len()));
        let last = first | host_bits.unwrap_or(0);
        compare(rt, &rows, &tree, table, first);
        compare(rt, &rows, &tree, table, last);
        compare(rt, &rows, &tree, table, first.wrapping_sub(1));
        compare(rt, &rows, &tree, table, last.wrapping_add(1));
    }
    Ok(())
}

#[test]
fn random_tables(rt: HostRuntime) -> Result<(), Fail> {
    // Prefixes of few octets, so that many of a table's lie in one another.
    let area = Area {
        bases: &[0x0a000000, 0x0a0a0a00, 0x0b000000, 0xffffffff, 0],
        spread: 0x00810103,
    };
    let mut random = Random(0x9e3779b97f4a7c15);
    for _ in 0..20_000 {
        let table = random_table(rt.alloc(), &mut random, area, 8)?;
        compare_ends(&rt, rt.alloc(), &table)?;
    }
    Ok(())
}

#[test]
fn random_tables_of_one_octet(rt: HostRuntime) -> Result<(), Fail> {
    let area = Area {
        bases: &[0x0a000000],
        spread: 0x00c7c1c3,
    };
    let mut random = Random(0x2545f4914f6cdd1d);
    for count in [20, 60, 200, 2_000] {
        for _ in 0..4_000 / count {
            let table = random_table(rt.alloc(), &mut random, area, count)?;
            compare_ends(&rt, rt.alloc(), &table)?;
        }
    }
    Ok(())
}

/// Removes all rows of the table, one after the other, and compares what is left with a scan on the way.
fn empty_again(rt: &impl Abort, alloc: Global, table: Table) -> Result<(), Fail> {
    let rows = table.rows()?;
    let mut left = table;
    for row in &rows {
        left = left.with_change(&RouteEdit::Remove(row.key()))?;
        if left.len() == 300 || left.len() == 30 {
            compare_ends(rt, alloc, &left)?;
        }
    }
    assert_eq!(rt; left.len(), 0);
    Ok(())
}

#[test]
fn random_tables_of_one_network(rt: HostRuntime) -> Result<(), Fail> {
    // A gateway's clients, in one block of 16 bits: more routes than one leaf has.
    let area = Area {
        bases: &[0x0a080000],
        spread: 0x0000ffff,
    };
    let mut random = Random(0x853c49e6748fea9b);
    let table = random_table(rt.alloc(), &mut random, area, 2_000)?;
    assert!(rt; table.len() > 800);
    compare_ends(&rt, rt.alloc(), &table)?;
    empty_again(&rt, rt.alloc(), table)
}
