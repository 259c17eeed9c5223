//! Edits of tables whose routes lie together or apart: what each version of a table has, beside a plain list.
ghost use Rattle.std.specs.Prelude.{◌≡◌, ◌≤◌, IfOk};
ghost use Rattle.prt_trie.specs.Table.{IsOfTable};

use super::plain_list::{drop_key, put};
use super::random::Random;
use super::tables::{empty_table, route, with_route};
use prt_command::{Addr, Prefix, Route};
use prt_route::{RouteEdit, RouteKey};
use prt_trie::Table;
use std::alloc::Global;
use std::process::Abort;
use std::test::Fail;

/// Where the prefixes of a table begin, and how long they are.
#[derive(Clone, Copy)]
struct Spread {
    base: u32,
    /// The bits in which they differ.
    bits: u32,
    /// How many lengths there are, down from 32.
    lengths: u32,
}

impl Spread {
    fn prefix(&self, random: &mut Random) -> Prefix {
        let shorter = random.next().checked_rem(self.lengths);
        let len = 32u32.saturating_sub(shorter.unwrap_or(0)) as u8;
        Prefix::masked(self.base | random.next() & self.bits, len)
    }
}

/// Finds the best of the rows for the address by looking at each.
fn best_of(rows: &[Route], addr: Addr) -> Option<&Route> {
    let mut best: Option<&Route> = None;
    for row in rows {
        if row.prefix.contains(addr) && best.is_none_or(|best| row.better(best)) {
            best = Some(row);
        }
    }
    best
}

/// Compares what table and list have, and what they find for addresses near some of the rows.
pub fn compare(
    rt: &impl Abort,
    table: &Table,
    rows: &[Route],
    random: &mut Random,
) -> Result<(), Fail> {
    let all = table.rows()?;
    assert!(rt;
        all.as_slice() == rows,
        "{} rows in place of {}",
        all.len(),
        rows.len()
    );
    assert_eq!(rt; table.len(), rows.len());
    for row in rows.iter().step_by(rows.len() / 16 + 1) {
        let addr = Addr(row.prefix.bits() ^ random.next() >> (random.next() % 32));
        assert!(rt;
            table.find(addr).copied() == best_of(rows, addr).copied(),
            "{addr:?}"
        );
        assert!(rt; table.holds(&row.key()), "{row:?}");
    }
    Ok(())
}

/// Puts so many routes of three metrics, and compares each seventh version with the list.
fn fill(
    rt: &impl Abort,
    table: Table,
    rows: &mut Vec<Route>,
    spread: Spread,
    random: &mut Random,
    puts: u32,
) -> Result<Table, Fail>
    requires { IsOfTable 254 table }
    ensures { IfOk result (λ table. IsOfTable 254 table) }
{
    let mut table = table;
    for number in 0..puts {
        let mut new = route(0, 0, random.next() % 3);
        new.prefix = spread.prefix(random);
        table = with_route(&table, new)?;
        put(rows, &new)?;
        if number % 7 == 0 {
            compare(rt, &table, rows, random)?;
        }
    }
    Ok(table)
}

fn key_at(rows: &[Route], place: usize) -> Option<RouteKey> {
    Some(rows.get(place)?.key())
}

/// Removes all but a few rows, in no order, and compares each seventh version with the list.
fn thin(
    rt: &impl Abort,
    table: Table,
    rows: &mut Vec<Route>,
    random: &mut Random,
) -> Result<(), Fail> {
    let mut table = table;
    for number in 0..rows.len().saturating_sub(20) {
        let place = (random.next() as usize).checked_rem(rows.len());
        let Some(key) = key_at(rows, place.unwrap_or(0)) else {
            break;
        };
        table = table.with_change(&RouteEdit::Remove(key))?;
        drop_key(rows, &key);
        if number % 7 == 0 {
            compare(rt, &table, rows, random)?;
        }
    }
    compare(rt, &table, rows, random)
}

fn edits_in(rt: &impl Abort, alloc: Global, spread: Spread) -> Result<(), Fail> {
    let mut random = Random(0xc2b2ae3d27d4eb4f);
    let mut rows = Vec::new(alloc);
    let table = fill(
        rt,
        empty_table(alloc)?,
        &mut rows,
        spread,
        &mut random,
        1_500,
    )?;
    assert!(rt; rows.len() > 1_000, "{} routes", rows.len());
    thin(rt, table, &mut rows, &mut random)
}

#[test]
fn edits_wherever_routes_lie(rt: HostRuntime) -> Result<(), Fail> {
    for (base, bits, lengths) in [
        (0, u32::MAX, 25),
        (0, u32::MAX, 1),
        (0x0a000000, 0x00ffffff, 1),
        (0x0a000000, 0x00ffffff, 9),
        (0x0a080000, 0x0000ffff, 1),
        (0x0a080000, 0x0000ffff, 4),
    ] {
        edits_in(
            &rt,
            rt.alloc(),
            Spread {
                base,
                bits,
                lengths,
            },
        )?;
    }
    Ok(())
}
