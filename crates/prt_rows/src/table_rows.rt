//! The rows of a whole table.

ghost use Rattle.std.specs.Prelude.{◌≡◌, IsTrue, drop, map, All, IfOk, IfErr, Some};
ghost use Rattle.sqlite_value.specs.Order.{Row as Values};
ghost use Rattle.prt_rows.specs.Decodes.{Decodes};
ghost use Rattle.prt_rows.specs.RouteRow.{IsInRange, route_row};
ghost use Rattle.prt_rows.specs.Rowids.{FailsToRead, is_above, rowids_rise};
ghost use Rattle.prt_rows.specs.RuleRow.{IsRule, rule_row};
ghost use Rattle.prt_rows.specs.SuppressRow.{IsLength, suppress_row};

use crate::column::ROWID;
use crate::{RuleLength, cell, length_of_row, route_of_row, rule_of_row};
use prt_refusals::Refusal;
use prt_route::Route;
use prt_rule::Rule;
use sqlite::Row;
use std::alloc::Global;

/// Checks whether the number is greater than the last one, if there is one.
fn is_above(last: Option<i64>, id: i64) -> bool
    ensures { result ≡ is_above last id }
{
    match last {
        Some(last) => last < id,
        None => true,
    }
}

/// Checks whether each rowid is an integer greater than the one before it.
fn rowids_rise(rows: &[Row]) -> bool
    ensures { result ≡ rowids_rise rows.now }
{
    let mut last = None;
    for row in rows {
        let Some(id) = cell::integer(row, ROWID) else {
            return false;
        };
        if !is_above(last, id) {
            return false;
        }
        last = Some(id);
    }
    true
}

/// What reads the rows of one table.
trait RowReader {
    type Value: Copy;

    ghost row_of: { Self.Value → Values };

    ghost Fits: { Self → Self.Value → Type 0 };

    // the cells of a row that encode its value
    ghost part: { Values → Values };

    /// The value that a row encodes, if it encodes one.
    fn value_of_row(&self, row: &Row) -> Option<Self::Value>
        ensures { Decodes row_of (Fits self.now) (part row.now) result };
}

/// Reads the table `route`.
#[derive(Clone, Copy)]
struct RouteReader;

impl RowReader for RouteReader {
    type Value = Route;

    ghost row_of = { route_row };

    ghost Fits = { λ _. IsInRange };

    ghost part = { drop 1 };

    fn value_of_row(&self, row: &Row) -> Option<Route> {
        route_of_row(row)
    }
}

/// Reads the table `rule`, with ids of 1 to `last`.
#[derive(Clone, Copy)]
struct RuleReader {
    last: u64,
}

impl RowReader for RuleReader {
    type Value = Rule;

    ghost row_of = { rule_row };

    ghost Fits = { λ reader. IsRule reader.last };

    ghost part = { λ row. row };

    fn value_of_row(&self, row: &Row) -> Option<Rule> {
        rule_of_row(row, self.last)
    }
}

/// Reads the table `suppress`, with rules of ids of 1 to `last`.
#[derive(Clone, Copy)]
struct LengthReader {
    last: u64,
}

impl RowReader for LengthReader {
    type Value = RuleLength;

    ghost row_of = { suppress_row };

    ghost Fits = { λ reader. IsLength reader.last };

    ghost part = { λ row. row };

    fn value_of_row(&self, row: &Row) -> Option<RuleLength> {
        length_of_row(row, self.last)
    }
}

/// The values that the rows encode, in the order of the rows, if the rowids rise.
fn values_of_rows<R: RowReader>(
    alloc: Global,
    rows: &[Row],
    reader: &R,
) -> Result<Vec<R::Value>, Refusal>
    ensures rise { IfOk result (λ _. IsTrue (rowids_rise rows.now)) }
    ensures ok { IfOk result (λ values. Decodes (map R.row_of) (All (R.Fits reader.now)) (map R.part rows.now) (Some values.items)) }
    ensures err { IfErr result (FailsToRead R.row_of (R.Fits reader.now) R.part rows.now) }
{
    if !rowids_rise(rows) {
        return Err(Refusal::Damaged);
    }
    let mut values = Vec::new(alloc);
    for row in rows {
        let Some(value) = reader.value_of_row(row) else {
            return Err(Refusal::Damaged);
        };
        values.push(value)?;
    }
    Ok(values)
}

/// The routes that the rows of the table `route` encode, their rowids first, in the order of the rowids.
///
/// # Errors
///
/// `Damaged` only if the rowids aren't integers that rise, or one of the rows encodes no route. `NoMemory` if memory is
/// refused.
pub fn routes_of_rows(alloc: Global, rows: &[Row]) -> Result<Vec<Route>, Refusal>
    ensures rise { IfOk result (λ _. IsTrue (rowids_rise rows.now)) }
    ensures ok { IfOk result (λ routes. Decodes (map route_row) (All IsInRange) (map (drop 1) rows.now) (Some routes.items)) }
    ensures err { IfErr result (FailsToRead route_row IsInRange (drop 1) rows.now) }
{
    values_of_rows(alloc, rows, &RouteReader)
}

/// The rules that the rows of the table `rule` encode, in the order of their ids.
///
/// # Errors
///
/// `Damaged` only if the ids aren't integers that rise, or one of the rows encodes no rule with an id of 1 to `last`.
/// `NoMemory` if memory is refused.
pub fn rules_of_rows(alloc: Global, rows: &[Row], last: u64) -> Result<Vec<Rule>, Refusal>
    ensures rise { IfOk result (λ _. IsTrue (rowids_rise rows.now)) }
    ensures ok { IfOk result (λ rules. Decodes (map rule_row) (All (IsRule last)) rows.now (Some rules.items)) }
    ensures err { IfErr result (FailsToRead rule_row (IsRule last) (λ row. row) rows.now) }
{
    values_of_rows(alloc, rows, &RuleReader { last })
}

/// The lengths that the rows of the table `suppress` encode, in the order of the ids of their rules.
///
/// # Errors
///
/// `Damaged` only if the ids aren't integers that rise, or a row encodes no length of a rule with an id of 1 to `last`.
/// `NoMemory` if memory is refused.
pub fn lengths_of_rows(alloc: Global, rows: &[Row], last: u64) -> Result<Vec<RuleLength>, Refusal>
    ensures rise { IfOk result (λ _. IsTrue (rowids_rise rows.now)) }
    ensures ok { IfOk result (λ lengths. Decodes (map suppress_row) (All (IsLength last)) rows.now (Some lengths.items)) }
    ensures err { IfErr result (FailsToRead suppress_row (IsLength last) (λ row. row) rows.now) }
{
    values_of_rows(alloc, rows, &LengthReader { last })
}
