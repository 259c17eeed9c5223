//! Rows of the tables `rule` and `suppress` that encode no rule and no length.

ghost use Rattle.std.specs.Prelude.{◌↔◌, IsNone, IsTrue};
ghost use Rattle.prt_reasons.specs.Spelling.{SpellsLength, SpellsRule};

use crate::RowFault;
use crate::cell::{ABSENT, CellRange, LARGEST, has_host_bits, integer, wrong_column};
use prt_rows::{RULE_COLUMNS, RuleColumn as At, length_of_row, rule_of_row};
use sqlite::Row;

/// The values that the columns after the id take.
const RANGES: [CellRange; 11] = [
    CellRange::Number(0, LARGEST),
    CellRange::Number(0, 1),
    CellRange::Number(0, LARGEST),
    CellRange::Number(0, 32),
    CellRange::Number(0, LARGEST),
    CellRange::Number(0, 32),
    CellRange::Name,
    CellRange::Number(ABSENT, LARGEST),
    CellRange::Number(ABSENT, LARGEST),
    CellRange::Action,
    CellRange::Number(0, LARGEST),
];

/// The number of the action that looks up a table.
const LOOKUP: i64 = 1;

/// Checks whether the first cell has an id of 1 to `last`.
fn has_id(row: &Row, last: u64) -> bool {
    match integer(row, At::Id as usize) {
        Some(id) => match u64::try_from(id) {
            Ok(id) => 1 <= id && id <= last,
            Err(_) => false,
        },
        None => false,
    }
}

/// Checks whether a cell says that its value is not there.
fn is_absent(row: &Row, at: usize) -> bool {
    integer(row, at) == Some(ABSENT)
}

/// Names the fault of a row that encodes no rule.
fn name_fault(row: &Row, last: u64) -> RowFault {
    if !has_id(row, last) {
        return RowFault::Value("id");
    }
    if let Some(column) = wrong_column(row, &RULE_COLUMNS[1..], &RANGES) {
        return RowFault::Value(column);
    }
    if has_host_bits(row, At::SrcNet as usize, At::SrcLen as usize)
        || has_host_bits(row, At::DstNet as usize, At::DstLen as usize)
    {
        return RowFault::HostBits;
    }
    if is_absent(row, At::Mark as usize) != is_absent(row, At::Mask as usize) {
        return RowFault::HalfMark;
    }
    match integer(row, At::Act as usize) {
        Some(LOOKUP) => RowFault::Value("tbl"),
        _ => RowFault::TableNotAllowed,
    }
}

/// Checks whether a row of the table `rule` encodes a rule that a database may hold, with an id of 1 to `last`.
fn spells_rule(row: &Row, last: u64) -> bool
    ensures { IsTrue result ↔ SpellsRule last row.now }
{
    match rule_of_row(row, last) {
        Some(rule) => rule.is_storable(),
        None => false,
    }
}

/// Finds the fault of a row of `rule`, if it encodes no rule with an id of 1 to `last` that a database may hold.
pub fn rule_fault(row: &Row, last: u64) -> Option<RowFault>
    ensures { IsNone result ↔ SpellsRule last row.now }
{
    if spells_rule(row, last) {
        None
    } else {
        Some(name_fault(row, last))
    }
}

/// Finds the fault of a row of the table `suppress`, if it encodes no length of a rule with an id of 1 to `last`.
pub fn length_fault(row: &Row, last: u64) -> Option<RowFault>
    ensures { IsNone result ↔ SpellsLength last row.now }
{
    match length_of_row(row, last) {
        Some(_) => None,
        None => Some(RowFault::Value(if has_id(row, last) { "len" } else { "rule" })),
    }
}
