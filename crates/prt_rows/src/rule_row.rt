//! The row of a rule.

ghost use Rattle.std.specs.Prelude.{◌≡◌, ◌≤◌, ◌<◌, ◌^◌, [], ◌∷◌, None, ⊤};
ghost use Rattle.sqlite.specs.Values.{bound};
ghost use Rattle.sqlite_value.specs.Order.{column};
ghost use Rattle.prt_rows.specs.Decodes.{Decodes};
ghost use Rattle.prt_rows.specs.Cell.{IsWithin, flag, number, optional_number};
ghost use Rattle.prt_rows.specs.RuleRow.{IsAction, IsOptionalMark, IsRule, action_cells, mark_cells, rule_row};

use crate::code::{action_codes, action_of_codes};
use crate::column::{RULE_WIDTH, RuleColumn as At};
use crate::{cell, value};
use prt_rule::{Action, Mark, Rule};
use sqlite::Row;
use sqlite::types::ValueRef;

/// The mark of these two parts, or none if neither is there.
fn both(mark: Option<u32>, mask: Option<u32>) -> Option<Option<Mark>>
    ensures { Decodes mark_cells IsOptionalMark (optional_number mark ∷ optional_number mask ∷ []) result }
{
    match (mark, mask) {
        (Some(mark), Some(mask)) => Some(Some(Mark { mark, mask })),
        (None, None) => Some(None),
        _ => None,
    }
}

/// The mark in two cells, or none for -1 in both.
fn mark(row: &Row, mark_at: usize, mask_at: usize) -> Option<Option<Mark>>
    ensures { Decodes mark_cells IsOptionalMark (column row.now mark_at ∷ column row.now mask_at ∷ []) result }
{
    both(
        cell::optional_number(row, mark_at)?,
        cell::optional_number(row, mask_at)?,
    )
}

/// The action in two cells.
fn action(row: &Row, act_at: usize, table_at: usize) -> Option<Action>
    ensures { Decodes action_cells IsAction (column row.now act_at ∷ column row.now table_at ∷ []) result }
{
    action_of_codes(cell::number(row, act_at)?, cell::number(row, table_at)?)
}

/// The rule that a row of the table `rule` encodes, if it encodes one with an id of 1 to `last`. It suppresses nothing.
///
/// Its twelve cells come in the order of the columns, each in its range (`FILE-FORMAT.md`). Mark and mask are there
/// together or not at all, and no table comes with an action that looks up none. `Rule::is_storable` says whether a
/// database may hold the rule.
pub fn rule_of_row(row: &Row, last: u64) -> Option<Rule>
    ensures { Decodes rule_row (IsRule last) row.now result }
{
    if row.column_count() != RULE_WIDTH {
        return None;
    }
    Some(Rule {
        id: cell::number_within(row, At::Id as usize, 1, last)?,
        priority: cell::number(row, At::Priority as usize)?,
        inverted: cell::flag(row, At::Inverted as usize)?,
        from: cell::prefix(row, At::SrcNet as usize, At::SrcLen as usize)?,
        to: cell::prefix(row, At::DstNet as usize, At::DstLen as usize)?,
        iif: cell::optional_name(row, At::Iif as usize)?,
        mark: mark(row, At::Mark as usize, At::Mask as usize)?,
        action: action(row, At::Act as usize, At::Tbl as usize)?,
        suppress: None,
    })
}

/// The values of the row of a rule, whose id is below 2^63, in the order of the columns (`FILE-FORMAT.md`), to be bound
/// to a statement.
pub fn rule_values(rule: &Rule) -> [ValueRef<'_>; RULE_WIDTH]
    requires { rule.now.id < 2 ^ 63 }
    ensures value { bound result ≡ rule_row rule.now }
    ensures rule { 1 ≤ rule.now.id → IsRule rule.now.id (record rule.now { suppress = None }) }
{
    let (code, table) = action_codes(rule.action);
    [
        value::large_number(rule.id),
        value::number(rule.priority),
        value::flag(rule.inverted),
        value::number(rule.from.bits()),
        value::number(u32::from(rule.from.len())),
        value::number(rule.to.bits()),
        value::number(u32::from(rule.to.len())),
        value::optional_name(&rule.iif),
        value::optional_number(rule.mark.map(|mark| mark.mark)),
        value::optional_number(rule.mark.map(|mark| mark.mask)),
        value::number(code),
        value::number(table),
    ]
}
