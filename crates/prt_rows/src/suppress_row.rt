//! The row of the length up to which a rule suppresses prefixes.

ghost use Rattle.std.specs.Prelude.{◌≡◌, ◌<◌, ◌^◌};
ghost use Rattle.sqlite.specs.Values.{bound};
ghost use Rattle.prt_rows.specs.Decodes.{Decodes};
ghost use Rattle.prt_rows.specs.SuppressRow.{IsLength, suppress_row};

use crate::column::{SUPPRESS_WIDTH, SuppressColumn as At};
use crate::{cell, value};
use sqlite::Row;
use sqlite::types::ValueRef;

/// The greatest length, in bits.
const LONGEST: u64 = 32;

/// The length up to which a rule suppresses prefixes.
#[derive(Debug, Clone, Copy)]
pub struct RuleLength {
    /// The id of the rule.
    pub rule: u64,
    /// The length, 0 to 32 bits.
    pub len: u8,
}

/// The length that a row of the table `suppress` encodes, if it encodes one of a rule with an id of 1 to `last`.
///
/// Its two cells come in the order of the columns, each in its range (`FILE-FORMAT.md`).
pub fn length_of_row(row: &Row, last: u64) -> Option<RuleLength>
    ensures { Decodes suppress_row (IsLength last) row.now result }
{
    if row.column_count() != SUPPRESS_WIDTH {
        return None;
    }
    let rule = cell::number_within(row, At::Rule as usize, 1, last)?;
    let len = cell::number_within(row, At::Len as usize, 0, LONGEST)?;
    Some(RuleLength {
        rule,
        len: len as u8,
    })
}

/// The values of the row of a length, whose rule's id is below 2^63, in the order of the columns (`FILE-FORMAT.md`), to
/// be bound to a statement.
pub fn length_values(length: &RuleLength) -> [ValueRef<'static>; SUPPRESS_WIDTH]
    requires { length.now.rule < 2 ^ 63 }
    ensures { bound result ≡ suppress_row length.now }
{
    [
        value::large_number(length.rule),
        value::number(u32::from(length.len)),
    ]
}
