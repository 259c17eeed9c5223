//! Rows of the table `meta` that encode no count.

ghost use Rattle.std.specs.Prelude.{◌↔◌, IsNone};
ghost use Rattle.prt_reasons.specs.Spelling.{SpellsCount};

use crate::MetaFault;
use crate::cell::integer;
use prt_rows::{MetaColumn as At, count_of_rows};
use prt_version::MOST_COMMANDS;
use sqlite::Row;

/// Checks whether a number is that of an accepted command, or 0.
fn is_count(n: i64) -> bool {
    match u64::try_from(n) {
        Ok(n) => n <= MOST_COMMANDS,
        Err(_) => false,
    }
}

/// Names the fault of a row that encodes no count.
fn name_fault(row: &Row) -> MetaFault {
    match (
        integer(row, At::Id as usize),
        integer(row, At::Format as usize),
        integer(row, At::Count as usize),
    ) {
        (Some(1), Some(format), Some(count)) => {
            if format != 1 && format != 2 {
                MetaFault::Format(format)
            } else if !is_count(count) {
                MetaFault::Value("count")
            } else {
                MetaFault::Lengths
            }
        }
        _ => MetaFault::Value("id"),
    }
}

/// Finds the fault of the rows of the table `meta`, if they encode no count of accepted commands.
pub fn meta_fault(rows: &[Row]) -> Option<MetaFault>
    ensures { IsNone result ↔ SpellsCount rows.now }
{
    if count_of_rows(rows).is_some() {
        return None;
    }
    match rows {
        [row] => Some(name_fault(row)),
        _ => Some(MetaFault::Rows(rows.len())),
    }
}
