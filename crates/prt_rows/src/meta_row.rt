//! The row of the count.

ghost use Rattle.std.specs.Prelude.{◌≡◌};
ghost use Rattle.sqlite.specs.Values.{bound};
ghost use Rattle.prt_rows.specs.Decodes.{Decodes};
ghost use Rattle.prt_rows.specs.MetaRow.{IsCount, meta_row, meta_row_in, meta_rows, meta_rows_1};

use crate::column::{META_WIDTH, MetaColumn as At};
use crate::{cell, value};
use sqlite::Row;
use sqlite::types::ValueRef;

/// The only id of a row of `meta`.
const ID: u32 = 1;

/// The format of the file.
const FORMAT: u32 = 2;

/// The format before it, which has no table `suppress`.
const EARLIER_FORMAT: u32 = 1;

/// The most commands that a database accepts.
const LARGEST_COUNT: u64 = 1_000_000_000_000_000;

/// Reads the count that the row of `meta` encodes in a file of this format, if it encodes one.
fn count_of_row(row: &Row, format: u32) -> Option<u64>
    ensures { Decodes (meta_row_in format) IsCount row.now result }
{
    if row.column_count() != META_WIDTH {
        return None;
    }
    let id = cell::number(row, At::Id as usize)?;
    let found = cell::number(row, At::Format as usize)?;
    let count = cell::number_within(row, At::Count as usize, 0, LARGEST_COUNT)?;
    if id == ID && found == format {
        Some(count)
    } else {
        None
    }
}

/// Reads the count of accepted commands, 0 to 10^15, that the rows of the table `meta` encode, if they encode one.
///
/// There is one row, with id 1 and format 2 (`FILE-FORMAT.md`).
pub fn count_of_rows(rows: &[Row]) -> Option<u64>
    ensures { Decodes meta_rows IsCount rows.now result }
{
    match rows {
        [row] => count_of_row(row, FORMAT),
        _ => None,
    }
}

/// Reads the count that the rows of the table `meta` encode in a file of format 1, if they encode one.
///
/// There is one row, with id 1 and format 1.
pub fn count_in_format_1(rows: &[Row]) -> Option<u64>
    ensures { Decodes meta_rows_1 IsCount rows.now result }
{
    match rows {
        [row] => count_of_row(row, EARLIER_FORMAT),
        _ => None,
    }
}

/// Builds the values of the row of `meta` for a count of at most 10^15, in the order of the columns. They are to be
/// bound to a statement.
pub fn meta_values(count: u64) -> [ValueRef<'static>; META_WIDTH]
    requires { IsCount count }
    ensures { bound result ≡ meta_row count }
{
    [
        value::number(ID),
        value::number(FORMAT),
        value::large_number(count),
    ]
}
