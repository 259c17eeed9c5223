//! What a column takes.

ghost use Rattle.std.specs.Prelude.{◌≡◌, IfSome};
ghost use Rattle.sqlite_value.specs.Order.{column};
ghost use Rattle.sqlite_value.specs.declared.value.Value.TheVariants.{Int};

use prt_addr::Prefix;
use prt_route::read_dev;
use sqlite::Row;
use sqlite::types::ValueRef;
use sqlite_schema::schema::Kind;

/// The greatest number of 32 bits.
pub(crate) const LARGEST: i64 = 4_294_967_295;

/// What is in a column for an address, a mark or a mask that is not there.
pub(crate) const ABSENT: i64 = -1;

/// The values that a column takes (`FILE-FORMAT.md`).
#[derive(Clone, Copy)]
pub(crate) enum CellRange {
    /// A number from the first to the second.
    Number(i64, i64),
    /// The number of a kind of route.
    Kind,
    /// The number of an action of a rule.
    Action,
    /// The name of an interface, or the empty text.
    Name,
}

/// Reads the integer in a cell.
pub(crate) fn integer(row: &Row, at: usize) -> Option<i64>
    ensures { IfSome result (λ n. column row.now at ≡ Int n) }
{
    match row.get_ref(at) {
        Ok(ValueRef::Int(n)) => Some(n),
        _ => None,
    }
}

/// Checks whether an integer is one of a range.
fn takes_integer(range: CellRange, n: i64) -> bool {
    match range {
        CellRange::Number(low, high) => low <= n && n <= high,
        CellRange::Kind => n == 1 || 6 <= n && n <= 9,
        CellRange::Action => n == 1 || 6 <= n && n <= 8,
        CellRange::Name => false,
    }
}

/// Checks whether a text is the name of an interface, or empty.
fn takes_text(range: CellRange, text: &[u8]) -> bool {
    match range {
        CellRange::Name => text.is_empty() || read_dev(text).is_ok(),
        _ => false,
    }
}

/// Checks whether a cell has a value of a range.
fn takes(range: CellRange, row: &Row, at: usize) -> bool {
    match row.get_ref(at) {
        Ok(ValueRef::Int(n)) => takes_integer(range, n),
        Ok(ValueRef::Text(text)) => takes_text(range, text),
        _ => false,
    }
}

/// Finds the name of the first of the columns that has a value which is not in its range. The columns come after the
/// rowid.
pub(crate) fn wrong_column(
    row: &Row,
    columns: &[(&'static str, Kind)],
    ranges: &[CellRange],
) -> Option<&'static str> {
    for (at, (column, range)) in columns.iter().zip(ranges.iter()).enumerate() {
        if !takes(*range, row, at + 1) {
            return Some(column.0);
        }
    }
    None
}

/// Checks whether the address in a cell has bits after the length in another.
pub(crate) fn has_host_bits(row: &Row, bits_at: usize, len_at: usize) -> bool {
    let (Some(bits), Some(len)) = (integer(row, bits_at), integer(row, len_at)) else {
        return false;
    };
    match (u32::try_from(bits), u8::try_from(len)) {
        (Ok(bits), Ok(len)) => Prefix::new(bits, len).is_none(),
        _ => false,
    }
}
