//! One cell of a row, read.

ghost use Rattle.std.specs.Prelude.{[], ◌∷◌, IfSome, ⊤};
ghost use Rattle.sqlite_value.specs.declared.value.Value.TheVariants.{Int};
ghost use Rattle.sqlite_value.specs.Order.{column};
ghost use Rattle.prt_addr.specs.Sound.{IsPrefix};
ghost use Rattle.prt_rows.specs.Decodes.{Decodes};
ghost use Rattle.prt_rows.specs.Cell.{IsByte, IsNumber, IsOptionalAddr, IsOptionalName, IsWithin, flag, number, optional_addr, optional_name};
ghost use Rattle.prt_rows.specs.Cell.{optional_number, prefix_cells};

use prt_addr::{Addr, Prefix};
use prt_route::{Dev, read_dev};
use sqlite::Row;
use sqlite::types::ValueRef;

/// Reads the integer in a cell.
pub(crate) fn integer(row: &Row, at: usize) -> Option<i64>
    ensures { Decodes Int (λ _. ⊤) (column row.now at) result }
{
    match row.get_ref(at) {
        Ok(ValueRef::Int(n)) => Some(n),
        _ => None,
    }
}

/// Reads the 32-bit number in a cell.
pub(crate) fn number(row: &Row, at: usize) -> Option<u32>
    ensures { Decodes number IsNumber (column row.now at) result }
{
    u32::try_from(integer(row, at)?).ok()
}

/// Reads the 8-bit number in a cell.
pub(crate) fn byte(row: &Row, at: usize) -> Option<u8>
    ensures { Decodes number IsByte (column row.now at) result }
{
    u8::try_from(integer(row, at)?).ok()
}

/// Reads the number from `low` to `high` in a cell.
pub(crate) fn number_within(row: &Row, at: usize, low: u64, high: u64) -> Option<u64>
    ensures { Decodes number (IsWithin low high) (column row.now at) result }
{
    let n = u64::try_from(integer(row, at)?).ok()?;
    if n < low || n > high {
        return None;
    }
    Some(n)
}

/// Reads the flag in a cell: 0 or 1.
pub(crate) fn flag(row: &Row, at: usize) -> Option<bool>
    ensures { Decodes flag (λ _. ⊤) (column row.now at) result }
{
    match integer(row, at)? {
        0 => Some(false),
        1 => Some(true),
        _ => None,
    }
}

/// Reads the 32-bit number in a cell, or none for -1.
pub(crate) fn optional_number(row: &Row, at: usize) -> Option<Option<u32>>
    ensures { Decodes optional_number (λ n. IfSome n IsNumber) (column row.now at) result }
{
    match integer(row, at)? {
        -1 => Some(None),
        n => Some(Some(u32::try_from(n).ok()?)),
    }
}

/// Reads the address in a cell, or none for -1.
pub(crate) fn optional_addr(row: &Row, at: usize) -> Option<Option<Addr>>
    ensures { Decodes optional_addr IsOptionalAddr (column row.now at) result }
{
    Some(optional_number(row, at)?.map(Addr))
}

/// Reads the name of an interface in a cell, or none for the empty text.
pub(crate) fn optional_name(row: &Row, at: usize) -> Option<Option<Dev>>
    ensures { Decodes optional_name IsOptionalName (column row.now at) result }
{
    let Ok(ValueRef::Text(name)) = row.get_ref(at) else {
        return None;
    };
    if name.is_empty() {
        return Some(None);
    }
    match read_dev(name) {
        Ok(dev) => Some(Some(dev)),
        Err(_) => None,
    }
}

/// Reads the prefix in two cells.
pub(crate) fn prefix(row: &Row, bits_at: usize, len_at: usize) -> Option<Prefix>
    ensures { Decodes prefix_cells IsPrefix (column row.now bits_at ∷ column row.now len_at ∷ []) result }
{
    Prefix::new(number(row, bits_at)?, byte(row, len_at)?)
}
