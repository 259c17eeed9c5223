//! Rows of the table `route` that encode no route.

ghost use Rattle.std.specs.Prelude.{◌↔◌, IsNone, IsTrue};
ghost use Rattle.prt_reasons.specs.Spelling.{SpellsRoute};

use crate::RowFault;
use crate::cell::{ABSENT, CellRange, LARGEST, has_host_bits, integer, wrong_column};
use prt_rows::{ROUTE_COLUMNS, RouteColumn as At, route_of_row};
use sqlite::Row;

/// The values that the columns after the rowid take.
const RANGES: [CellRange; 10] = [
    CellRange::Number(1, LARGEST),
    CellRange::Number(0, LARGEST),
    CellRange::Number(0, 32),
    CellRange::Number(0, LARGEST),
    CellRange::Kind,
    CellRange::Number(ABSENT, LARGEST),
    CellRange::Name,
    CellRange::Number(ABSENT, LARGEST),
    CellRange::Number(0, 255),
    CellRange::Number(0, 255),
];

/// The number of the kind unicast.
const UNICAST: i64 = 1;

/// Names the fault of a row that encodes no route.
fn name_fault(row: &Row) -> RowFault {
    if let Some(column) = wrong_column(row, &ROUTE_COLUMNS, &RANGES) {
        return RowFault::Value(column);
    }
    if has_host_bits(row, At::Net as usize, At::Len as usize) {
        return RowFault::HostBits;
    }
    match integer(row, At::Kind as usize) {
        Some(UNICAST) => RowFault::NoNextHop,
        _ => RowFault::NextHopNotAllowed,
    }
}

/// Checks whether a row of the table `route`, its rowid first, encodes a route that a table may hold.
fn spells_route(row: &Row) -> bool
    ensures { IsTrue result ↔ SpellsRoute row.now }
{
    match route_of_row(row) {
        Some(route) => route.is_storable(),
        None => false,
    }
}

/// Finds the fault of a row of the table `route`, its rowid first, if it encodes no route that a table may hold.
pub fn route_fault(row: &Row) -> Option<RowFault>
    ensures { IsNone result ↔ SpellsRoute row.now }
{
    if spells_route(row) {
        None
    } else {
        Some(name_fault(row))
    }
}
