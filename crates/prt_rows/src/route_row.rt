//! The row of a route.

ghost use Rattle.std.specs.Prelude.{◌≡◌, ⊤, drop};
ghost use Rattle.sqlite.specs.Values.{bound};
ghost use Rattle.sqlite_value.specs.Order.{column};
ghost use Rattle.prt_rows.specs.Decodes.{Decodes};
ghost use Rattle.prt_rows.specs.Cell.{number};
ghost use Rattle.prt_rows.specs.RouteRow.{IsInRange, kind_code, route_row};

use crate::code::{kind_code, kind_of_code};
use crate::column::{ROUTE_WIDTH, RouteColumn as At};
use crate::{cell, value};
use prt_route::{Kind, Route};
use sqlite::Row;
use sqlite::types::ValueRef;

/// The kind in a cell.
fn kind(row: &Row, at: usize) -> Option<Kind>
    ensures { Decodes (λ kind. number (kind_code kind)) (λ _. ⊤) (column row.now at) result }
{
    kind_of_code(cell::number(row, at)?)
}

/// The route that a row of the table `route`, its rowid first, encodes, if it encodes one.
///
/// The ten cells after the rowid come in the order of the columns, each in its range (`FILE-FORMAT.md`).
/// `Route::is_storable` says whether a table may hold the route.
pub fn route_of_row(row: &Row) -> Option<Route>
    ensures { Decodes route_row IsInRange (drop 1 row.now) result }
{
    if row.column_count() != ROUTE_WIDTH + 1 {
        return None;
    }
    Some(Route {
        table: cell::number(row, At::Tbl as usize)?,
        prefix: cell::prefix(row, At::Net as usize, At::Len as usize)?,
        metric: cell::number(row, At::Metric as usize)?,
        kind: kind(row, At::Kind as usize)?,
        via: cell::optional_addr(row, At::Via as usize)?,
        dev: cell::optional_name(row, At::Dev as usize)?,
        src: cell::optional_addr(row, At::Src as usize)?,
        proto: cell::byte(row, At::Proto as usize)?,
        scope: cell::byte(row, At::Scope as usize)?,
    })
}

/// The values of the row of a route, in the order of the columns (`FILE-FORMAT.md`), to be bound to a statement. The
/// rowid is not among them.
pub fn route_values(route: &Route) -> [ValueRef<'_>; ROUTE_WIDTH]
    ensures value { bound result ≡ route_row route.now }
    ensures route { IsInRange route.now }
{
    [
        value::number(route.table),
        value::number(route.prefix.bits()),
        value::number(u32::from(route.prefix.len())),
        value::number(route.metric),
        value::number(kind_code(route.kind)),
        value::optional_addr(route.via),
        value::optional_name(&route.dev),
        value::optional_addr(route.src),
        value::number(u32::from(route.proto)),
        value::number(u32::from(route.scope)),
    ]
}
