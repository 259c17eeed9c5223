ghost use Rattle.std.specs.Prelude.{◌≡◌, ◌++◌, IsOkUnless, OnErr, OnOk, map};
ghost use Rattle.prt_refusals.specs.declared.refusal.Refusal.TheVariants.{NoMemory};
ghost use Rattle.prt_listing.specs.Keeps.{Keeps};
ghost use Rattle.prt_listing.specs.RouteText.{kind_part, metric_part, protocol_part, route_parts, route_text, scope_part, table_part};
ghost use Rattle.prt_listing.specs.Steps.{part_of};

use crate::part::{
    Part, Value, addr_part, dev_part, prefix_or, protocol_value, scope_value, table_value,
};
use crate::push::{push_parts, whole_or_nothing};
use prt_refusals::Refusal;
use prt_route::{BOOT_PROTOCOL, GLOBAL_SCOPE, Kind, MAIN_TABLE, Route};
use std::alloc::AllocError;

/// The metric that is implied.
const UNSAID_METRIC: u32 = 0;

/// Whether the text of a route names its table.
#[derive(Clone, Copy)]
pub enum TablePart {
    /// It does, except for the table main.
    Shown,
    /// It names no table.
    LeftOut,
}

/// Returns the kind, except for unicast.
fn kind_part(kind: Kind) -> Option<Part>
    ensures { part_of result ≡ kind_part kind }
{
    match kind {
        Kind::Unicast => None,
        _ => Some(Part::Alone(Value::Text(kind.name()))),
    }
}

/// Returns the table, unless it is implied.
pub fn table_part(shown: TablePart, table: u32) -> Option<Part>
    ensures { part_of result ≡ table_part shown table }
{
    match shown {
        TablePart::Shown if table != MAIN_TABLE => {
            Some(Part::Named("table", table_value(table)))
        }
        _ => None,
    }
}

/// Returns the protocol, unless it is implied.
fn protocol_part(proto: u8) -> Option<Part>
    ensures { part_of result ≡ protocol_part proto }
{
    if proto == BOOT_PROTOCOL {
        return None;
    }
    Some(Part::Named("proto", protocol_value(proto)))
}

/// Returns the scope, unless it is implied.
fn scope_part(scope: u8) -> Option<Part>
    ensures { part_of result ≡ scope_part scope }
{
    if scope == GLOBAL_SCOPE {
        return None;
    }
    Some(Part::Named("scope", scope_value(scope)))
}

/// Returns the metric, unless it is implied.
fn metric_part(metric: u32) -> Option<Part>
    ensures { part_of result ≡ metric_part metric }
{
    if metric == UNSAID_METRIC {
        return None;
    }
    Some(Part::Named("metric", Value::Number(u64::from(metric))))
}

/// Builds the parts of a route in their order.
pub fn route_parts(route: &Route, table: TablePart) -> [Option<Part>; 9]
    ensures { map part_of result ≡ route_parts route.now table }
{
    [
        kind_part(route.kind),
        Some(Part::Alone(prefix_or("default", &route.prefix))),
        addr_part("via", route.via),
        dev_part("dev", route.dev),
        table_part(table, route.table),
        protocol_part(route.proto),
        scope_part(route.scope),
        addr_part("src", route.src),
        metric_part(route.metric),
    ]
}

/// Appends a route.
///
/// # Errors
///
/// Memory is refused; a part of the text may follow what `out` had.
pub(crate) fn push_route(
    out: &mut Vec<u8>,
    route: &Route,
    table: TablePart,
) -> Result<(), AllocError>
    ensures ok { OnOk result (out.new.items ≡ out.old.items ++ route_text route.now table) }
    ensures err { OnErr result (Keeps out.old.items out.new.items) }
{
    push_parts(out, &route_parts(route, table))
}

/// Appends a route in the form of `ip-route(8)`, without what is implied.
///
/// # Errors
///
/// `NoMemory` if memory is refused; `out` is as it was.
pub fn route_text(out: &mut Vec<u8>, route: &Route, table: TablePart) -> Result<(), Refusal>
    ensures ok { OnOk result (out.new.items ≡ out.old.items ++ route_text route.now table) }
    ensures err { OnErr result (out.new.items ≡ out.old.items) }
    ensures reason { IsOkUnless result NoMemory }
{
    let len = out.len();
    let pushed = push_route(out, route, table);
    whole_or_nothing(out, len, pushed)
}
