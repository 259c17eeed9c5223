//! The fields of a route, as `ip -j route show` names them.
ghost use Rattle.std.specs.Prelude.{◌≡◌};
ghost use Rattle.prt_json.specs.Json.{all_tables};
ghost use Rattle.prt_json.specs.RouteJson.{destinations_field, gateway_field, metric_field, prefsrc_field, protocol_field, route_fields};
ghost use Rattle.prt_json.specs.RouteJson.{route_dev_field, scope_field, table_field, type_field};
ghost use Rattle.prt_json.specs.Steps.{member_of, members_of};

use crate::field::{Field, Value, addr_field, dev_field, empty_field, name_or_digits, table_value};
use prt_addr::Addr;
use prt_listing::is_everything;
use prt_route::{
    BOOT_PROTOCOL, Dev, GLOBAL_SCOPE, Kind, MAIN_TABLE, Prefix, Range, Route, Selector,
    protocol_name, scope_name,
};

/// Makes the field of the kind, except for unicast.
pub(crate) fn type_field(kind: Kind) -> Option<Field>
    ensures { member_of result ≡ type_field kind }
{
    match kind {
        Kind::Unicast => None,
        _ => Some(Field("type", Value::Name(kind.name()))),
    }
}

/// Makes the field of the destinations: `default` for 0.0.0.0/0.
fn destinations_field(prefix: &Prefix) -> Option<Field>
    ensures { member_of result ≡ destinations_field prefix.now }
{
    if is_everything(prefix) {
        Some(Field("dst", Value::Name("default")))
    } else {
        Some(Field("dst", Value::Prefix(*prefix)))
    }
}

/// Makes the field of the gateway, if there is one.
pub(crate) fn gateway_field(via: Option<Addr>) -> Option<Field>
    ensures { member_of result ≡ gateway_field via }
{
    addr_field("gateway", via)
}

/// Makes the field of the interface, if there is one and none is given.
pub(crate) fn route_dev_field(given: Option<Dev>, dev: Option<Dev>) -> Option<Field>
    ensures { member_of result ≡ route_dev_field given dev }
{
    if given.is_some() {
        return None;
    }
    dev_field("dev", dev)
}

/// Makes the field of the table, unless one is given, and except for main.
pub(crate) fn table_field(given: Option<u32>, table: u32) -> Option<Field>
    ensures { member_of result ≡ table_field given table }
{
    if given.is_some() || table == MAIN_TABLE {
        return None;
    }
    Some(Field("table", table_value(table)))
}

/// Makes the field of the protocol, unless one is given, and except for boot.
fn protocol_field(given: Option<u8>, proto: u8) -> Option<Field>
    ensures { member_of result ≡ protocol_field given proto }
{
    if given.is_some() || proto == BOOT_PROTOCOL {
        return None;
    }
    Some(Field(
        "protocol",
        name_or_digits(protocol_name(proto), u32::from(proto)),
    ))
}

/// Makes the field of the scope, unless one is given, and except for global.
fn scope_field(given: Option<u8>, scope: u8) -> Option<Field>
    ensures { member_of result ≡ scope_field given scope }
{
    if given.is_some() || scope == GLOBAL_SCOPE {
        return None;
    }
    Some(Field("scope", name_or_digits(scope_name(scope), u32::from(scope))))
}

/// Makes the field of the source address to prefer, if there is one.
pub(crate) fn prefsrc_field(src: Option<Addr>) -> Option<Field>
    ensures { member_of result ≡ prefsrc_field src }
{
    addr_field("prefsrc", src)
}

/// Makes the field of the metric, except for 0.
fn metric_field(metric: u32) -> Option<Field>
    ensures { member_of result ≡ metric_field metric }
{
    if metric == 0 {
        return None;
    }
    Some(Field("metric", Value::Number(u64::from(metric))))
}

/// Builds the fields of a route in their order, without those that the selector gives.
pub(crate) fn route_fields(selector: &Selector, route: &Route) -> [Option<Field>; 10]
    ensures { members_of result ≡ route_fields selector.now route.now }
{
    [
        type_field(route.kind),
        destinations_field(&route.prefix),
        gateway_field(route.via),
        route_dev_field(selector.dev, route.dev),
        table_field(selector.table, route.table),
        protocol_field(selector.proto, route.proto),
        scope_field(selector.scope, route.scope),
        prefsrc_field(route.src),
        metric_field(route.metric),
        empty_field("flags"),
    ]
}

/// The selector that takes each route of each table.
pub(crate) fn all_tables() -> Selector
    ensures { result ≡ all_tables }
{
    Selector {
        table: None,
        range: Range::All,
        kind: None,
        proto: None,
        scope: None,
        dev: None,
    }
}
