//! The fields of what becomes of a packet, as `ip -j route get` names them.
ghost use Rattle.std.specs.Prelude.{◌≡◌};
ghost use Rattle.prt_json.specs.AnswerJson.{drop_answer, from_field, iif_field, mark_field, preferred, route_answer, target_field};
ghost use Rattle.prt_json.specs.Steps.{member_of, members_of};

use crate::field::{Field, Value, empty_field};
use crate::route::{gateway_field, prefsrc_field, route_dev_field, table_field, type_field};
use crate::rule::failure_field;
use prt_addr::Addr;
use prt_route::{Dev, Route};
use prt_rule::{Action, Packet};

/// Makes the field of the destination.
fn target_field(packet: &Packet) -> Option<Field>
    ensures { member_of result ≡ target_field packet.now }
{
    Some(Field("dst", Value::Addr(packet.dst)))
}

/// Makes the field of the source, except for 0.0.0.0.
fn from_field(packet: &Packet) -> Option<Field>
    ensures { member_of result ≡ from_field packet.now }
{
    if packet.src.0 == 0 {
        return None;
    }
    Some(Field("from", Value::Addr(packet.src)))
}

/// Returns the source that the route prefers, if the packet has none and came in by `lo`.
fn preferred(packet: &Packet, src: Option<Addr>) -> Option<Addr>
    ensures { result ≡ preferred packet.now src }
{
    if packet.src.0 == 0 && packet.iif == Dev::loopback() {
        src
    } else {
        None
    }
}

/// Makes the field of the mark, except for 0.
fn mark_field(packet: &Packet) -> Option<Field>
    ensures { member_of result ≡ mark_field packet.now }
{
    if packet.mark == 0 {
        return None;
    }
    Some(Field("mark", Value::Number(u64::from(packet.mark))))
}

/// Makes the field of the interface that the packet came in by, except for `lo`.
fn iif_field(packet: &Packet) -> Option<Field>
    ensures { member_of result ≡ iif_field packet.now }
{
    if packet.iif == Dev::loopback() {
        return None;
    }
    Some(Field("iif", Value::Dev(packet.iif)))
}

/// Builds the fields of a packet that goes by this route, in their order.
pub(crate) fn route_answer(packet: &Packet, route: &Route) -> [Option<Field>; 11]
    ensures { members_of result ≡ route_answer packet.now route.now }
{
    [
        type_field(route.kind),
        target_field(packet),
        from_field(packet),
        gateway_field(route.via),
        route_dev_field(None, route.dev),
        table_field(None, route.table),
        prefsrc_field(preferred(packet, route.src)),
        empty_field("flags"),
        mark_field(packet),
        empty_field("cache"),
        iif_field(packet),
    ]
}

/// Builds the fields of a packet that a rule drops, in their order.
pub(crate) fn drop_answer(packet: &Packet, action: Action) -> [Option<Field>; 7]
    ensures { members_of result ≡ drop_answer packet.now action }
{
    [
        failure_field("type", action),
        target_field(packet),
        from_field(packet),
        empty_field("flags"),
        mark_field(packet),
        empty_field("cache"),
        iif_field(packet),
    ]
}
