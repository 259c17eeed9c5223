use super::values::{GATEWAY, route, ten_one};
use prt_addr::{Addr, Prefix};
use prt_refusals::Refusal;
use prt_route::{
    Dev, Kind, MAIN_TABLE, Range, RouteChoice, Selector, protocol_name, read_dev, read_protocol,
    read_scope, read_table, scope_name, table_name,
};

/// Finds the first of these words that is read as the name of an interface, and is none.
fn accepted_name() -> Option<&'static str> {
    for word in ["", "..", "a/b", "a:1", "a\tb", "sixteen-bytes-xy"] {
        if read_dev(word.as_bytes()) != Err(Refusal::BadName) {
            return Some(word);
        }
    }
    None
}

/// Finds the first of these words that is read as a table other than the one that it expresses.
fn misread_table() -> Option<&'static str> {
    for (word, table) in [
        ("main", Ok(MAIN_TABLE)),
        ("0x10", Ok(16)),
        ("0", Err(Refusal::BadTable)),
        ("all", Err(Refusal::BadTable)),
    ] {
        if read_table(word.as_bytes()) != table {
            return Some(word);
        }
    }
    None
}

/// Finds the first of these words that is read as a protocol or scope other than the one that it expresses.
fn misread_number() -> Option<&'static str> {
    for (word, protocol, scope) in [
        ("rip", Ok(189), Err(Refusal::BadNumber)),
        ("link", Err(Refusal::BadNumber), Ok(253)),
        ("255", Ok(255), Ok(255)),
        ("256", Err(Refusal::BadNumber), Err(Refusal::BadNumber)),
    ] {
        if read_protocol(word.as_bytes()) != protocol || read_scope(word.as_bytes()) != scope {
            return Some(word);
        }
    }
    None
}

#[test]
fn reads_names(rt: HostRuntime) {
    assert_eq!(rt; accepted_name(), None);
    assert!(rt; read_dev(b"lo") == Ok(Dev::loopback()));
    assert!(rt; Dev::loopback().as_bytes() == b"lo".as_slice());
    assert_eq!(rt; misread_table(), None);
    assert_eq!(rt; misread_number(), None);
    assert!(rt; table_name(255) == Some("local") && table_name(100).is_none());
    assert!(rt; protocol_name(4) == Some("static") && scope_name(200) == Some("site"));
    assert!(rt; Kind::Throw.name() == "throw");
}

#[test]
fn compares_routes(rt: HostRuntime) {
    let far = route(ten_one(16), 100);
    let near = route(ten_one(16), 50);
    let short = route(ten_one(8), 1);
    assert!(rt; far.better(&short) && near.better(&far));
    assert!(rt; !short.better(&far) && !far.better(&near) && !far.better(&far));
    assert!(rt; far.key().metric == 100 && far.key().prefix.len() == 16);
    assert!(rt; far.listing_key() == (MAIN_TABLE, 0x0a01_0000, 16, 100));
}

/// Selects each route.
const ALL: Selector = Selector {
    table: None,
    range: Range::All,
    kind: None,
    proto: None,
    scope: None,
    dev: None,
};

/// Selects the routes of one table.
fn of_table(table: u32) -> Selector {
    Selector {
        table: Some(table),
        ..ALL
    }
}

/// Selects the routes of these prefixes.
fn in_range(range: Range) -> Selector {
    Selector { range, ..ALL }
}

/// Selects the routes of one kind.
fn of_kind(kind: Kind) -> Selector {
    Selector {
        kind: Some(kind),
        ..ALL
    }
}

/// Selects the routes through one interface.
fn through(dev: Dev) -> Selector {
    Selector {
        dev: Some(dev),
        ..ALL
    }
}

#[test]
fn selects_routes(rt: HostRuntime) {
    for (selector, taken) in [
        (ALL, true),
        (of_table(255), false),
        (in_range(Range::Root(ten_one(8))), true),
        (in_range(Range::Root(ten_one(24))), false),
        (in_range(Range::Covering(ten_one(24))), true),
        (in_range(Range::Exact(ten_one(8))), false),
        (of_kind(Kind::Throw), false),
        (through(Dev::loopback()), false),
    ] {
        assert!(rt; selector.takes(&route(ten_one(16), 100)) == taken);
    }
}

/// Chooses a route of main by its prefix alone.
fn any_of(prefix: Prefix) -> RouteChoice {
    RouteChoice {
        table: MAIN_TABLE,
        prefix,
        metric: None,
        kind: None,
        via: None,
        dev: None,
        src: None,
        proto: None,
        scope: None,
    }
}

/// Chooses a route of 10.1.0.0/16 by its metric.
fn of_metric(metric: u32) -> RouteChoice {
    RouteChoice {
        metric: Some(metric),
        ..any_of(ten_one(16))
    }
}

/// Chooses a route of 10.1.0.0/16 and metric 100 by its gateway and, if one is given, its source.
fn via_from(via: Addr, src: Option<Addr>) -> RouteChoice {
    RouteChoice {
        via: Some(via),
        src,
        ..of_metric(100)
    }
}

#[test]
fn chooses_routes(rt: HostRuntime) {
    for (choice, taken) in [
        (any_of(ten_one(16)), true),
        (any_of(ten_one(8)), false),
        (of_metric(0), true),
        (of_metric(50), false),
        (via_from(GATEWAY, None), true),
        (via_from(GATEWAY, Some(Addr(1))), false),
    ] {
        assert!(rt; choice.takes(&route(ten_one(16), 100)) == taken);
    }
}
