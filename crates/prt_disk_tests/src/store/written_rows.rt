//! Rows of the four tables: what is written is read back, and values out of range are refused.

use prt_command::{Action, Addr, Dev, Kind, Mark, Prefix, Range, Refusal, Route, Rule, Selector};
use prt_rows::{
    RuleLength, count_in_format_1, count_of_rows, length_of_row, length_values, lengths_of_rows,
    meta_values, route_of_row, route_values, routes_of_rows, rule_of_row, rule_values,
    rules_of_rows, selector_values,
};
use sqlite::Row;
use sqlite::types::ValueRef;
use sqlite_exec::work::FromRow;
use sqlite_value::row;
use std::alloc::{AllocError, Global};
use std::test::Fail;

/// A row of these values.
fn row(alloc: Global, values: &[ValueRef<'_>]) -> Result<Row, AllocError> {
    let mut cells = row::Row::new(alloc);
    for value in values {
        cells.push(*value)?;
    }
    Row::from_row(alloc, &cells)
}

/// A row of the table `route` of this rowid and these values.
fn kept(alloc: Global, rowid: i64, values: &[ValueRef<'_>; 10]) -> Result<Row, AllocError> {
    let [tbl, net, len, metric, kind, via, dev, src, proto, scope] = *values;
    let rowid = ValueRef::Int(rowid);
    row(
        alloc,
        &[
            rowid, tbl, net, len, metric, kind, via, dev, src, proto, scope,
        ],
    )
}

/// `blackhole 10.0.0.0/8 table 100 metric 4294967295`.
const BLACKHOLE: [ValueRef<'static>; 10] = [
    ValueRef::Int(100),
    ValueRef::Int(0x0a00_0000),
    ValueRef::Int(8),
    ValueRef::Int(4_294_967_295),
    ValueRef::Int(6),
    ValueRef::Int(-1),
    ValueRef::Text(&[]),
    ValueRef::Int(-1),
    ValueRef::Int(3),
    ValueRef::Int(0),
];

#[test]
fn reads_back_what_it_writes(rt: HostRuntime) -> Result<(), Fail> {
    let route = Route {
        table: 254,
        prefix: Prefix::masked(0xc000_0200, 24),
        metric: 100,
        kind: Kind::Unicast,
        via: None,
        dev: Some(Dev::loopback()),
        src: Some(Addr(0xc000_020a)),
        proto: 2,
        scope: 253,
    };
    let rule = Rule {
        id: 4,
        priority: 32765,
        inverted: true,
        from: Prefix::masked(0, 0),
        to: Prefix::masked(0x0a00_0000, 8),
        iif: None,
        mark: Some(Mark {
            mark: 0xca6c,
            mask: 0xffff_ffff,
        }),
        action: Action::Lookup(51820),
        suppress: None,
    };
    let alloc = rt.alloc();
    let route_row = kept(alloc, -7, &route_values(&route))?;
    let rule_row = row(alloc, &rule_values(&rule))?;
    let meta_row = row(alloc, &meta_values(1_000_000_000_000_000))?;
    assert_eq!(rt; route_of_row(&route_row), Some(route));
    assert_eq!(rt; rule_of_row(&rule_row, 4), Some(rule));
    assert_eq!(rt; rule_of_row(&rule_row, 3), None);
    assert_eq!(rt; count_of_rows(&[meta_row]), Some(1_000_000_000_000_000));
    Ok(())
}

#[test]
fn refuses_routes_out_of_range(rt: HostRuntime) -> Result<(), Fail> {
    let alloc = rt.alloc();
    for (at, value) in [
        (0, ValueRef::Int(-1)),
        (1, ValueRef::Int(0x0a00_0001)),
        (2, ValueRef::Int(33)),
        (3, ValueRef::Int(4_294_967_296)),
        (4, ValueRef::Int(2)),
        (6, ValueRef::Text(b"a/b")),
        (7, ValueRef::Int(-2)),
        (8, ValueRef::Text(b"3")),
        (9, ValueRef::Int(256)),
    ] {
        let mut values = BLACKHOLE;
        values[at] = value;
        assert!(rt; route_of_row(&kept(alloc, 1, &values)?).is_none(), "{at}");
    }
    assert!(rt; route_of_row(&kept(alloc, 1, &BLACKHOLE)?).is_some());
    Ok(())
}

/// `from 10.0.0.0/8 fwmark 0x10 iif lo lookup 100`, with priority 500 and id 4.
const LOOKUP: [ValueRef<'static>; 12] = [
    ValueRef::Int(4),
    ValueRef::Int(500),
    ValueRef::Int(0),
    ValueRef::Int(0x0a00_0000),
    ValueRef::Int(8),
    ValueRef::Int(0),
    ValueRef::Int(0),
    ValueRef::Text(b"lo"),
    ValueRef::Int(16),
    ValueRef::Int(4_294_967_295),
    ValueRef::Int(1),
    ValueRef::Int(100),
];

#[test]
fn refuses_rules_out_of_range(rt: HostRuntime) -> Result<(), Fail> {
    let alloc = rt.alloc();
    for (at, value) in [
        (0, ValueRef::Int(0)),
        (0, ValueRef::Int(5)),
        (1, ValueRef::Int(-1)),
        (2, ValueRef::Int(2)),
        (3, ValueRef::Int(0x0a00_0001)),
        (6, ValueRef::Int(33)),
        (7, ValueRef::Text(b"sixteen-bytes-xy")),
        (8, ValueRef::Int(-1)),
        (10, ValueRef::Int(6)),
    ] {
        let mut values = LOOKUP;
        values[at] = value;
        assert!(rt; rule_of_row(&row(alloc, &values)?, 4).is_none(), "{at}");
    }
    assert!(rt; rule_of_row(&row(alloc, &LOOKUP)?, 4).is_some());
    Ok(())
}

#[test]
fn reads_whole_tables(rt: HostRuntime) -> Result<(), Fail> {
    let alloc = rt.alloc();
    let routes = [kept(alloc, 4, &BLACKHOLE)?, kept(alloc, 9, &BLACKHOLE)?];
    let repeated = [kept(alloc, 4, &BLACKHOLE)?, kept(alloc, 4, &BLACKHOLE)?];
    let rules = [row(alloc, &LOOKUP)?];
    let counts = [row(alloc, &meta_values(0))?, row(alloc, &meta_values(0))?];
    assert_eq!(rt; routes_of_rows(alloc, &routes)?.len(), 2);
    assert_eq!(rt; rules_of_rows(alloc, &rules, 4)?.len(), 1);
    assert_eq!(rt; routes_of_rows(alloc, &rules).err(), Some(Refusal::Damaged));
    assert_eq!(rt;
        routes_of_rows(alloc, &repeated).err(),
        Some(Refusal::Damaged)
    );
    assert_eq!(rt;
        rules_of_rows(alloc, &rules, 3).err(),
        Some(Refusal::Damaged)
    );
    assert_eq!(rt; count_of_rows(&counts), None);
    Ok(())
}

#[test]
fn reads_lengths_and_the_former_format(rt: HostRuntime) -> Result<(), Fail> {
    let alloc = rt.alloc();
    let written = row(alloc, &length_values(&RuleLength { rule: 4, len: 32 }))?;
    let read = length_of_row(&written, 4).map(|length| (length.rule, length.len));
    assert_eq!(rt; read, Some((4, 32)));
    assert!(rt; length_of_row(&written, 3).is_none());
    let longer = [row(alloc, &[ValueRef::Int(4), ValueRef::Int(33)])?];
    assert_eq!(rt;
        lengths_of_rows(alloc, &longer, 4).err(),
        Some(Refusal::Damaged)
    );
    assert_eq!(rt; lengths_of_rows(alloc, &[written], 4)?.len(), 1);
    let former = [row(
        alloc,
        &[ValueRef::Int(1), ValueRef::Int(1), ValueRef::Int(7)],
    )?];
    assert_eq!(rt; count_in_format_1(&former), Some(7));
    assert_eq!(rt; count_of_rows(&former), None);
    Ok(())
}

#[test]
fn writes_selectors_as_parameters(rt: HostRuntime) -> Result<(), Fail> {
    let selector = Selector {
        table: None,
        range: Range::Root(Prefix::masked(0x0a01_0000, 16)),
        kind: Some(Kind::Throw),
        proto: Some(4),
        scope: None,
        dev: None,
    };
    let told = row(rt.alloc(), &selector_values(&selector))?;
    let wanted = [-1, 0x0a01_0000, 0x0a01_ffff, 16, 32, 0, 9, 4, -1];
    for (at, value) in wanted.iter().enumerate() {
        assert_eq!(rt; told.get::<i64>(at)?, *value, "{at}");
    }
    assert!(rt; matches!(told.get_ref(9)?, ValueRef::Text(&[])));
    Ok(())
}
