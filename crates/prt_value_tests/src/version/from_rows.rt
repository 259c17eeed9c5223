use super::script::{answer, version_after};
use prt_command::{Action, Addr, Kind, Prefix, Range, Refusal, Route, Rule, Selector};
use prt_version::{MOST_COMMANDS, Version};
use std::alloc::Global;
use std::test::Fail;

const SCRIPT: &str = "route add default via 192.0.2.1
route add 10/8 dev eth0 table 100
route add 10.1/16 dev eth0 table 100
route add 10/8 dev eth0 metric 7 table 100
route add throw 10.2/16 table 7
rule add priority 500 iif eth0 fwmark 7 table 100
rule add priority 500 iif eth1 fwmark 7 table 100 suppress_prefixlength 32
rule add not from 10/8 prohibit";

const ALL_ROUTES: Selector = Selector {
    table: None,
    range: Range::All,
    kind: None,
    proto: None,
    scope: None,
    dev: None,
};

/// Returns the version that the rows of another one encode, in the opposite order.
fn read_back(alloc: Global, version: &Version) -> Result<Version, Fail> {
    let mut rules = Vec::from_slice(alloc, version.rules())?;
    rules.reverse();
    let mut routes = version.routes(&ALL_ROUTES)?;
    routes.reverse();
    Ok(Version::from_rows(alloc, version.number(), rules, routes)?)
}

/// Finds the first of these queries that is answered differently once a version is read back.
fn misread_query(alloc: Global) -> Result<Option<&'static str>, Fail> {
    let version = version_after(alloc, SCRIPT)?;
    let other = read_back(alloc, &version)?;
    for query in [
        "rule show",
        "route show table all",
        "route get 10.1.2.3 iif eth0 mark 7",
        "route get 10.2.0.1",
    ] {
        let text = answer(alloc, &version, query)?;
        if answer(alloc, &other, query)?.as_slice() != text.as_slice() {
            return Ok(Some(query));
        }
    }
    Ok(None)
}

#[test]
fn reads_rows(rt: HostRuntime) -> Result<(), Fail> {
    assert_eq!(rt; misread_query(rt.alloc())?, None);
    Ok(())
}

/// Makes a rule that looks up main for every packet.
fn rule(id: u64, priority: u32) -> Rule {
    Rule {
        id,
        priority,
        inverted: false,
        from: Prefix::masked(0, 0),
        to: Prefix::masked(0, 0),
        iif: None,
        mark: None,
        action: Action::Lookup(254),
        suppress: None,
    }
}

/// Makes a default route through this address.
fn route(table: u32, via: u32) -> Route {
    Route {
        table,
        prefix: Prefix::masked(0, 0),
        metric: 0,
        kind: Kind::Unicast,
        via: Some(Addr(via)),
        dev: None,
        src: None,
        proto: 3,
        scope: 0,
    }
}

/// Checks whether the rows are refused because they encode no state.
fn are_damaged(alloc: Global, number: u64, rules: &[Rule], routes: &[Route]) -> Result<bool, Fail> {
    let rules = Vec::from_slice(alloc, rules)?;
    let routes = Vec::from_slice(alloc, routes)?;
    let refusal = Version::from_rows(alloc, number, rules, routes).err();
    Ok(refusal == Some(Refusal::Damaged))
}

/// Returns what is wrong with the first of these rows that are not refused so.
fn undamaged_rows(alloc: Global) -> Result<Option<&'static str>, Fail> {
    let rules = [rule(2, 7), rule(1, 8)];
    let same_ids = [rule(1, 7), rule(2, 8), rule(1, 9)];
    let same_rules = [rule(1, 7), rule(2, 8), rule(3, 7)];
    let routes = [route(7, 1), route(6, 1)];
    let same_keys = [route(7, 1), route(6, 1), route(7, 2)];
    let no_lookup = Rule {
        action: Action::Lookup(0),
        ..rule(1, 7)
    };
    let long = Rule {
        suppress: Some(33),
        ..rule(1, 7)
    };
    let no_lookup_suppresses = Rule {
        action: Action::Prohibit,
        suppress: Some(0),
        ..rule(1, 7)
    };
    let no_next_hop = Route {
        via: None,
        ..route(7, 1)
    };
    let scoped = Route {
        kind: Kind::Blackhole,
        scope: 253,
        ..no_next_hop
    };
    for (what, number, rules, routes) in [
        (
            "count",
            MOST_COMMANDS + 1,
            rules.as_slice(),
            routes.as_slice(),
        ),
        ("keys", 0, rules.as_slice(), same_keys.as_slice()),
        ("table", 0, rules.as_slice(), [route(0, 1)].as_slice()),
        ("next hop", 0, rules.as_slice(), [no_next_hop].as_slice()),
        ("scope", 0, rules.as_slice(), [scoped].as_slice()),
        ("lookup", 0, [no_lookup].as_slice(), routes.as_slice()),
        ("length", 0, [long].as_slice(), routes.as_slice()),
        (
            "suppressing",
            0,
            [no_lookup_suppresses].as_slice(),
            routes.as_slice(),
        ),
        ("id", 0, [rule(4, 7)].as_slice(), routes.as_slice()),
        ("ids", 0, same_ids.as_slice(), routes.as_slice()),
        ("rules", 0, same_rules.as_slice(), routes.as_slice()),
    ] {
        if !are_damaged(alloc, number, rules, routes)? {
            return Ok(Some(what));
        }
    }
    Ok(None)
}

#[test]
fn refuses_damaged_rows(rt: HostRuntime) -> Result<(), Fail> {
    assert!(rt;
        !are_damaged(
            rt.alloc(),
            0,
            &[rule(2, 7), rule(1, 8)],
            &[route(7, 1), route(6, 1)]
        )?
    );
    assert_eq!(rt; undamaged_rows(rt.alloc())?, None);
    Ok(())
}
