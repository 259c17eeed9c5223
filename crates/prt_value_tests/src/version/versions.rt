use super::script::{answer, commands_of, next_version, version_after};
use prt_command::Refusal;
use prt_listing::refusal_text;
use prt_route::{Addr, Dev, Kind};
use prt_version::{Change, Found, Packet, Version, opening_rules};
use std::alloc::Global;
use std::test::Fail;

const THROW: &str = "route add throw 10.0.0.0/8 table 100
rule add priority 500 table 100
route add default via 192.0.2.1";

const FAILURES: &str = "route add prohibit 10.2.0.0/16
rule add priority 11 iif eth1 unreachable
rule add not fwmark 51820 table 51820";

const METRICS: &str = "route add 10/8 via 192.0.2.1 metric 50
route add 10/8 via 192.0.2.1 metric 100
route del 10/8";

const REPLACED: &str = "route replace 10/8 via 192.0.2.1
route change blackhole 10/8
route replace 10/8 via 192.0.2.2 metric 5
route add 10/8 dev eth0 proto kernel scope link src 192.0.2.10 table 7";

const SUPPRESSED: &str = "rule add priority 5 suppress_prefixlength 8
route add 10/8 dev a1
route add blackhole 11/8
route add 10.1/16 dev a2";

const FLUSHED: &str = "rule flush
rule add table 7
rule del table local";

/// Finds the first of these queries that is not answered by the text beside it after its script.
fn misanswered_query(alloc: Global) -> Result<Option<&'static str>, Fail> {
    for (script, query, text) in [
        (
            THROW,
            "route get 10.1.2.3",
            "answer 3 rule 32766 table main default via 192.0.2.1",
        ),
        (
            FAILURES,
            "route get 10.2.0.1",
            "answer 3 rule 32766 table main prohibit 10.2.0.0/16",
        ),
        (
            FAILURES,
            "route get 10.2.0.1 iif eth1",
            "answer 3 rule 11 unreachable",
        ),
        (FAILURES, "route get 10.3.0.1", "answer 3 none"),
        (
            METRICS,
            "route show",
            "10.0.0.0/8 via 192.0.2.1 metric 100\n",
        ),
        (
            REPLACED,
            "route show table all",
            "10.0.0.0/8 dev eth0 table 7 proto kernel scope link src 192.0.2.10
blackhole 10.0.0.0/8
10.0.0.0/8 via 192.0.2.2 metric 5
",
        ),
        (FLUSHED, "rule show", "0:\tfrom all lookup 7\n"),
    ] {
        let version = version_after(alloc, script)?;
        if answer(alloc, &version, query)?.as_slice() != text.as_bytes() {
            return Ok(Some(query));
        }
    }
    Ok(None)
}

#[test]
fn answers_queries(rt: HostRuntime) -> Result<(), Fail> {
    assert_eq!(rt; misanswered_query(rt.alloc())?, None);
    Ok(())
}

/// Finds the first of these queries that is not answered by the text beside it if short prefixes are suppressed.
fn misanswered_suppression(alloc: Global) -> Result<Option<&'static str>, Fail> {
    let version = version_after(alloc, SUPPRESSED)?;
    for (query, text) in [
        (
            "route get 10.2",
            "answer 4 rule 32766 table main 10.0.0.0/8 dev a1 scope link",
        ),
        (
            "route get 10.1",
            "answer 4 rule 5 table main 10.1.0.0/16 dev a2 scope link",
        ),
        (
            "route get 11",
            "answer 4 rule 5 table main blackhole 11.0.0.0/8",
        ),
        (
            "rule show",
            "0:\tfrom all lookup local
5:\tfrom all lookup main suppress_prefixlength 8
32766:\tfrom all lookup main
32767:\tfrom all lookup default
",
        ),
    ] {
        if answer(alloc, &version, query)?.as_slice() != text.as_bytes() {
            return Ok(Some(query));
        }
    }
    Ok(None)
}

#[test]
fn suppresses_short_prefixes(rt: HostRuntime) -> Result<(), Fail> {
    assert_eq!(rt; misanswered_suppression(rt.alloc())?, None);
    let version = version_after(rt.alloc(), SUPPRESSED)?;
    let again = "rule add priority 5 suppress_prefixlength 8";
    assert!(rt; next_version(&version, again).err() == Some(Refusal::Exists));
    assert!(rt; next_version(&version, "rule add priority 5").is_ok());
    Ok(())
}

/// Finds the first of these commands after which a packet to 10.2.0.0 is not answered by the text beside it, as tables
/// get their first route and lose their last.
fn misanswered_filling(alloc: Global) -> Result<Option<&'static str>, Fail> {
    let mut version = Version::opening(alloc)?;
    for (line, text) in [
        (
            "route add 10/8 via 192.0.2.1 table default",
            "answer 1 rule 32767 table default 10.0.0.0/8 via 192.0.2.1",
        ),
        (
            "route add 10/8 via 192.0.2.2",
            "answer 2 rule 32766 table main 10.0.0.0/8 via 192.0.2.2",
        ),
        (
            "route add 10/8 via 192.0.2.3 table local",
            "answer 3 rule 0 table local 10.0.0.0/8 via 192.0.2.3",
        ),
        (
            "route del 10/8 table local",
            "answer 4 rule 32766 table main 10.0.0.0/8 via 192.0.2.2",
        ),
        (
            "route del 10/8",
            "answer 5 rule 32767 table default 10.0.0.0/8 via 192.0.2.1",
        ),
        ("route del 10/8 table default", "answer 6 none"),
    ] {
        version = next_version(&version, line)?;
        if answer(alloc, &version, "route get 10.2")?.as_slice() != text.as_bytes() {
            return Ok(Some(line));
        }
    }
    Ok(None)
}

#[test]
fn tries_rules_whose_tables_fill(rt: HostRuntime) -> Result<(), Fail> {
    assert_eq!(rt; misanswered_filling(rt.alloc())?, None);
    Ok(())
}

#[test]
fn lends_what_it_finds(rt: HostRuntime) -> Result<(), Fail> {
    let version = version_after(rt.alloc(), FAILURES)?;
    let packet = Packet {
        dst: Addr(0x0a02_0001),
        src: Addr(0),
        iif: Dev::loopback(),
        mark: 0,
    };
    let found = version.find(&packet);
    assert!(rt;
        matches!(found, Found::Route(32766, route) if route.kind == Kind::Prohibit && route.prefix.len() == 16)
    );
    assert!(rt;
        matches!(found.verdict().lend(), Found::Route(32766, route) if route.kind == Kind::Prohibit)
    );
    let elsewhere = Packet {
        dst: Addr(0x0a03_0001),
        ..packet
    };
    assert!(rt; matches!(version.find(&elsewhere), Found::NoRoute));
    Ok(())
}

/// Finds the first of these lines that the version does not refuse with the refusal beside it.
fn misjudged_line(version: &Version) -> Option<&'static str> {
    for (line, why) in [
        ("route add 10/8 dev eth0", Refusal::Exists),
        ("rule add priority 32765 table 7", Refusal::Exists),
        ("route change 10/8 dev eth0 metric 1", Refusal::NoSuch),
        ("rule del priority 7", Refusal::NoSuch),
    ] {
        if next_version(version, line).err() != Some(why) {
            return Some(line);
        }
    }
    None
}

#[test]
fn refuses_commands(rt: HostRuntime) -> Result<(), Fail> {
    let version = version_after(rt.alloc(), "route add 10/8 via 192.0.2.1\nrule add table 7")?;
    assert!(rt; version.number() == 2);
    assert_eq!(rt; misjudged_line(&version), None);
    let mut out = Vec::from_slice(rt.alloc(), b"1: ")?;
    refusal_text(&mut out, &Refusal::NoSuch)?;
    assert!(rt; out.as_slice() == b"1: error 22 NoSuch".as_slice());
    Ok(())
}

#[test]
fn makes_commands_together(rt: HostRuntime) -> Result<(), Fail> {
    let alloc = rt.alloc();
    let opening = Version::opening(alloc)?;
    let commands = commands_of(alloc, "route add 10/8 dev a1\nrule add table 7")?;
    let (changes, last) = opening.after_all(&commands)?;
    assert!(rt; changes.len() == 2 && last.number() == 2);
    assert!(rt; matches!(changes.first(), Some(Change::RouteAdd(_))));
    assert!(rt; matches!(changes.last(), Some(Change::RulePut(rule)) if rule.id == 5));
    let refused = commands_of(alloc, "route add 10/8 dev a1\nroute add 10/8 dev a2")?;
    assert!(rt; opening.after_all(&refused).err() == Some(Refusal::Exists));
    assert!(rt; opening.number() == 0 && opening.rules() == opening_rules().as_slice());
    Ok(())
}
