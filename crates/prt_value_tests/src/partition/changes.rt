use super::tables::{outcome, packet_of, version_after};
use prt_addr::Addr;
use prt_command::{Packet, Refusal};
use prt_partition::{Difference, Sameness, changes, find_change, what_differs};
use prt_route::read_dev;
use std::alloc::Global;
use std::test::Fail;

const TWO_DEFAULTS: &str = "route add default dev a
route add default dev b table 100
rule add priority 5 table main suppress_prefixlength 0
rule add priority 6 table 100";

const TWO_DEFAULTS_IN_TURN: &str = "route add default dev a
route add default dev b table 100
rule add priority 5 table main
rule add priority 6 table 100";

const TWO_DEFAULTS_WITH_NETWORK: &str = "route add default dev a
route add default dev b table 100
route add 10.0.0.0/8 dev a
rule add priority 5 table main suppress_prefixlength 0
rule add priority 6 table 100";

const THROW: &str = "route add default dev a
route add default dev b table 100
route add throw 10.0.0.0/8 table 100
rule add priority 5 table 100";

const NO_THROW: &str = "route add default dev a
route add default dev b table 100
rule add priority 5 table 100";

/// Finds the destinations at which the packet's answers after the scripts are not the same.
fn changes_between(
    alloc: Global,
    before: &str,
    after: &str,
    sameness: Sameness,
    packet: &Packet,
) -> Result<Vec<Difference>, Refusal> {
    let before = version_after(alloc, before)?;
    let after = version_after(alloc, after)?;
    let differing = what_differs(alloc, &before, &after)?;
    changes(alloc, &before, &after, &differing, sameness, packet)
}

/// Checks whether the changes are in these ranges.
fn are_ranges(changes: &[Difference], wanted: &[(u32, u32)]) -> bool {
    changes.len() == wanted.len()
        && changes.iter().zip(wanted).all(|(change, (first, last))| {
            change.first == Addr(*first) && change.last == Addr(*last)
        })
}

#[test]
fn changes_have_exact_ends(rt: HostRuntime) -> Result<(), Fail> {
    let packet = packet_of("route get 0.0.0.0")?;
    let cases: [(&str, &str, &[(u32, u32)]); 7] = [
        ("", "", &[]),
        ("", "route add default dev a", &[(0, u32::MAX)]),
        ("", "route add 0.0.0.0/32 dev a", &[(0, 0)]),
        (
            "",
            "route add 255.255.255.255 dev a",
            &[(u32::MAX, u32::MAX)],
        ),
        (
            "route add 10.0.0.0/8 dev a",
            "route add 10.0.0.0/8 dev a\nroute add default dev b",
            &[(0, 0x09ff_ffff), (0x0b00_0000, u32::MAX)],
        ),
        (
            TWO_DEFAULTS,
            TWO_DEFAULTS_WITH_NETWORK,
            &[(0x0a00_0000, 0x0aff_ffff)],
        ),
        (THROW, NO_THROW, &[(0x0a00_0000, 0x0aff_ffff)]),
    ];
    for (before, after, wanted) in cases {
        let found = changes_between(rt.alloc(), before, after, Sameness::Outcomes, &packet)?;
        assert!(rt; are_ranges(&found, wanted), "after {after}");
    }
    Ok(())
}

#[test]
fn verdicts_differ_where_outcomes_do_not(rt: HostRuntime) -> Result<(), Fail> {
    let packet = packet_of("route get 0.0.0.0")?;
    for (before, after) in [
        (
            "route add 10.0.0.0/8 dev a",
            "route add 10.0.0.0/8 dev a proto static",
        ),
        (
            "route add 10.0.0.0/8 dev a",
            "route add 10.0.0.0/8 dev a metric 3",
        ),
    ] {
        let found = changes_between(rt.alloc(), before, after, Sameness::Outcomes, &packet)?;
        assert_eq!(rt; found.len(), 0);
        let found = changes_between(rt.alloc(), before, after, Sameness::Verdicts, &packet)?;
        assert!(rt; are_ranges(&found, &[(0x0a00_0000, 0x0aff_ffff)]));
    }
    Ok(())
}

#[test]
fn finds_no_change(rt: HostRuntime) -> Result<(), Fail> {
    for (before, after) in [
        ("", ""),
        (TWO_DEFAULTS, TWO_DEFAULTS),
        // Ids of rules differ, and nothing else.
        (
            "rule add priority 5 blackhole",
            "route add 10.0.0.0/8 dev a\nroute del 10.0.0.0/8\nrule add priority 5 blackhole",
        ),
        // Both halves of the interfaces go one way.
        (
            "rule add priority 5 blackhole",
            "rule add priority 5 iif eth0 blackhole\nrule add priority 6 not iif eth0 blackhole",
        ),
        // Both values of a bit of the marks go one way.
        (
            "rule add priority 5 blackhole",
            "rule add priority 5 fwmark 0/0x80000000 blackhole\nrule add priority 6 fwmark 0x80000000/0x80000000 blackhole",
        ),
        // A rule that another one is always tried before.
        (
            "rule add priority 5 from 10.0.0.0/8 blackhole",
            "rule add priority 5 from 10.0.0.0/8 blackhole\nrule add priority 6 from 10.1.0.0/16 prohibit",
        ),
        // A table that no rule looks up.
        ("", "route add default dev a table 77"),
    ] {
        let was = version_after(rt.alloc(), before)?;
        let is = version_after(rt.alloc(), after)?;
        let found = find_change(rt.alloc(), &was, &is, Sameness::Outcomes)?;
        assert!(rt; found.is_none(), "after {after}");
    }
    Ok(())
}

/// Finds a packet that goes another way, if there is one: it is checked by its two answers.
fn checked_change(alloc: Global, before: &str, after: &str) -> Result<Option<Packet>, Refusal> {
    let was = version_after(alloc, before)?;
    let is = version_after(alloc, after)?;
    let found = find_change(alloc, &was, &is, Sameness::Outcomes)?;
    match found {
        Some(packet) if outcome(&was, &packet) != outcome(&is, &packet) => Ok(Some(packet)),
        _ => Ok(None),
    }
}

#[test]
fn finds_the_only_destination(rt: HostRuntime) -> Result<(), Fail> {
    for (before, after, dst) in [
        ("", "route add blackhole 255.255.255.255", u32::MAX),
        ("", "route add blackhole 0.0.0.0/32", 0),
        ("", "rule add priority 5 to 10.1.2.3 blackhole", 0x0a01_0203),
    ] {
        let found = checked_change(rt.alloc(), before, after)?;
        assert!(rt;
            matches!(found, Some(packet) if packet.dst == Addr(dst)),
            "after {after}"
        );
    }
    for (before, after) in [(TWO_DEFAULTS, TWO_DEFAULTS_IN_TURN), (THROW, NO_THROW)] {
        assert!(rt;
            checked_change(rt.alloc(), before, after)?.is_some(),
            "after {after}"
        );
    }
    Ok(())
}

#[test]
fn finds_the_only_source_interface_or_mark(rt: HostRuntime) -> Result<(), Fail> {
    let eth0 = read_dev(b"eth0")?;
    let found = checked_change(
        rt.alloc(),
        "",
        "rule add priority 5 from 255.255.255.255 blackhole",
    )?;
    assert!(rt; matches!(found, Some(packet) if packet.src == Addr(u32::MAX)));
    let found = checked_change(rt.alloc(), "", "rule add priority 5 iif eth0 blackhole")?;
    assert!(rt; matches!(found, Some(packet) if packet.iif == eth0));
    let found = checked_change(rt.alloc(), "", "rule add priority 5 not iif eth0 blackhole")?;
    assert!(rt; matches!(found, Some(packet) if packet.iif != eth0));
    let found = checked_change(
        rt.alloc(),
        "",
        "rule add priority 5 fwmark 0/0xffffffff blackhole",
    )?;
    assert!(rt; matches!(found, Some(packet) if packet.mark == 0));
    let found = checked_change(
        rt.alloc(),
        "rule add priority 5 fwmark 0x10/0xf0 prohibit",
        "rule add priority 5 fwmark 0x10/0xf0 prohibit\nrule add priority 6 fwmark 0x11/0x1f blackhole",
    )?;
    assert!(rt;
        matches!(found, Some(packet) if packet.mark & 0x1f == 0x11 && packet.mark & 0xf0 != 0x10)
    );
    let found = checked_change(
        rt.alloc(),
        "rule add priority 5 from 10.0.0.0/8 blackhole\nrule add priority 5 from 10.1.0.0/16 prohibit",
        "rule add priority 5 from 10.1.0.0/16 prohibit\nrule add priority 5 from 10.0.0.0/8 blackhole",
    )?;
    assert!(rt; matches!(found, Some(packet) if packet.src.0 >> 16 == 0x0a01));
    Ok(())
}

#[test]
fn finds_changes_of_verdicts(rt: HostRuntime) -> Result<(), Fail> {
    let was = version_after(rt.alloc(), "rule add priority 5 blackhole")?;
    let is = version_after(rt.alloc(), "rule add priority 6 blackhole")?;
    assert!(rt; find_change(rt.alloc(), &was, &is, Sameness::Outcomes)?.is_none());
    assert!(rt; find_change(rt.alloc(), &was, &is, Sameness::Verdicts)?.is_some());
    Ok(())
}
