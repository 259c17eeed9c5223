use super::tables::{next_version, outcome, packet_of, version_after};
use prt_addr::Addr;
use prt_command::{Packet, Refusal};
use prt_partition::{
    Interfaces, PacketBox, Sameness, boxes, classes, find_change, fresh_name, joined_classes,
    outcome_of, spans,
};
use prt_route::{Kind, read_dev};
use prt_version::{Verdict, Version};
use std::alloc::Global;
use std::test::Fail;

/// Routes whose prefixes touch both ends of the addresses.
const ENDS: &str = "route add default dev a
route add 10.0.0.0/8 dev b
route add 255.255.255.255 dev c
route add 0.0.0.0/32 dev d";

/// A rule for each part of a selector.
const SELECTORS: &str = "rule add priority 5 from 10.0.0.0/8 table 100
rule add priority 6 iif eth0 table 100
rule add priority 7 fwmark 0x1/0x1 table 100
rule add priority 8 iif eth0 fwmark 0x3/0x3 table 100";

/// Checks the names of the interfaces that a packet leaves by, at the first destination of each span.
fn check_spans(version: &Version, wanted: &[(u32, &[u8])], alloc: Global) -> Result<bool, Fail> {
    let packet = packet_of("route get 198.51.100.1")?;
    let spans = spans(alloc, version, &packet)?;
    if spans.len() != wanted.len() {
        return Ok(false);
    }
    for (span, (first, name)) in spans.iter().zip(wanted) {
        let dev = outcome_of(&span.verdict).dev;
        if span.first != Addr(*first) || dev != Some(read_dev(name)?) {
            return Ok(false);
        }
    }
    Ok(true)
}

#[test]
fn spans_reach_both_ends(rt: HostRuntime) -> Result<(), Fail> {
    let version = version_after(rt.alloc(), ENDS)?;
    let wanted: [(u32, &[u8]); 5] = [
        (0, b"d"),
        (1, b"a"),
        (0x0a00_0000, b"b"),
        (0x0b00_0000, b"a"),
        (0xffff_ffff, b"c"),
    ];
    assert!(rt; check_spans(&version, &wanted, rt.alloc())?);
    Ok(())
}

#[test]
fn one_span_without_routes(rt: HostRuntime) -> Result<(), Fail> {
    let version = Version::opening(rt.alloc())?;
    let packet = packet_of("route get 198.51.100.1")?;
    let spans = spans(rt.alloc(), &version, &packet)?;
    assert_eq!(rt; spans.len(), 1);
    assert!(rt; matches!(spans[0].verdict, Verdict::NoRoute));
    Ok(())
}

/// Counts the boxes, classes and joined classes that the version's rules make.
fn counts(alloc: Global, version: &Version) -> Result<(usize, usize, usize), Refusal> {
    // The version's contract says how many rules there are at most.
    let _number = version.number();
    let rules = version.rules();
    let boxes = boxes(alloc, rules)?;
    let classes = classes(alloc, rules)?;
    let joined = joined_classes(alloc, rules)?;
    Ok((boxes.len(), classes.len(), joined.len()))
}

#[test]
fn counts_boxes_and_classes(rt: HostRuntime) -> Result<(), Fail> {
    for (script, wanted) in [
        // One box has all packets.
        ("", (1, 1, 1)),
        // Sources before, in and after the prefix; those before and after are taken alike.
        ("rule add from 10.0.0.0/8 table 100", (3, 3, 2)),
        ("rule add from 0.0.0.0/0 table 100", (1, 1, 1)),
        ("rule add from 255.255.255.255 table 100", (2, 2, 2)),
        // The interface, and all others.
        ("rule add not iif eth0 table 100", (2, 2, 2)),
        // Mark 0, and for each of the 32 bits the marks of which it is the highest.
        ("rule add fwmark 0/0xffffffff table 100", (33, 33, 2)),
        // 3 ranges, 2 interfaces, and 3 blocks: the lowest bit is 0, or the second one is 0 or 1 beside it.
        (SELECTORS, (18, 18, 10)),
    ] {
        let version = version_after(rt.alloc(), script)?;
        assert_eq!(rt; counts(rt.alloc(), &version)?, wanted, "after {script}");
    }
    Ok(())
}

/// Returns the boxes of the version's rules.
fn boxes_of(alloc: Global, version: &Version) -> Result<Vec<PacketBox>, Refusal> {
    // The version's contract says how many rules there are at most.
    let _number = version.number();
    boxes(alloc, version.rules())
}

/// Counts the boxes that have the packet.
fn boxes_with(alloc: Global, version: &Version, packet: &Packet) -> Result<usize, Refusal> {
    let boxes = boxes_of(alloc, version)?;
    let mut count = 0usize;
    for one in &boxes {
        if one.contains(version.rules(), packet) {
            count = count.saturating_add(1);
        }
    }
    Ok(count)
}

#[test]
fn each_packet_is_in_one_box(rt: HostRuntime) -> Result<(), Fail> {
    let version = version_after(rt.alloc(), SELECTORS)?;
    for line in [
        "route get 10.0.0.1",
        "route get 0.0.0.0 from 9.255.255.255 iif eth0 mark 1",
        "route get 0.0.0.0 from 10.0.0.0 iif eth0 mark 3",
        "route get 0.0.0.0 from 10.255.255.255 iif eth1 mark 0xffffffff",
        "route get 0.0.0.0 from 11.0.0.0 iif aaa mark 0xfffffffe",
        "route get 255.255.255.255 from 255.255.255.255 iif eth0 mark 2",
    ] {
        let packet = packet_of(line)?;
        assert_eq!(rt; boxes_with(rt.alloc(), &version, &packet)?, 1, "at {line}");
    }
    Ok(())
}

#[test]
fn boxes_name_interfaces(rt: HostRuntime) -> Result<(), Fail> {
    let version = version_after(rt.alloc(), "rule add iif eth0 table 100")?;
    let boxes = boxes_of(rt.alloc(), &version)?;
    assert_eq!(rt; boxes.len(), 2);
    assert_eq!(rt; boxes[0].interfaces, Interfaces::AllOthers);
    assert_eq!(rt; boxes[1].interfaces, Interfaces::Named(read_dev(b"eth0")?));
    assert_eq!(rt; (boxes[1].first, boxes[1].last), (Addr(0), Addr(u32::MAX)));
    Ok(())
}

#[test]
fn outcomes_leave_out_rules(rt: HostRuntime) -> Result<(), Fail> {
    let packet = packet_of("route get 10.0.0.1")?;
    for (script, other) in [
        (
            "route add blackhole 10.0.0.0/8",
            "rule add priority 9 blackhole",
        ),
        (
            "route add 10.0.0.0/8 via 192.0.2.1 metric 7",
            "route add default via 192.0.2.1 table 100\nrule add table 100",
        ),
    ] {
        let version = version_after(rt.alloc(), script)?;
        let second = version_after(rt.alloc(), other)?;
        assert_eq!(rt;
            outcome(&version, &packet),
            outcome(&second, &packet),
            "at {script}"
        );
    }
    let version = Version::opening(rt.alloc())?;
    assert_eq!(rt; outcome(&version, &packet).kind, None);
    let version = version_after(rt.alloc(), "rule add priority 9 prohibit")?;
    assert_eq!(rt; outcome(&version, &packet).kind, Some(Kind::Prohibit));
    Ok(())
}

/// Makes the version with a rule for each of this many single bits of marks.
fn version_of_bits(alloc: Global, bits: u32) -> Result<Version, Refusal> {
    let mut version = Version::opening(alloc)?;
    for bit in 0..bits {
        let mark = 1u32.wrapping_shl(bit);
        let line = format!(in alloc; "rule add priority 9 fwmark {mark}/{mark} table 100")?;
        version = next_version(&version, line.as_str())?;
    }
    Ok(version)
}

#[test]
fn too_many_boxes_are_refused(rt: HostRuntime) -> Result<(), Fail> {
    let version = version_of_bits(rt.alloc(), 10)?;
    assert_eq!(rt; boxes_of(rt.alloc(), &version)?.len(), 1024);
    let version = version_of_bits(rt.alloc(), 32)?;
    assert!(rt; matches!(boxes_of(rt.alloc(), &version), Err(Refusal::Full)));
    let other = version_of_bits(rt.alloc(), 31)?;
    let found = find_change(rt.alloc(), &other, &version, Sameness::Outcomes);
    assert!(rt; matches!(found, Err(Refusal::Full)));
    let found = find_change(rt.alloc(), &version, &version, Sameness::Outcomes)?;
    assert!(rt; found.is_none());
    Ok(())
}

/// Checks whether each box has its own packet.
fn have_their_packets(alloc: Global, version: &Version) -> Result<bool, Refusal> {
    // The version's contract says how many rules there are at most.
    let _number = version.number();
    let boxes = boxes_of(alloc, version)?;
    let fresh = fresh_name(alloc, version.rules())?;
    let mut all = true;
    for one in &boxes {
        all = all && one.contains(version.rules(), &one.packet(&fresh));
    }
    Ok(all)
}

#[test]
fn each_box_has_its_packet(rt: HostRuntime) -> Result<(), Fail> {
    for script in [
        SELECTORS,
        "rule add iif aaa table 100\nrule add not iif aab table 100",
    ] {
        let version = version_after(rt.alloc(), script)?;
        assert!(rt; have_their_packets(rt.alloc(), &version)?, "after {script}");
    }
    Ok(())
}
