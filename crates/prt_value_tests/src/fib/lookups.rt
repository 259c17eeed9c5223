use crate::partition::tables::{outcome, packet_of, version_after};
use prt_addr::Addr;
use prt_command::{Packet, Refusal};
use prt_fib::Fib;
use prt_route::{Kind, read_dev};
use prt_version::{Verdict, Version};
use std::alloc::Global;
use std::test::Fail;

/// Routes whose prefixes touch both ends of the addresses, of which two leave by one interface.
const ENDS: &str = "route add default dev a
route add 10.0.0.0/8 dev b
route add 255.255.255.255 dev c
route add 0.0.0.0/32 dev b";

/// Rules and routes of several tables, with all kinds of outcomes.
const TABLES: &str = "rule add priority 5 from 10.0.0.0/8 table 100
rule add priority 6 to 192.0.2.0/24 prohibit
rule add priority 7 iif eth0 fwmark 7 table 101
route add 10.0.0.0/8 via 192.0.2.1 dev eth0 table 100
route add 10.0.0.0/24 via 192.0.2.1 dev eth1 table 100
route add throw 10.128.0.0/9 table 100
route add blackhole 10.64.0.0/16 table 101
route add unreachable 10.65.0.0/16
route add 10.66.0.0/15 dev eth1 src 192.0.2.7
route add 10.66.0.0/16 dev eth1
route add 10.0.0.0/8 via 192.0.2.9";

/// Makes the table of this script, for the packet of this `route get`.
fn table_of(alloc: Global, script: &str, line: &str) -> Result<Fib, Refusal> {
    let version = version_after(alloc, script)?;
    Fib::new(alloc, &version, &packet_of(line)?)
}

#[test]
fn finds_the_spans_of_both_ends(rt: HostRuntime) -> Result<(), Fail> {
    let fib = table_of(rt.alloc(), ENDS, "route get 198.51.100.1")?;
    let wanted: [(u32, &[u8]); 8] = [
        (0, b"b"),
        (1, b"a"),
        (0x09ff_ffff, b"a"),
        (0x0a00_0000, b"b"),
        (0x0aff_ffff, b"b"),
        (0x0b00_0000, b"a"),
        (0xffff_fffe, b"a"),
        (0xffff_ffff, b"c"),
    ];
    for (dst, name) in wanted {
        let found = fib.find(Addr(dst));
        assert_eq!(rt; found.kind, Some(Kind::Unicast), "at {dst:x}");
        assert_eq!(rt; found.dev, Some(read_dev(name)?), "at {dst:x}");
    }
    Ok(())
}

#[test]
fn one_outcome_has_one_number(rt: HostRuntime) -> Result<(), Fail> {
    let fib = table_of(rt.alloc(), ENDS, "route get 198.51.100.1")?;
    assert_eq!(rt; fib.outcomes().len(), 3);
    assert_eq!(rt; fib.number(Addr(0)), fib.number(Addr(0x0a00_0001)));
    assert_ne!(rt; fib.number(Addr(0)), fib.number(Addr(1)));
    Ok(())
}

#[test]
fn finds_many(rt: HostRuntime) -> Result<(), Fail> {
    let fib = table_of(rt.alloc(), ENDS, "route get 198.51.100.1")?;
    let destinations = [Addr(1), Addr(0x0a00_0000), Addr(0xffff_ffff)];
    let mut numbers = [0xffff; 3];
    fib.find_many(&destinations, &mut numbers);
    for (dst, number) in destinations.iter().zip(numbers) {
        assert_eq!(rt; number, fib.number(*dst));
        assert!(rt; fib.outcomes().get(usize::from(number)) == Some(fib.find(*dst)));
    }
    Ok(())
}

#[test]
fn gives_the_route_itself(rt: HostRuntime) -> Result<(), Fail> {
    let fib = table_of(rt.alloc(), ENDS, "route get 198.51.100.1")?;
    let Verdict::Route(priority, route) = fib.select(Addr(0x0a00_0001)).verdict else {
        return Err(Fail::from("no route"));
    };
    assert_eq!(rt; priority, 32766);
    assert_eq!(rt; (route.prefix.bits(), route.prefix.len()), (0x0a00_0000, 8));
    Ok(())
}

#[test]
fn finds_one_span_without_routes(rt: HostRuntime) -> Result<(), Fail> {
    let fib = table_of(rt.alloc(), "", "route get 198.51.100.1")?;
    assert_eq!(rt; fib.outcomes().len(), 1);
    assert_eq!(rt; fib.find(Addr(0x0a00_0000)).kind, None);
    assert_eq!(rt; fib.find(Addr(u32::MAX)).kind, None);
    Ok(())
}

/// Counts the destinations for which the table and the version say the same: some hundred beside the cuts of `TABLES`, and
/// others all over the addresses.
fn count_same(version: &Version, fib: &Fib, packet: &Packet) -> u32 {
    let mut same = 0u32;
    for k in 0..2_000u32 {
        let spread = k.wrapping_mul(2_654_435_761);
        let dst = Addr(if k % 2 == 0 {
            spread
        } else {
            (spread & 0x00ff_0003).wrapping_add(0x09ff_fffe)
        });
        let mut one = *packet;
        one.dst = dst;
        if *fib.find(dst) == outcome(version, &one) {
            same = same.wrapping_add(1);
        }
    }
    same
}

#[test]
fn says_what_the_version_says(rt: HostRuntime) -> Result<(), Fail> {
    let version = version_after(rt.alloc(), TABLES)?;
    for line in [
        "route get 0.0.0.0",
        "route get 0.0.0.0 from 10.0.0.1",
        "route get 0.0.0.0 iif eth0 mark 7",
        "route get 0.0.0.0 from 10.0.0.1 iif eth0 mark 7",
        "route get 0.0.0.0 from 11.0.0.0 iif eth1 mark 7",
    ] {
        let packet = packet_of(line)?;
        let fib = Fib::new(rt.alloc(), &version, &packet)?;
        assert_eq!(rt; count_same(&version, &fib, &packet), 2_000, "at {line}");
    }
    Ok(())
}
