ghost use Rattle.std.specs.Prelude.{◌≡◌};

use crate::partition::tables::{next_version, outcome, packet_of, version_after};
use prt_addr::Addr;
use prt_command::{Command, Packet, Refusal, Request, read_line};
use prt_fib::{Fib, PolicyFib};
use prt_route::read_dev;
use prt_version::Version;
use std::alloc::Global;
use std::test::Fail;

/// Rules and routes of several tables, with all kinds of outcomes.
const TABLES: &str = "rule add priority 5 from 10.0.0.0/8 table 100
rule add priority 6 to 192.0.2.0/24 prohibit
rule add priority 7 iif eth0 fwmark 7 table 101
route add 10.0.0.0/8 via 192.0.2.1 dev eth0 table 100
route add 10.0.0.0/24 via 192.0.2.1 dev eth1 table 100
route add throw 10.128.0.0/9 table 100
route add blackhole 10.64.0.0/16 table 101
route add unreachable 10.65.0.0/16
route add 10.66.0.0/15 dev eth1 src 192.0.2.7
route add 10.66.0.0/16 dev eth1
route add 10.0.0.0/8 via 192.0.2.9";

/// Changes of one prefix inside a first octet, at both of its ends, of all prefixes, of rules, and of many routes.
const CHANGES: &str = "route add 10.64.0.0/12 via 192.0.2.3
route replace 10.0.0.0/8 via 192.0.2.4
route del 10.66.0.0/16
route add 10.66.0.0/16 dev eth1 metric 3
route add 10.255.255.255 dev eth2
route add 10.0.0.0 dev eth2 table 100
route replace default via 192.0.2.5
route del throw 10.128.0.0/9 table 100
route add 9.255.255.255 dev eth3
route add 11.0.0.0/9 dev eth3
rule add priority 4 from 10.1.0.0/16 to 10.2.0.0/16 blackhole
route add 10.2.0.0/15 dev eth4
rule del priority 5 from 10.0.0.0/8 table 100
route flush table 101
route add 10.2.0.0/17 dev eth5
route add 255.255.255.255 dev eth5
route add 0.0.0.0 dev eth5";

/// Packets of several classes.
const PACKETS: [&str; 5] = [
    "route get 0.0.0.0",
    "route get 0.0.0.0 from 10.0.0.1",
    "route get 0.0.0.0 iif eth0 mark 7",
    "route get 0.0.0.0 from 10.1.0.1 iif eth0 mark 7",
    "route get 0.0.0.0 from 11.0.0.0 iif eth1 mark 7",
];

/// Reads the command of this line.
fn command_of(line: &str) -> Result<Command, Refusal> {
    match read_line(line.as_bytes())? {
        Some(Request::Command(command)) => Ok(command),
        _ => Err(Refusal::UnknownVerb),
    }
}

/// Builds the tables after a line.
fn follow_line(alloc: Global, tables: &PolicyFib, line: &str) -> Result<PolicyFib, Refusal> {
    match command_of(line) {
        Ok(command) => tables.follow(alloc, &command),
        Err(reason) => Err(reason),
    }
}

/// Builds the compiled table after a line, of the version that it was compiled from.
fn after_line(alloc: Global, fib: &Fib, version: &Version, line: &str) -> Result<Fib, Refusal>
    requires { fib.now.state ≡ version.now }
{
    let command = match command_of(line) {
        Ok(command) => command,
        Err(reason) => return Err(reason),
    };
    let change = match version.check(&command) {
        Ok(change) => change,
        Err(reason) => return Err(reason),
    };
    let next = match version.next(&change) {
        Ok(next) => next,
        Err(reason) => return Err(reason),
    };
    fib.after(alloc, &next, &change)
}

/// Counts the destinations of 500 for which the tables say what the version says.
fn count_same(tables: &PolicyFib, packet: &Packet) -> u32 {
    let mut same = 0u32;
    for k in 0..500u32 {
        let spread = k.wrapping_mul(2_654_435_761);
        let mut one = *packet;
        one.dst = Addr(if k % 2 == 0 {
            spread
        } else {
            (spread & 0x00ff_0003).wrapping_add(0x09ff_fffe)
        });
        if *tables.find(&one) == outcome(tables.version(), &one) {
            same = same.wrapping_add(1);
        }
    }
    same
}

#[test]
fn follows_changes_of_all_kinds(rt: HostRuntime) -> Result<(), Fail> {
    let mut tables = PolicyFib::new(rt.alloc(), &version_after(rt.alloc(), TABLES)?)?;
    for line in CHANGES.lines() {
        tables = follow_line(rt.alloc(), &tables, line)?;
        for packet in PACKETS {
            let same = count_same(&tables, &packet_of(packet)?);
            assert_eq!(rt; same, 500, "{packet} after {line}");
        }
    }
    Ok(())
}

#[test]
fn follows_one_route(rt: HostRuntime) -> Result<(), Fail> {
    let before = version_after(rt.alloc(), TABLES)?;
    let fib = Fib::new(rt.alloc(), &before, &packet_of("route get 0.0.0.0")?)?;
    let after = after_line(rt.alloc(), &fib, &before, "route add 10.9.0.0/16 dev eth9")?;
    assert_eq!(rt; after.find(Addr(0x0a09_ffff)).dev, Some(read_dev(b"eth9")?));
    assert_eq!(rt; after.find(Addr(0x0a0a_0000)).via, Some(Addr(0xc000_0209)));
    assert_eq!(rt; fib.find(Addr(0x0a09_ffff)).via, Some(Addr(0xc000_0209)));
    Ok(())
}

#[test]
fn refuses_too_many_classes(rt: HostRuntime) -> Result<(), Fail> {
    let mut version = version_after(rt.alloc(), "")?;
    for net in 0..64u32 {
        let line = format!(in rt.alloc(); "rule add from 10.0.{net}.0/24 table {}", net + 1)?;
        version = next_version(&version, &line)?;
    }
    let Err(reason) = PolicyFib::new(rt.alloc(), &version) else {
        return Err(Fail::from("it was accepted"));
    };
    assert_eq!(rt; reason, Refusal::Full);
    Ok(())
}
