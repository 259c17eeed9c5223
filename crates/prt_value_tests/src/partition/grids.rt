//! Changes against the answers to a grid of packets, one by one.
use super::tables::{outcome, packet_of, version_after};
use prt_addr::Addr;
use prt_command::{Packet, Refusal};
use prt_partition::{Difference, Sameness, changes, find_change, outcome_of, what_differs};
use prt_version::Version;
use std::alloc::Global;
use std::test::Fail;

const SCRIPTS: [&str; 8] = [
    "",
    "route add default via 192.0.2.1 dev eth0
rule add not fwmark 51820 table 51820
rule add table main suppress_prefixlength 0
route add default dev wg0 table 51820
route add 192.0.2.0/24 dev eth0",
    "route add default via 192.0.2.1 dev eth0
route add 192.0.2.0/24 dev eth0
rule add not fwmark 51820 table 51820
route add default dev wg0 table 51820",
    "route add 10.0.0.0/8 dev a
route add 10.128.0.0/9 dev b
rule add priority 5 from 10.0.0.0/8 iif eth0 prohibit
rule add priority 5 not from 10.0.0.0/9 to 10.0.0.0/8 table 100
route add throw 10.192.0.0/10 table 100
route add blackhole 10.128.0.0/9 table 100",
    "route add 10.0.0.0/8 dev a
rule add priority 5 not from 10.0.0.0/9 to 10.0.0.0/8 table 100
rule add priority 5 from 10.0.0.0/8 iif eth0 prohibit
route add blackhole 10.128.0.0/9 table 100",
    "rule add priority 5 fwmark 0x1/0x3 blackhole
rule add priority 6 fwmark 0x2/0x2 prohibit
route add 255.255.255.255 dev a
route add 0.0.0.0/1 dev b",
    "rule add priority 5 fwmark 0x2/0x2 prohibit
rule add priority 6 fwmark 0x1/0x3 blackhole
route add 255.255.255.255 dev a
route add 128.0.0.0/1 dev b",
    "rule add priority 5 fwmark 0/0xffffffff unreachable
rule add priority 6 not fwmark 0x1/0x1 to 255.255.255.255 blackhole",
];

const DESTINATIONS: [u32; 12] = [
    0,
    1,
    0x09ff_ffff,
    0x0a00_0000,
    0x0a80_0000,
    0x0ac0_0000,
    0x0aff_ffff,
    0x7fff_ffff,
    0x8000_0000,
    0xc000_0205,
    0xffff_fffe,
    0xffff_ffff,
];

const PACKETS: [&str; 8] = [
    "route get 0.0.0.0",
    "route get 0.0.0.0 from 10.0.0.0 iif eth0",
    "route get 0.0.0.0 from 10.128.0.0 iif eth0 mark 1",
    "route get 0.0.0.0 from 9.255.255.255 iif eth1 mark 2",
    "route get 0.0.0.0 from 11.0.0.0 mark 3",
    "route get 0.0.0.0 mark 51820",
    "route get 0.0.0.0 from 255.255.255.255 iif aaa mark 0xffffffff",
    "route get 0.0.0.0 from 10.255.255.255 mark 0x80000001",
];

/// Finds the difference whose range has the address.
fn difference_at(differences: &[Difference], addr: Addr) -> Option<Difference> {
    differences
        .iter()
        .copied()
        .find(|one| one.first.0 <= addr.0 && addr.0 <= one.last.0)
}

/// Checks whether the differences say what the two versions answer to the packet.
fn agrees(was: &Version, is: &Version, differences: &[Difference], packet: &Packet) -> bool {
    let (old, new) = (outcome(was, packet), outcome(is, packet));
    match difference_at(differences, packet.dst) {
        Some(one) => old != new && outcome_of(&one.was) == old && outcome_of(&one.is) == new,
        None => old == new,
    }
}

/// Counts the destinations of the grid at which the packet goes another way; `None` if the differences say something else.
fn count_at(
    was: &Version,
    is: &Version,
    differences: &[Difference],
    packet: &Packet,
) -> Option<usize> {
    let mut count = 0usize;
    for addr in &DESTINATIONS {
        let there = Packet {
            dst: Addr(*addr),
            src: packet.src,
            iif: packet.iif,
            mark: packet.mark,
        };
        if !agrees(was, is, differences, &there) {
            return None;
        }
        if outcome(was, &there) != outcome(is, &there) {
            count = count.saturating_add(1);
        }
    }
    Some(count)
}

/// Counts the same for the packet of a line, by the changes that are found for it.
fn count_of(
    alloc: Global,
    was: &Version,
    is: &Version,
    line: &str,
) -> Result<Option<usize>, Refusal> {
    let packet = packet_of(line)?;
    let differing = what_differs(alloc, was, is)?;
    let differences = changes(alloc, was, is, &differing, Sameness::Outcomes, &packet)?;
    Ok(count_at(was, is, &differences, &packet))
}

/// Counts the same for all packets of the grid.
fn count_changes(alloc: Global, was: &Version, is: &Version) -> Result<Option<usize>, Refusal> {
    let mut count = 0usize;
    for line in &PACKETS {
        let Some(more) = count_of(alloc, was, is, line)? else {
            return Ok(None);
        };
        count = count.saturating_add(more);
    }
    Ok(Some(count))
}

/// Checks whether the changes between the scripts agree with the answers, and a change is found if one is in the grid.
fn is_right(alloc: Global, before: &str, after: &str) -> Result<bool, Refusal> {
    let was = version_after(alloc, before)?;
    let is = version_after(alloc, after)?;
    let found = find_change(alloc, &was, &is, Sameness::Outcomes)?;
    match count_changes(alloc, &was, &is)? {
        Some(count) => Ok(count == 0 || found.is_some()),
        None => Ok(false),
    }
}

#[test]
fn changes_agree_with_answers(rt: HostRuntime) -> Result<(), Fail> {
    for before in &SCRIPTS {
        for after in &SCRIPTS {
            assert!(rt;
                is_right(rt.alloc(), before, after)?,
                "from {before} to {after}"
            );
        }
    }
    Ok(())
}
