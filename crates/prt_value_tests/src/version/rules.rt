//! Many rules: what an index of them finds, beside a scan of them all.

use super::random::Random;
use super::script::version_with;
use prt_command::{Addr, Command, NewRule, Packet, Prefix, Refusal};
use prt_route::{Dev, read_dev};
use prt_rule::{Action, Mark, Rule};
use prt_version::{Verdict, Version};
use std::alloc::Global;
use std::process::Abort;
use std::test::Fail;

/// Makes an address near few others, so that many prefixes lie in one another.
fn random_addr(random: &mut Random) -> u32 {
    0x0a000000 ^ (random.next() & 0x8003070f)
}

fn random_prefix(random: &mut Random) -> Prefix {
    let len = (random.next() % 33) as u8;
    Prefix::masked(random_addr(random), len)
}

/// Picks one of eight interfaces.
fn random_dev(random: &mut Random) -> Result<Dev, Refusal> {
    read_dev(&[b't', b'0' + (random.next() % 8) as u8])
}

/// Makes a mark of which all bits count, the last ones, or the first ones.
fn random_mark(random: &mut Random) -> Mark {
    let masks = [u32::MAX, 0xff, 0x3f, 0x1f, 0xffff0000];
    let mask = masks.get(random.next() as usize % 5);
    Mark {
        mark: random.next() & 0x8000007f,
        mask: *mask.unwrap_or(&1),
    }
}

/// Makes a rule that names sources, destinations, an interface and a mark, or some of them or none. It looks up a table
/// with no routes, or decides.
fn random_rule(random: &mut Random, priority: u32) -> Result<NewRule, Refusal> {
    let roll = random.next();
    let any = Prefix::masked(0, 0);
    Ok(NewRule {
        priority: Some(priority),
        inverted: roll & 0xf == 0,
        from: if roll & 0x10 == 0 {
            random_prefix(random)
        } else {
            any
        },
        to: if roll & 0x60 == 0 {
            random_prefix(random)
        } else {
            any
        },
        iif: if roll & 0x180 == 0 {
            Some(random_dev(random)?)
        } else {
            None
        },
        mark: if roll & 0x600 == 0 {
            Some(random_mark(random))
        } else {
            None
        },
        action: match roll >> 30 {
            0 => Action::Lookup(7),
            1 => Action::Blackhole,
            2 => Action::Unreachable,
            _ => Action::Prohibit,
        },
        suppress: None,
    })
}

/// Makes a packet with an address, an interface and a mark as the rules name them.
fn random_packet(random: &mut Random) -> Result<Packet, Refusal> {
    Ok(Packet {
        dst: Addr(random_addr(random)),
        src: Addr(random_addr(random)),
        iif: random_dev(random)?,
        mark: random.next() & 0x8000007f,
    })
}

/// Makes the version of a new database after so many rules were added, at priorities that don't rise.
fn version_of(alloc: Global, random: &mut Random, count: u32) -> Result<Version, Refusal> {
    let mut version = Version::opening(alloc)?;
    for number in 0..count {
        let priority = number.wrapping_mul(389) % 10_007 + 1;
        let new = random_rule(random, priority)?;
        version = version_with(&version, &Command::RuleAdd(new))?;
    }
    Ok(version)
}

fn begins_with(addr: u32, prefix: &Prefix) -> bool {
    u64::from(addr ^ prefix.bits()) >> (32 - prefix.len()) == 0
}

fn takes(rule: &Rule, packet: &Packet) -> bool {
    begins_with(packet.src.0, &rule.from)
        && begins_with(packet.dst.0, &rule.to)
        && rule.iif.is_none_or(|dev| dev == packet.iif)
        && rule
            .mark
            .is_none_or(|given| (given.mark ^ packet.mark) & given.mask == 0)
}

/// Finds the priority and the action of the first rule that matches the packet and looks up no table.
fn said_by_scan(rules: &[Rule], packet: &Packet) -> Option<(u32, Action)> {
    for rule in rules {
        match rule.action {
            Action::Lookup(_) => {}
            action if takes(rule, packet) != rule.inverted => return Some((rule.priority, action)),
            _ => {}
        }
    }
    None
}

/// Returns the priority and the action of the rule that decides, if that looks up no table.
fn said_by_version(version: &Version, packet: &Packet) -> Option<(u32, Action)> {
    match version.select(packet).verdict {
        Verdict::RuleSays(priority, action) => Some((priority, action)),
        Verdict::Route(_, _) | Verdict::NoRoute => None,
    }
}

/// Compares what the version says of so many packets with a scan of its rules.
fn compare(
    rt: &impl Abort,
    version: &Version,
    random: &mut Random,
    packets: u32,
) -> Result<(), Refusal> {
    for _ in 0..packets {
        let packet = random_packet(random)?;
        let said = said_by_version(version, &packet);
        assert!(rt;
            said == said_by_scan(version.rules(), &packet),
            "{:x} to {:x}: {said:?}",
            packet.src.0,
            packet.dst.0
        );
    }
    Ok(())
}

#[test]
fn random_rules(rt: HostRuntime) -> Result<(), Fail> {
    let mut random = Random(0xda3e39cb94b95bdb);
    // There is an index from 50 rules on, of which three are those of a new database.
    for count in [1, 40, 46, 47, 80, 300] {
        for _ in 0..10 {
            let version = version_of(rt.alloc(), &mut random, count)?;
            compare(&rt, &version, &mut random, 500)?;
        }
    }
    Ok(())
}
