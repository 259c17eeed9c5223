use prt_analyses::claims::{Claim, find_breach, push_breach, read_claim};
use prt_command::{Command, Packet, Refusal, Request, read_line};
use prt_version::Version;
use std::alloc::Global;
use std::test::Fail;

/// `wg-quick` sends a machine's packets through its tunnel like this.
const TUNNEL: &str = "route add 192.0.2.0/24 dev eth0
route add default via 192.0.2.1 dev eth0
rule add not fwmark 51820 table 51820
rule add table main suppress_prefixlength 0
route add default dev wg0 table 51820";

/// It takes the tunnel down.
const DOWN: &str = "rule del table 51820
rule del table main suppress_prefixlength 0
route flush table 51820";

/// Returns the version after the command.
fn version_with(version: &Version, command: &Command) -> Result<Version, Refusal> {
    match version.check(command) {
        Ok(change) => version.next(&change),
        Err(refusal) => Err(refusal),
    }
}

/// Returns the version after the commands of this script.
fn version_after(version: Version, script: &str) -> Result<Version, Refusal> {
    let mut version = version;
    for line in script.lines() {
        match read_line(line.as_bytes())? {
            Some(Request::Command(command)) => version = version_with(&version, &command)?,
            _ => return Err(Refusal::UnknownVerb),
        }
    }
    Ok(version)
}

/// Reads what the line claims.
fn claim_of(alloc: Global, line: &str) -> Result<Claim, Refusal> {
    match read_claim(alloc, line.as_bytes()) {
        Ok(Some(claim)) => Ok(claim),
        _ => Err(Refusal::UnknownWord),
    }
}

/// Finds a packet that breaks the claim of this line.
fn breach(alloc: Global, version: &Version, line: &str) -> Result<Option<Packet>, Refusal> {
    find_breach(alloc, version, &claim_of(alloc, line)?)
}

#[test]
fn claims_about_a_tunnel_hold_while_it_is_up(rt: HostRuntime) -> Result<(), Fail> {
    let version = version_after(Version::opening(rt.alloc())?, TUNNEL)?;
    for line in [
        "not mark 51820: not via 192.0.2.1",
        "not mark 51820: dev wg0 or dev eth0",
        "to 192.0.2.0/24: dev eth0",
        "to 198.51.100.0/24 not mark 51820: table 51820",
        "mark 51820: not dev wg0",
        ": kind unicast",
        ": not none",
    ] {
        assert!(rt; breach(rt.alloc(), &version, line)?.is_none());
    }
    Ok(())
}

#[test]
fn a_packet_that_breaks_a_claim_is_found(rt: HostRuntime) -> Result<(), Fail> {
    let version = version_after(Version::opening(rt.alloc())?, TUNNEL)?;
    for line in [
        ": not via 192.0.2.1",
        "not mark 51821: not via 192.0.2.1",
        "to 192.0.2.0/24: dev wg0",
        "to 192.0.0.0/16 not mark 51820: table 51820",
        "mark 0/0x1: not dev eth0",
        ": not kind unicast",
        "iif lo: none",
    ] {
        let claim = claim_of(rt.alloc(), line)?;
        let Some(packet) = find_breach(rt.alloc(), &version, &claim)? else {
            return Err(Refusal::NoSuch.into());
        };
        assert!(rt; claim.takes(&packet) && !claim.is_met(&version.select(&packet).verdict));
    }
    Ok(())
}

#[test]
fn the_packet_is_shown_with_what_becomes_of_it(rt: HostRuntime) -> Result<(), Fail> {
    let up = version_after(Version::opening(rt.alloc())?, TUNNEL)?;
    let version = version_after(up, DOWN)?;
    let line = "to 198.51.100.7 from 10.0.0.1 iif lo mark 1: dev wg0";
    let Some(packet) = breach(rt.alloc(), &version, line)? else {
        return Err(Refusal::NoSuch.into());
    };
    let mut text = Vec::new(rt.alloc());
    push_breach(&mut text, &version, &packet)?;
    let wanted =
        b"to 198.51.100.7 from 10.0.0.1 iif lo mark 0x1: rule 32766 table main default via 192.0.2.1 dev eth0";
    assert!(rt; text.as_slice() == wanted.as_slice());
    Ok(())
}
