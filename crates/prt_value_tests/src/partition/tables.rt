//! Versions after scripts, packets of lines, and what becomes of them.
use prt_command::{Command, Packet, Query, Refusal, Request, read_line};
use prt_partition::{Outcome, outcome_of};
use prt_version::Version;
use std::alloc::Global;

/// Returns the version after the command.
fn version_with(version: &Version, command: &Command) -> Result<Version, Refusal> {
    match version.check(command) {
        Ok(change) => version.next(&change),
        Err(refusal) => Err(refusal),
    }
}

/// Returns the version after the command of this line.
pub(crate) fn next_version(version: &Version, line: &str) -> Result<Version, Refusal> {
    match read_line(line.as_bytes())? {
        Some(Request::Command(command)) => version_with(version, &command),
        _ => Err(Refusal::UnknownVerb),
    }
}

/// Returns the version of a new database after the commands of this script.
pub(crate) fn version_after(alloc: Global, script: &str) -> Result<Version, Refusal> {
    let mut version = Version::opening(alloc)?;
    for line in script.lines() {
        version = next_version(&version, line)?;
    }
    Ok(version)
}

/// Reads the packet of this `route get`.
pub(crate) fn packet_of(line: &str) -> Result<Packet, Refusal> {
    match read_line(line.as_bytes())? {
        Some(Request::Query(Query::Get(packet))) => Ok(packet),
        _ => Err(Refusal::UnknownVerb),
    }
}

/// Returns what the version's answer means for the packet.
pub(crate) fn outcome(version: &Version, packet: &Packet) -> Outcome {
    outcome_of(&version.select(packet).verdict)
}
