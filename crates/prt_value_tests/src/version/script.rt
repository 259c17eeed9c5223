//! Versions and answers, by lines of the command language.

use prt_command::{Command, Query, Refusal, Request, read_line};
use prt_listing::{TablePart, answer_text, route_text, rule_text};
use prt_version::Version;
use std::alloc::Global;
use std::test::Fail;

/// Returns the version after the command.
pub fn version_with(version: &Version, command: &Command) -> Result<Version, Refusal> {
    match version.check(command) {
        Ok(change) => version.next(&change),
        Err(refusal) => Err(refusal),
    }
}

/// Returns the version after the command of a line.
pub fn next_version(version: &Version, line: &str) -> Result<Version, Refusal> {
    match read_line(line.as_bytes())? {
        Some(Request::Command(command)) => version_with(version, &command),
        _ => Err(Refusal::UnknownVerb),
    }
}

/// Returns the version of a new database after the commands of a script's lines.
pub fn version_after(alloc: Global, script: &str) -> Result<Version, Refusal> {
    let mut version = Version::opening(alloc)?;
    for line in script.lines() {
        version = next_version(&version, line)?;
    }
    Ok(version)
}

/// Reads the commands of a script's lines.
pub fn commands_of(alloc: Global, script: &str) -> Result<Vec<Command>, Refusal> {
    let mut commands = Vec::new(alloc);
    for line in script.lines() {
        match read_line(line.as_bytes())? {
            Some(Request::Command(command)) => commands.push(command)?,
            _ => return Err(Refusal::UnknownVerb),
        }
    }
    Ok(commands)
}

/// Returns the texts that answer the query of a line, with a line feed after each.
pub fn answer(alloc: Global, version: &Version, line: &str) -> Result<Vec<u8>, Fail> {
    let mut out = Vec::new(alloc);
    match read_line(line.as_bytes())? {
        Some(Request::Query(Query::RouteShow(selector))) => {
            for route in &version.routes(&selector)? {
                route_text(&mut out, route, TablePart::Shown)?;
                out.push(b'\n')?;
            }
        }
        Some(Request::Query(Query::RuleShow)) => {
            for rule in version.rules() {
                rule_text(&mut out, rule)?;
                out.push(b'\n')?;
            }
        }
        Some(Request::Query(Query::Get(packet))) => answer_text(
            &mut out,
            &version.select(&packet),
        )?,
        _ => return Err(Fail::from(Refusal::UnknownVerb)),
    }
    Ok(out)
}
