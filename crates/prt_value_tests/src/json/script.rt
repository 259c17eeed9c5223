use prt_command::{Refusal, Request, read_line};
use prt_version::Version;
use std::alloc::{AllocError, Global};

/// Returns the version after the command of this line.
fn next_version(version: &Version, line: &str) -> Result<Version, Refusal> {
    match read_line(line.as_bytes())? {
        Some(Request::Command(command)) => match version.check(&command) {
            Ok(change) => version.next(&change),
            Err(reason) => Err(reason),
        },
        _ => Err(Refusal::UnknownVerb),
    }
}

/// Returns a new database after the commands of this script.
pub(crate) fn version_after(alloc: Global, script: &str) -> Result<Version, Refusal> {
    let mut version = Version::opening(alloc)?;
    for line in script.lines() {
        version = next_version(&version, line)?;
    }
    Ok(version)
}

/// Joins the lines into one.
pub(crate) fn joined(alloc: Global, lines: &str) -> Result<Vec<u8>, AllocError> {
    let mut text = Vec::new(alloc);
    for line in lines.lines() {
        text.extend_from_slice(line.as_bytes())?;
    }
    text.extend_from_slice(b"\n")?;
    Ok(text)
}
