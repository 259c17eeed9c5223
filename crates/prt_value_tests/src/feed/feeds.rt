use prt_command::{Refusal, Request, read_line};
use prt_feed::{Opening, OpeningError, change_line, opening_text, read_opening};
use prt_version::Version;
use std::alloc::Global;
use std::test::Fail;

/// The opening over a new database.
const NEW: &str = "state 0
rule flush
rule del priority 0
rule add priority 0 from all lookup local
rule add priority 32766 from all lookup main
rule add priority 32767 from all lookup default
now
";

/// A feed after seven commands, and a change.
const SENT: &str = "state 7
rule flush
rule del priority 0
rule add priority 32766 from all lookup main
route add 192.0.2.0/24 dev eth0 scope link
route add default via 192.0.2.1 dev eth0
now
8 route add 10.0.0.0/8 dev eth0 scope link
";

/// What the tables of it are again, over a new database.
const READ: &str = "state 5
rule flush
rule del priority 0
rule add priority 32766 from all lookup main
route add 192.0.2.0/24 dev eth0 scope link
route add default via 192.0.2.1 dev eth0
now
";

/// Returns the text of an opening.
fn text_of(alloc: Global, version: &Version) -> Result<Vec<u8>, Fail> {
    match opening_text(alloc, version) {
        Ok(text) => Ok(text),
        Err(_) => Err(Fail::from(Refusal::NoMemory)),
    }
}

/// Returns the line of the change that this line asks for.
fn change_of(alloc: Global, number: u64, line: &str) -> Result<Option<Vec<u8>>, Fail> {
    match read_line(line.as_bytes())? {
        Some(Request::Command(command)) => Ok(change_line(alloc, number, &command)),
        _ => Ok(None),
    }
}

/// Returns why this text has no opening.
fn reason_of(alloc: Global, text: &str) -> Option<OpeningError> {
    let mut bytes = text.as_bytes();
    match read_opening(alloc, &mut bytes) {
        Ok(_) => None,
        Err(reason) => Some(reason),
    }
}

/// Returns the opening that this text has, and what is left of it.
fn opening_of(alloc: Global, text: &str) -> Result<(Opening, usize), Fail> {
    let mut bytes = text.as_bytes();
    match read_opening(alloc, &mut bytes) {
        Ok(opening) => Ok((opening, bytes.len())),
        Err(_) => Err(Fail::from(Refusal::ReadFault)),
    }
}

#[test]
fn writes_openings_and_changes(rt: HostRuntime) -> Result<(), Fail> {
    let alloc = rt.alloc();
    let version = Version::opening(alloc)?;
    assert_eq!(rt; text_of(alloc, &version)?.as_slice(), NEW.as_bytes());
    let line = change_of(alloc, 8, "ip route add 10/8 dev eth0")?.expect(
        &rt,
        "the command has a line",
    );
    assert_eq!(rt;
        line.as_slice(),
        b"8 route add 10.0.0.0/8 dev eth0 scope link\n".as_slice()
    );
    Ok(())
}

#[test]
fn reads_openings(rt: HostRuntime) -> Result<(), Fail> {
    let alloc = rt.alloc();
    let (opening, left) = opening_of(alloc, SENT)?;
    assert_eq!(rt; opening.number, 7);
    assert_eq!(rt;
        text_of(alloc, &opening.version)?.as_slice(),
        READ.as_bytes()
    );
    assert_eq!(rt; left, "8 route add 10.0.0.0/8 dev eth0 scope link\n".len());
    Ok(())
}

#[test]
fn tells_why_nothing_was_read(rt: HostRuntime) -> Result<(), Fail> {
    let alloc = rt.alloc();
    assert_eq!(rt;
        reason_of(alloc, "state 7\nrule flush\n"),
        Some(OpeningError::CutOff)
    );
    assert_eq!(rt;
        reason_of(alloc, "error 23 Full\n"),
        Some(OpeningError::NoFeed)
    );
    assert_eq!(rt;
        reason_of(alloc, "state 07\nnow\n"),
        Some(OpeningError::NoFeed)
    );
    assert_eq!(rt;
        reason_of(alloc, "state 7\nroute add 10/8\nnow\n"),
        Some(OpeningError::Refused(Refusal::NoNextHop))
    );
    Ok(())
}
