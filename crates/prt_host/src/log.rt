//! The log of accepted commands.
ghost use Rattle.std.specs.Prelude.{◌≡◌};

use prt_machine::is_local;
use std::alloc::{AllocError, Global};
use std::net::SocketAddr;

/// Makes the text of a line fit for a log: without its comment, and with a space for each byte that isn't printable ASCII.
fn plain_text(alloc: Global, line: &[u8]) -> Result<String, AllocError> {
    let mut text = String::new(alloc);
    for byte in line {
        if *byte == b'#' {
            break;
        }
        let shown = if byte.is_ascii_graphic() { *byte } else { b' ' };
        text.push(char::from(shown))?;
    }
    Ok(text)
}

/// Makes the line of an accepted command: its number, that of its session, where its client is, and its text.
///
/// # Errors
///
/// `AllocError`, if memory is refused.
pub(crate) fn log_line(
    alloc: Global,
    number: u64,
    session: u64,
    client: &SocketAddr,
    line: &[u8],
) -> Result<String, AllocError> {
    let text = plain_text(alloc, line)?;
    let command = text.trim();
    if is_local(client) {
        format!(in alloc; "accepted {number} session {session} from a local socket: {command}\n")
    } else {
        format!(in alloc; "accepted {number} session {session} from {client}: {command}\n")
    }
}
