//! One `accept` of a listener, and what becomes of its errors.

use crate::gate::Gate;
use std::io::{self, ErrorKind};
use std::net::{OpenListener, SocketAddr};
use std::thread;
use std::time::{Clock, Duration};

/// How many milliseconds accepting pauses after an error that may pass.
const PAUSE: u64 = 100;

/// The system's errors that every later `accept` returns too: the descriptor is none (`EBADF`), is no socket (`ENOTSOCK`), isn't
/// listening (`EINVAL`), or is of another kind (`EFAULT`, `EOPNOTSUPP`).
const PERMANENT: [i32; 5] = [9, 14, 22, 88, 95];

/// What became of an `accept`.
pub(crate) enum AcceptResult<T> {
    /// A connection, and where its client is.
    Stream(T, SocketAddr),
    /// None, and the next `accept` may return one.
    Nobody,
    /// None, and there will be none.
    Never,
}

/// Checks whether nobody waited to be accepted, so that there is nothing to report.
fn is_nobody(error: &io::Error) -> bool {
    matches!(
        error.kind(),
        ErrorKind::WouldBlock | ErrorKind::TimedOut | ErrorKind::Interrupted
    )
}

/// Checks whether each later try would fail too, of an `accept` or of making a second end. Whatever else the system
/// answers may pass: no descriptor or no memory is left, or a client broke its connection off. An error that isn't the
/// system's is permanent.
pub(crate) fn is_permanent(error: &io::Error) -> bool {
    match error.raw_os_error() {
        Some(code) => PERMANENT.contains(&code),
        None => true,
    }
}

/// Accepts a connection. It notifies the gate of an error, and pauses after one that may pass.
pub(crate) fn accept_one<H: Clock, G: Gate, L: OpenListener>(
    rt: &H,
    gate: &G,
    listener: &L,
) -> AcceptResult<L::Stream> {
    match listener.accept() {
        Ok((stream, client)) => AcceptResult::Stream(stream, client),
        Err(error) => {
            if is_nobody(&error) {
                return AcceptResult::Nobody;
            }
            gate.not_accepted(&error);
            if is_permanent(&error) {
                return AcceptResult::Never;
            }
            thread::sleep(rt, Duration::from_millis(PAUSE));
            AcceptResult::Nobody
        }
    }
}
