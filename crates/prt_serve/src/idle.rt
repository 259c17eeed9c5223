//! What a client reads whose session ends because it sent nothing for too long.
ghost use Rattle.std.specs.Prelude.{◌≡◌, ◌++◌};
ghost use Rattle.prt_serve.specs.Idle.{idle_line};

use crate::connection::{Lines, Replies};
use crate::worker::Served;
use arrayvec::ArrayString;
use itoa::Buffer;
use prt_replies::write_bytes;
use prt_session::Refusal;
use std::io::{Read, Write};
use std::time::Duration;

/// Formats a comment that says for how many seconds nothing came.
pub(crate) fn idle_line(seconds: u64) -> ArrayString<64>
    ensures { result.bytes ≡ idle_line seconds }
{
    let mut digits = Buffer::new();
    let mut line = ArrayString::new();
    line.push_str("# closed: nothing came for ");
    line.push_str(digits.format(seconds));
    line.push_str(if seconds == 1 {
        " second\n"
    } else {
        " seconds\n"
    });
    line
}

/// Informs the client that nothing came for too long, if that is how its session ended. Lets the connection go, which
/// closes it.
pub(crate) fn close<T: Read + Write + Drop>(
    served: Served<Lines<T>, Replies<T>>,
    idle: Option<Duration>,
) {
    let Served { mut job, end } = served;
    let Some(idle) = idle else {
        return;
    };
    let is_cut = matches!(end.fault, Some(Refusal::ReadFault));
    if is_cut && job.reader.is_timed_out() {
        // It is closed all the same if this fails.
        let _told = write_bytes(&mut job.writer, idle_line(idle.as_secs()).as_bytes());
    }
}
