//! Faults of the streams: each of these readers and writers fails once and would then go on.

use prt_session::{
    MemoryDesk, Observer, OnRefusal, Refusal, Reply, ScriptEnd, Unobserved, run_script,
};
use std::alloc::Global;
use std::io;
use std::io::{Read, Write};
use std::test::Fail;

/// A reader that returns one byte a call, is interrupted once after the first bytes, and then has more.
#[derive(Drop)]
struct Interrupted {
    before: &'static [u8],
    after: &'static [u8],
    is_due: bool,
}

impl Read for Interrupted {
    fn read(&mut self, buf: &mut [u8]) -> io::Result<usize> {
        if buf.is_empty() {
            return Ok(0);
        }
        if let Some((first, rest)) = self.before.split_first() {
            self.before = rest;
            buf[0] = *first;
            return Ok(1);
        }
        if self.is_due {
            self.is_due = false;
            return Err(io::Error::from(io::ErrorKind::Interrupted));
        }
        match self.after.split_first() {
            Some((first, rest)) => {
                self.after = rest;
                buf[0] = *first;
                Ok(1)
            }
            None => Ok(0),
        }
    }
}

/// The last lines that were reported to it.
#[derive(Drop)]
struct LastLines {
    begun: u64,
    ended: u64,
    refused: u64,
    text_len: usize,
}

impl Observer for LastLines {
    fn before(&mut self, line: u64) {
        self.begun = line;
    }

    fn after(&mut self, line: u64, text: &[u8], reply: &Reply) {
        self.ended = line;
        self.text_len = text.len();
        if matches!(reply, Reply::Refused(_)) {
            self.refused = line;
        }
    }
}

/// What a session left whose reader was interrupted.
#[derive(Drop)]
struct Left {
    replies: Vec<u8>,
    end: ScriptEnd,
    unread: usize,
    told: LastLines,
}

/// Runs a session whose reader is interrupted after these bytes.
fn run_interrupted(alloc: Global, before: &'static [u8]) -> Result<Left, Refusal> {
    let mut desk = MemoryDesk::opening(alloc)?;
    let mut reader = Interrupted {
        before,
        after: b"te get 1\n",
        is_due: true,
    };
    let mut replies = Vec::new(alloc);
    let mut told = LastLines {
        begun: 0,
        ended: 0,
        refused: 0,
        text_len: 9,
    };
    let end = run_script(
        alloc,
        &mut desk,
        &mut reader,
        &mut replies,
        OnRefusal::GoOn,
        &mut told,
    );
    let unread = reader.after.len();
    Ok(Left {
        replies,
        end,
        unread,
        told,
    })
}

#[test]
fn a_read_fault_ends_the_session_at_its_line(rt: HostRuntime) -> Result<(), Fail> {
    for (before, line, text_len, want) in [
        (
            b"\n\n\n".as_slice(),
            4,
            0,
            b"error 32 ReadFault\n".as_slice(),
        ),
        (
            b"route get 1\nrou".as_slice(),
            2,
            3,
            b"answer 0 none\nerror 32 ReadFault\n".as_slice(),
        ),
    ] {
        let left = run_interrupted(rt.alloc(), before)?;
        assert!(rt; left.replies.as_slice() == want);
        assert!(rt; left.end.fault == Some(Refusal::ReadFault) && !left.end.refused);
        assert!(rt; left.unread == 9);
        let told = &left.told;
        assert!(rt; told.begun == line && told.ended == line && told.refused == line);
        assert!(rt; told.text_len == text_len);
    }
    Ok(())
}

/// What happens once to a writer.
#[derive(Clone, Copy)]
enum Trouble {
    None,
    /// It fails after so many bytes.
    Fails(usize),
    /// It takes nothing after so many bytes.
    TakesNothing(usize),
    /// It fails to flush after so many flushes.
    FailsToFlush(usize),
}

/// A writer that takes so many bytes a call at most.
#[derive(Drop)]
struct Slow {
    taken: Vec<u8>,
    most: usize,
    trouble: Trouble,
}

impl Write for Slow {
    fn write(&mut self, buf: &[u8]) -> io::Result<usize> {
        match self.trouble {
            Trouble::Fails(count) if count == self.taken.len() => {
                self.trouble = Trouble::None;
                return Err(io::Error::from(io::ErrorKind::Interrupted));
            }
            Trouble::TakesNothing(count) if count == self.taken.len() => {
                self.trouble = Trouble::None;
                return Ok(0);
            }
            _ => {}
        }
        let bytes = &buf[..buf.len().min(self.most)];
        match self.taken.extend_from_slice(bytes) {
            Ok(()) => Ok(bytes.len()),
            Err(_) => Ok(0),
        }
    }

    fn flush(&mut self) -> io::Result<()> {
        match self.trouble {
            Trouble::FailsToFlush(0) => {
                self.trouble = Trouble::None;
                Err(io::Error::from(io::ErrorKind::Interrupted))
            }
            Trouble::FailsToFlush(count) => {
                self.trouble = Trouble::FailsToFlush(count - 1);
                Ok(())
            }
            _ => Ok(()),
        }
    }
}

/// Runs a script whose replies go to a writer that takes so many bytes a call and meets this trouble. Returns what the
/// writer took, and how the session ended.
fn run_into(
    alloc: Global,
    script: &str,
    most: usize,
    trouble: Trouble,
) -> Result<(Vec<u8>, ScriptEnd), Refusal> {
    let mut desk = MemoryDesk::opening(alloc)?;
    let mut lines = script.as_bytes();
    let mut writer = Slow {
        taken: Vec::new(alloc),
        most,
        trouble,
    };
    let end = desk.run_script(
        alloc,
        &mut lines,
        &mut writer,
        OnRefusal::GoOn,
        &mut Unobserved,
    );
    Ok((writer.taken, end))
}

#[test]
fn replies_end_at_a_write_fault(rt: HostRuntime) -> Result<(), Fail> {
    let script = "route add 10/8 dev a\nroute add 10/8 dev b\nroute get 1\n";
    for (trouble, fault, want) in [
        (
            Trouble::None,
            None,
            b"ok 1\nerror 21 Exists\nanswer 1 none\n".as_slice(),
        ),
        (Trouble::Fails(0), Some(Refusal::WriteFault), b"".as_slice()),
        (
            Trouble::TakesNothing(8),
            Some(Refusal::WriteFault),
            b"ok 1\nerr".as_slice(),
        ),
        (
            Trouble::FailsToFlush(1),
            Some(Refusal::WriteFault),
            b"ok 1\nerror 21 Exists\n".as_slice(),
        ),
    ] {
        let (taken, end) = run_into(rt.alloc(), script, 1, trouble)?;
        assert!(rt; taken.as_slice() == want);
        assert!(rt; end.fault == fault);
    }
    Ok(())
}

/// A route that is added, and asked for.
const FIRST_RUN: &str = "route add default via 192.0.2.1 dev eth0\nroute get 198.51.100.7\n";

/// The replies to that script.
const FIRST_REPLIES: &str = "ok 1\nanswer 1 rule 32766 table main default via 192.0.2.1 dev eth0\n";

/// Returns the replies to so many lines of that script, after which the reader failed.
fn replies_before_fault(lines: usize) -> &'static str {
    match lines {
        0 => "error 32 ReadFault\n",
        1 => "ok 1\nerror 32 ReadFault\n",
        _ => {
            "ok 1\nanswer 1 rule 32766 table main default via 192.0.2.1 dev eth0\nerror 32 ReadFault\n"
        }
    }
}

#[test]
fn reader_fails_at_each_byte(rt: HostRuntime) -> Result<(), Fail> {
    let script = FIRST_RUN.as_bytes();
    for count in 0..=script.len() {
        let before = &script[..count];
        let left = run_interrupted(rt.alloc(), before)?;
        let lines = before.iter().filter(|byte| **byte == b'\n').count();
        let wanted = replies_before_fault(lines);
        assert!(rt; left.replies.as_slice() == wanted.as_bytes(), "{count}");
        assert!(rt; left.end.fault == Some(Refusal::ReadFault), "{count}");
        assert!(rt; !left.end.refused && left.unread == 9, "{count}");
    }
    Ok(())
}

/// Checks whether that script's replies end after so many bytes, at which a writer meets this trouble.
fn ends_after(alloc: Global, count: usize, trouble: Trouble) -> Result<bool, Refusal> {
    let (taken, end) = run_into(alloc, FIRST_RUN, 1, trouble)?;
    let is_cut = FIRST_REPLIES.as_bytes().get(..count) == Some(taken.as_slice());
    Ok(is_cut && end.fault == Some(Refusal::WriteFault))
}

#[test]
fn writer_fails_at_each_write(rt: HostRuntime) -> Result<(), Fail> {
    let alloc = rt.alloc();
    for count in 0..FIRST_REPLIES.len() {
        assert!(rt; ends_after(alloc, count, Trouble::Fails(count))?, "{count}");
        assert!(rt;
            ends_after(alloc, count, Trouble::TakesNothing(count))?,
            "{count}"
        );
    }
    Ok(())
}

#[test]
fn one_byte_a_write(rt: HostRuntime) -> Result<(), Fail> {
    for most in [1, 2, usize::MAX] {
        let (taken, end) = run_into(rt.alloc(), FIRST_RUN, most, Trouble::None)?;
        assert!(rt; taken.as_slice() == FIRST_REPLIES.as_bytes(), "{most}");
        assert!(rt; end.fault.is_none() && !end.refused, "{most}");
    }
    Ok(())
}
