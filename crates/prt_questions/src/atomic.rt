//! Atomic scripts: what a server is sent to make commands together, and what it replies.
ghost use Rattle.std.specs.Prelude.{◌≡◌, ◌+◌, ◌<◌, ◌^◌, IfOk, OnOk, length, true, ℕ};
ghost use Rattle.prt_questions.specs.Sources.{IsAtomicReply};
ghost use Rattle.prt_questions.specs.Submitting.{AreMade, change_text, submission_text};
ghost use Rattle.prt_replies.specs.Reply.{replies_text};
ghost use Rattle.prt_session.specs.Atomic.{accepted_after};

use crate::reading::is_newline;
use crate::remote::{PATIENCE, ServerError};
use itoa::Buffer;
use prt_args::ServerPlace;
use prt_command::Command;
use prt_diff::commands_text;
use prt_feed::number_of;
use prt_machine::{LocalNet, Socket};
use prt_program::Refusal;
use prt_session::write_accepted;
use std::alloc::{AllocError, Global};
use std::io::Read;
use std::net::{OpenStream, Shutdown};
use std::time::Duration;

/// How many seconds a server may take to reply to a script. It makes none for which no worker was free for 10.
const REPLY_PATIENCE: u64 = 30;

/// An atomic script without commands, for a number that no tables reach.
const NO_NUMBER: &[u8] = b"at 18446744073709551615\n";

/// What the reply to an atomic script begins with if the tables have another number. No reply of a session begins so, and
/// no feed.
const MOVED: &[u8] = b"at ";

/// The first byte of that.
const MOVED_BYTE: u8 = b'a';

/// Asks a server whether it takes atomic scripts at a place, by an empty script for a number that no tables have: a place
/// for atomic scripts replies with the number of its tables.
///
/// # Errors
///
/// `NoAtomic` if something else answers, as a session or a feed does, or nothing. Otherwise why the connection failed.
pub(crate) fn expect_atomic<N: LocalNet>(
    rt: &N,
    alloc: Global,
    place: &ServerPlace<'_>,
) -> Result<(), ServerError> {
    let patience = Duration::from_secs(PATIENCE);
    let mut stream = rt.reach(alloc, place, Socket::Atomic, patience, NO_NUMBER)?;
    stream.shutdown(Shutdown::Write)?;
    let mut byte = [0u8; 1];
    let count = stream.read(&mut byte)?;
    if count == 1 && byte[0] == MOVED_BYTE {
        return Ok(());
    }
    Err(ServerError::NoAtomic)
}

/// Builds what a server is sent to make these commands together: how many there are, so that a script that is cut off changes
/// nothing, and a line for each.
pub(crate) fn submission_text(alloc: Global, commands: &[Command]) -> Result<Vec<u8>, ServerError>
    ensures { IfOk result (λ text. text.items ≡ submission_text commands.now) }
{
    // Each command that was read or planned has a line, so only memory may lack.
    let Ok(lines) = commands_text(alloc, commands) else {
        return Err(ServerError::Tables(Refusal::NoMemory));
    };
    let mut digits = Buffer::new();
    let mut text = Vec::from_slice(alloc, b"commands ")?;
    text.extend_from_slice(digits.format(commands.len()).as_bytes())?;
    text.extend_from_slice(b"\n")?;
    text.extend_from_slice(&lines)?;
    Ok(text)
}

/// Builds what a server is sent to make these commands together over its tables at a number, and over no others.
fn change_text(alloc: Global, number: u64, commands: &[Command]) -> Result<Vec<u8>, ServerError>
    ensures { IfOk result (λ text. text.items ≡ change_text number commands.now) }
{
    let lines = submission_text(alloc, commands)?;
    let mut digits = Buffer::new();
    let mut text = Vec::from_slice(alloc, b"at ")?;
    text.extend_from_slice(digits.format(number).as_bytes())?;
    text.extend_from_slice(b"\n")?;
    text.extend_from_slice(&lines)?;
    Ok(text)
}

/// Builds the reply that accepts as many commands, with the numbers after this one.
fn accepted_text(alloc: Global, number: u64, count: usize) -> Result<Vec<u8>, ServerError>
    requires { number + count < 2 ^ 64 }
    ensures { IfOk result (λ text. text.items ≡ replies_text (accepted_after number count)) }
{
    let mut text = Vec::new(alloc);
    if write_accepted(&mut text, number, count) {
        Ok(text)
    } else {
        Err(ServerError::Tables(Refusal::NoMemory))
    }
}

/// Sends a server an atomic script, and reads all that it replies.
///
/// # Errors
///
/// `Unknown` if the reply can't be read to its end: the commands may be made. Otherwise why the connection failed before, and
/// none is made.
pub(crate) fn exchange<N: LocalNet>(
    rt: &N,
    alloc: Global,
    place: &ServerPlace<'_>,
    sent: &[u8],
) -> Result<Vec<u8>, ServerError>
    ensures { IfOk result (λ reply. IsAtomicReply N.reaches N.Stream.remaining rt.now place.now sent.now reply.items) }
{
    let patience = Duration::from_secs(PATIENCE);
    let mut stream = rt.reach(alloc, place, Socket::Atomic, patience, sent)?;
    if stream.shutdown(Shutdown::Write).is_err() {
        return Err(ServerError::Unknown);
    }
    let reply_in = Some(Duration::from_secs(REPLY_PATIENCE));
    let _patient = stream.set_read_timeout(reply_in).is_ok();
    let mut reply = Vec::new(alloc);
    match stream.read_to_end(&mut reply) {
        Ok(_) => Ok(reply),
        Err(_) => Err(ServerError::Unknown),
    }
}

/// Finds the number of commands that were accepted before those of a reply, if its first line accepts one.
fn number_before(reply: &[u8]) -> Option<u64> {
    let rest = reply.strip_prefix(b"ok ")?;
    let digits = rest.split(is_newline).next()?;
    number_of(digits)?.checked_sub(1)
}

/// Checks whether a reply accepts as many commands, with numbers that rise by one.
///
/// # Errors
///
/// `Tables` with `NoMemory`.
pub(crate) fn accepts_each(alloc: Global, reply: &[u8], count: usize) -> Result<bool, ServerError>
    ensures { IfOk result (λ accepts. accepts ≡ true → (number : ℕ) × (reply.now ≡ replies_text (accepted_after number count))) }
{
    let Some(number) = number_before(reply) else {
        return Ok(false);
    };
    if number > u64::MAX - count as u64 {
        return Ok(false);
    }
    let accepted = accepted_text(alloc, number, count)?;
    Ok(accepted.as_slice() == reply)
}

/// What a server made of changes.
#[derive(Clone, Copy)]
pub(crate) enum Made {
    /// All of them.
    All,
    /// None, since its tables are at another number.
    Moved,
}

/// Finds why a server didn't accept all changes, by its reply: its tables are at another number.
///
/// # Errors
///
/// `Unknown` if the reply doesn't say it, and the server's refusal.
fn not_accepted(alloc: Global, reply: &[u8]) -> Result<Made, ServerError>
    ensures { IfOk result (λ made. made ≡ Made.Moved) }
{
    if reply.starts_with(MOVED) {
        Ok(Made::Moved)
    } else if reply.starts_with(b"error ") && reply.ends_with(b"\n") {
        Err(ServerError::Refused(refused_text(alloc, reply)?))
    } else {
        Err(ServerError::Unknown)
    }
}

/// Has a server make changes over its tables at a number, together: all of them, or none.
///
/// # Errors
///
/// `Unknown` if its reply is missing or cut off: all of them may be made. Otherwise why the connection failed before, the server's
/// refusal, or `Tables` with `NoMemory`, or with `CountFull` if there are no such numbers: none is made.
pub(crate) fn send_changes<N: LocalNet>(
    rt: &N,
    alloc: Global,
    place: &ServerPlace<'_>,
    number: u64,
    commands: &[Command],
) -> Result<Made, ServerError>
    ensures made { IfOk result (λ made. made ≡ Made.All → AreMade (IsAtomicReply N.reaches N.Stream.remaining rt.now place.now) number commands.now) }
    ensures numbers { OnOk result (number + length commands.now < 2 ^ 64) }
{
    let count = commands.len();
    if number > u64::MAX - count as u64 {
        return Err(ServerError::Tables(Refusal::CountFull));
    }
    // Memory for both texts is taken before anything is sent.
    let sent = change_text(alloc, number, commands)?;
    let accepted = accepted_text(alloc, number, count)?;
    let reply = exchange(rt, alloc, place, &sent)?;
    if reply.as_slice() == accepted.as_slice() {
        return Ok(Made::All);
    }
    not_accepted(alloc, &reply)
}

/// Returns the first line of a refusal, as far as it can be printed.
fn refused_text(alloc: Global, reply: &[u8]) -> Result<String, AllocError> {
    let mut text = String::new(alloc);
    for byte in reply {
        if *byte == b'\n' {
            break;
        }
        let is_shown = *byte >= b' ' && *byte <= b'~';
        text.push(char::from(if is_shown { *byte } else { b'?' }))?;
    }
    Ok(text)
}
