//! What a server says: its feed the tables, a session the reply to a line.
ghost use Rattle.std.specs.Prelude.{◌≡◌, ◌++◌, IfOk, IfSome, List, codes, true, ℕ};
ghost use Rattle.std.specs.Io.Buffered.{reader_remaining};
ghost use Rattle.std.specs.Io.KnownBytes.{Keeps};
ghost use Rattle.prt_args.specs.declared.server_place.ServerPlace.TheVariants.{Folder};
ghost use Rattle.prt_questions.specs.Sources.{AreTold, IsHeard, IsReport};
ghost use Rattle.prt_questions.specs.ServerAnswers.{IsFeedBefore, IsInquiry, IsQueryLine, IsReached, IsToldBy, IsToldIn};

use crate::reading::last_line;
use prt_args::ServerPlace;
use prt_feed::{OpeningError, read_opening};
use prt_machine::{LocalNet, Socket};
use prt_program::Refusal;
use prt_version::Version;
use std::alloc::{AllocError, Global};
use std::io::{self, BufRead, BufReader, ErrorKind, Read, Write};
use std::net::{OpenStream, Shutdown};
use std::time::Duration;
use thiserror::Error;

/// How many seconds a server may take to answer, and to send more.
pub(crate) const PATIENCE: u64 = 10;

/// How many seconds a feed may be silent: it writes a line at least each 15 seconds.
const SILENCE: u64 = 45;

/// How many seconds one try to reach a server takes at most.
const TRY: u64 = 1;

/// The first byte of a feed, which begins with `state`. No reply of a session begins with it.
const FEED: u8 = b's';

/// A query, which a session answers at once. A feed doesn't read it.
const QUERY: &[u8] = b"route get 127.0.0.1\n";

/// What the last line of a whole reply to `route get` begins with.
const ANSWER: &[u8] = b"answer ";

/// What the last line of a whole listing begins with.
const END: &[u8] = b"end ";

/// Why a server says nothing.
#[derive(Debug, Drop, Error)]
pub(crate) enum ServerError {
    #[error("{0}")]
    System(io::Error),
    #[error("{0}")]
    Feed(OpeningError),
    #[error("{0}")]
    Tables(Refusal),
    #[error("the answer was cut off")]
    NoAnswer,
    #[error("{0}")]
    Refused(String),
    #[error("this isn't the server's feed, which `prt serve --feed` opens")]
    NoFeed,
    #[error("this isn't the server's port of atomic scripts, which `prt serve --atomic` opens")]
    NoAtomic,
    #[error("no answer came in time")]
    Silent,
    #[error("no whole answer came, so the changes may have been made")]
    Unknown,
}

impl From<io::Error> for ServerError {
    fn from(error: io::Error) -> ServerError {
        match error.kind() {
            ErrorKind::WouldBlock | ErrorKind::TimedOut => ServerError::Silent,
            _ => ServerError::System(error),
        }
    }
}

impl From<OpeningError> for ServerError {
    fn from(reason: OpeningError) -> ServerError {
        ServerError::Feed(reason)
    }
}

impl From<Refusal> for ServerError {
    fn from(refusal: Refusal) -> ServerError {
        ServerError::Tables(refusal)
    }
}

impl From<AllocError> for ServerError {
    fn from(_: AllocError) -> ServerError {
        ServerError::Tables(Refusal::NoMemory)
    }
}

/// What a server said to the line of a query.
#[derive(Drop)]
pub(crate) enum ServerAnswer {
    /// The tables, which its feed begins with.
    Tables(Version),
    /// The reply of a session.
    Reply(Vec<u8>),
}

/// Returns the first byte that comes, if the connection isn't closed before.
fn first_byte<R: Read>(reader: &mut BufReader<R>) -> io::Result<Option<u8>>
    ensures { Keeps (reader_remaining R.remaining reader.old) (reader_remaining R.remaining reader.new) }
{
    Ok(reader.fill_buf()?.first().copied())
}

/// Checks whether nothing comes for a second. What came is still to be read; calls wait for longer again.
fn is_silent<T: Read + OpenStream>(reader: &mut BufReader<T>, stream: &T) -> io::Result<bool>
    ensures { Keeps (reader_remaining T.remaining reader.old) (reader_remaining T.remaining reader.new) }
{
    stream.set_read_timeout(Some(Duration::from_secs(TRY)))?;
    let came = first_byte(reader);
    stream.set_read_timeout(Some(Duration::from_secs(PATIENCE)))?;
    match came {
        Ok(_) => Ok(false),
        Err(error) => match error.kind() {
            ErrorKind::WouldBlock | ErrorKind::TimedOut => Ok(true),
            _ => Err(error),
        },
    }
}

/// Checks whether a feed is at the other end, or one that was closed at once. What is silent for a second gets a query, which a
/// session answers.
fn is_feed<T: Read + Write + OpenStream>(
    reader: &mut BufReader<T>,
    stream: &mut T,
) -> io::Result<bool>
    ensures { Keeps (reader_remaining T.remaining reader.old) (reader_remaining T.remaining reader.new) }
{
    if is_silent(reader, stream)? {
        stream.write_all(QUERY)?;
    }
    let first = first_byte(reader)?;
    Ok(first.is_none() || first == Some(FEED))
}

/// Connects to the sessions of a server, or to its feed if the sessions of its folder may not be opened, and sends this query.
fn reach_to_ask<N: LocalNet>(
    rt: &N,
    alloc: Global,
    place: &ServerPlace<'_>,
    patience: Duration,
    sent: &[u8],
) -> io::Result<N::Stream>
    requires { IsInquiry sent.now }
    ensures { IfOk result (IsReached N.reaches rt.now place.now sent.now) }
{
    match rt.reach(alloc, place, Socket::Session, patience, sent) {
        Err(error) if error.kind() == ErrorKind::PermissionDenied => {
            rt.reach(alloc, place, Socket::Feed, patience, sent)
        }
        reached => reached,
    }
}

/// Reads the tables that a feed begins with.
fn read_version<R: Read>(alloc: Global, reader: &mut R) -> Result<Version, ServerError>
    ensures { IfOk result (IsFeedBefore (R.remaining reader.old) (R.remaining reader.new)) }
{
    let opening = read_opening(alloc, reader)?;
    Ok(opening.into_version(alloc)?)
}

/// Reads the tables of a feed, if one is at the other end. The reader is behind them.
///
/// # Errors
///
/// As of `open_feed`.
fn read_feed<T: Read + Write + OpenStream>(
    alloc: Global,
    reader: &mut BufReader<T>,
    stream: &mut T,
) -> Result<Version, ServerError>
    ensures { IfOk result (IsFeedBefore (reader_remaining T.remaining reader.old) (reader_remaining T.remaining reader.new)) }
{
    if !is_feed(reader, stream)? {
        return Err(ServerError::NoFeed);
    }
    let version = read_version(alloc, reader)?;
    // After its tables a feed may be silent for longer.
    stream.set_read_timeout(Some(Duration::from_secs(SILENCE)))?;
    Ok(version)
}

/// Connects to the feed of a server, and reads the tables as they are now. The reader is behind them.
///
/// # Errors
///
/// `NoFeed` if something else answers, as a session does. Otherwise what befell the connection, or the tables.
pub(crate) fn open_feed<N: LocalNet>(
    rt: &N,
    alloc: Global,
    place: &ServerPlace<'_>,
) -> Result<(BufReader<N::Stream>, Version), ServerError>
    ensures { IfOk result (λ opened.
        (told : AreTold N.reaches N.Stream.remaining rt.now place.now opened.1) × (reader_remaining N.Stream.remaining opened.0 ≡ told.rest)) }
{
    let patience = Duration::from_secs(PATIENCE);
    let stream = rt.reach(alloc, place, Socket::Feed, patience, &[])?;
    let mut same = stream.try_clone()?;
    let mut reader = BufReader::new(alloc, stream)?;
    let version = read_feed(alloc, &mut reader, &mut same)?;
    Ok((reader, version))
}

/// Connects to the feed of a server, and reads the tables as they are now.
pub(crate) fn read_tables<N: LocalNet>(
    rt: &N,
    alloc: Global,
    place: &ServerPlace<'_>,
) -> Result<Version, ServerError>
    ensures { IfOk result (AreTold N.reaches N.Stream.remaining rt.now place.now) }
{
    let (_, version) = open_feed(rt, alloc, place)?;
    Ok(version)
}

/// Checks whether a server says something at a place: its feed the tables, or a session the reply to a query.
pub(crate) fn is_there<N: LocalNet>(
    rt: &N,
    alloc: Global,
    place: &ServerPlace<'_>,
) -> io::Result<bool>
    ensures { IfOk result (λ is. is ≡ true → IsHeard N.reaches N.Stream.remaining rt.now place.now) }
{
    let mut stream = reach_to_ask(rt, alloc, place, Duration::from_secs(TRY), QUERY)?;
    let mut byte = [0u8; 1];
    let count = stream.read(&mut byte)?;
    Ok(count != 0)
}

/// Checks whether a reply to a query is whole.
fn is_whole(reply: &[u8]) -> bool {
    match last_line(reply) {
        Some(last) => last.starts_with(ANSWER) || last.starts_with(END),
        None => false,
    }
}

/// Reads the reply of a session to a query.
///
/// # Errors
///
/// `NoAnswer` if it isn't whole. Otherwise what befell the connection.
fn read_reply<R: Read>(alloc: Global, reader: &mut R) -> Result<Vec<u8>, ServerError>
    ensures { IfOk result (λ reply. IfSome (R.remaining reader.old) (λ all. reply.items ≡ all)) }
{
    let mut reply = Vec::new(alloc);
    reader.read_to_end(&mut reply)?;
    if is_whole(&reply) {
        Ok(reply)
    } else {
        Err(ServerError::NoAnswer)
    }
}

/// Reads what a server says to a query: a session the reply, a feed the tables.
fn read_told<R: Read>(alloc: Global, reader: &mut BufReader<R>) -> Result<ServerAnswer, ServerError>
    ensures { IfOk result (IsToldIn (reader_remaining R.remaining reader.old)) }
{
    if first_byte(reader)? == Some(FEED) {
        Ok(ServerAnswer::Tables(read_version(alloc, reader)?))
    } else {
        Ok(ServerAnswer::Reply(read_reply(alloc, reader)?))
    }
}

/// Connects to a server as `reach_to_ask` does, and sends it the line of a query, which is all that it is sent.
fn send_line<N: LocalNet>(
    rt: &N,
    alloc: Global,
    place: &ServerPlace<'_>,
    line: &[u8],
) -> Result<N::Stream, ServerError>
    requires { IsQueryLine line.now }
    ensures { IfOk result (IsReached N.reaches rt.now place.now (line.now ++ codes "\n")) }
{
    let patience = Duration::from_secs(PATIENCE);
    let mut sent = Vec::from_slice(alloc, line)?;
    sent.extend_from_slice(b"\n")?;
    let stream = reach_to_ask(rt, alloc, place, patience, &sent)?;
    // A session ends with its last line.
    stream.shutdown(Shutdown::Write)?;
    Ok(stream)
}

/// Reads the tables of the feed in a server's folder. It has clients of its own, so it answers also if all workers are busy.
fn told_by_feed<N: LocalNet>(rt: &N, alloc: Global, place: &ServerPlace<'_>) -> Option<ServerAnswer>
    ensures { (line : List ℕ) → IfSome result (IsToldBy N.reaches N.Stream.remaining rt.now place.now line) }
{
    match place {
        ServerPlace::Folder(_) => match read_tables(rt, alloc, place) {
            Ok(version) => Some(ServerAnswer::Tables(version)),
            Err(_) => None,
        },
        ServerPlace::Address(_) => None,
    }
}

/// Sends the line of a query to a server, and reads what it says: a session the reply, a feed the tables. If a session of a
/// server's folder says nothing for a second, its feed is read in its place, if that may be opened.
pub(crate) fn ask_line<N: LocalNet>(
    rt: &N,
    alloc: Global,
    place: &ServerPlace<'_>,
    line: &[u8],
) -> Result<ServerAnswer, ServerError>
    requires { IsQueryLine line.now }
    ensures { IfOk result (IsToldBy N.reaches N.Stream.remaining rt.now place.now line.now) }
{
    let stream = send_line(rt, alloc, place, line)?;
    let same = stream.try_clone()?;
    let mut reader = BufReader::new(alloc, stream)?;
    if is_silent(&mut reader, &same)? {
        if let Some(told) = told_by_feed(rt, alloc, place) {
            return Ok(told);
        }
    }
    read_told(alloc, &mut reader)
}

/// Reads what a server says of itself at the socket for that in its folder.
pub(crate) fn read_status<N: LocalNet>(
    rt: &N,
    alloc: Global,
    folder: &str,
) -> Result<Vec<u8>, ServerError>
    ensures { IfOk result (λ said. IsReport N.reaches N.Stream.remaining rt.now (Folder folder.entry) said.items) }
{
    let place = ServerPlace::Folder(folder);
    let patience = Duration::from_secs(PATIENCE);
    let mut stream = rt.reach(alloc, &place, Socket::Status, patience, &[])?;
    let mut said = Vec::new(alloc);
    stream.read_to_end(&mut said)?;
    Ok(said)
}
