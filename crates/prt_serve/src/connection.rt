//! The two ends of a connection: replies to lines that came together go out together.
ghost use Rattle.std.specs.Prelude.{◌≡◌, ◌-◌, IfOk, length, true};
ghost use Rattle.std.specs.Io.Buffered.{reader_remaining, writer_buffer, writer_capacity, writer_contents};
ghost use Rattle.prt_serve.specs.Blocks.{BeginsWithLine};

use crate::worker::SessionKind;
use std::alloc::Global;
use std::io::{self, BufReader, BufWriter, ErrorKind, Read, Write};
use std::sync::Arc;
use std::sync::atomic::{AtomicBool, AtomicUsize, Ordering};

/// Checks whether a block begins with a whole line that has a word, and so gets a reply. It may miss one with white
/// space in front.
fn begins_with_line(block: &[u8]) -> bool
    ensures { result ≡ true → BeginsWithLine block.now }
{
    match block.first() {
        Some(first) => *first > b' ' && *first != b'#' && block.contains(&b'\n'),
        None => false,
    }
}

/// What the ends of a connection report to each other, and to the session: whether a further line is at hand, and how much
/// room there is for replies. One thread calls the ends, so what it asks here holds until it calls one of them.
#[derive(Drop)]
pub struct Pipeline {
    /// Whether all that was read are whole lines, and the next one lies whole in the block and gets a reply.
    is_at_hand: AtomicBool,
    /// How many bytes the block of replies has left.
    room: AtomicUsize,
}

impl Pipeline {
    /// Makes one of which nothing is known: no line is at hand, and there is no room.
    fn new() -> Pipeline {
        Pipeline {
            is_at_hand: AtomicBool::new(false),
            room: AtomicUsize::new(0),
        }
    }

    /// Notes whether the line with which this block begins comes next.
    fn note_line(&self, is_at_hand: bool, block: &[u8])
        requires { is_at_hand ≡ true → BeginsWithLine block.now }
    {
        // Writes only what changes: the reader is asked for each byte.
        if is_at_hand != self.is_at_hand.load(Ordering::SeqCst) {
            self.is_at_hand.store(is_at_hand, Ordering::SeqCst);
        }
    }

    /// Notes how many bytes this block of replies has left.
    fn note_room<T: Write + Drop>(&self, room: usize, blocks: &BufWriter<T>)
        requires { room ≡ writer_capacity blocks.now - length (writer_buffer blocks.now) }
    {
        self.room.store(room, Ordering::SeqCst);
    }

    fn is_at_hand(&self) -> bool {
        self.is_at_hand.load(Ordering::SeqCst)
    }

    /// Checks whether a further line is at hand, and a reply of this many bytes is written without a call to the client's
    /// end: then nothing waits for the client before that line is executed.
    pub(crate) fn goes_on_after(&self, size: usize) -> bool {
        self.is_at_hand() && size < self.room.load(Ordering::SeqCst)
    }
}

/// The end that lines are read from, in blocks.
#[derive(Drop)]
pub struct Lines<T: Read + Drop> {
    blocks: BufReader<T>,
    /// A line of an atomic script gets no reply of its own, so no flush waits for it.
    kind: SessionKind,
    pipeline: Arc<Pipeline>,
    /// How the last read failed, if it did.
    fault: Option<ErrorKind>,
}

/// The end that replies go to, in blocks. A flush waits while a further line is at hand that gets a reply: that one is
/// flushed too, and nothing is waited for until then. So no reply lies here while a read of the connection waits.
#[derive(Drop)]
pub struct Replies<T: Write + Drop> {
    blocks: BufWriter<T>,
    pipeline: Arc<Pipeline>,
}

/// The ends of a connection, and what they report of it.
#[derive(Drop)]
pub struct Ends<T: Read + Write + Drop> {
    pub lines: Lines<T>,
    pub replies: Replies<T>,
    pub pipeline: Arc<Pipeline>,
}

/// Makes the ends of a connection of its two streams.
pub fn ends_over<T: Read + Write + Drop>(
    alloc: Global,
    from: T,
    to: T,
    kind: SessionKind,
) -> io::Result<Ends<T>>
    ensures from { IfOk result (λ ends. reader_remaining T.remaining ends.lines.blocks ≡ T.remaining from) }
    ensures to { IfOk result (λ ends. writer_contents T.contents ends.replies.blocks ≡ T.contents to) }
{
    let pipeline = Arc::new(alloc, Pipeline::new())?;
    let replies = Replies {
        blocks: BufWriter::new(alloc, to)?,
        pipeline: Arc::try_clone(&pipeline)?,
    };
    replies.note_room();
    let lines = Lines {
        blocks: BufReader::new(alloc, from)?,
        kind,
        pipeline: Arc::try_clone(&pipeline)?,
        fault: None,
    };
    Ok(Ends {
        lines,
        replies,
        pipeline,
    })
}

impl<T: Read + Drop> Lines<T> {
    /// Notes what comes after these bytes, which were read.
    fn note(&self, bytes: &[u8]) {
        if let SessionKind::Together = self.kind {
            return;
        }
        let block = self.blocks.buffer();
        let is_at_hand = bytes.last() == Some(&b'\n') && begins_with_line(block);
        self.pipeline.note_line(is_at_hand, block);
    }

    /// Checks whether the last read failed because nothing came in time.
    pub(crate) fn is_timed_out(&self) -> bool {
        matches!(
            self.fault,
            Some(ErrorKind::WouldBlock) | Some(ErrorKind::TimedOut)
        )
    }
}

impl<T: Read + Drop> Read for Lines<T> {
    ghost remaining = { λ lines. reader_remaining T.remaining lines.blocks };

    fn read(&mut self, bytes: &mut [u8]) -> io::Result<usize> {
        match self.blocks.read(bytes) {
            Ok(count) => {
                self.note(&bytes[..count]);
                Ok(count)
            }
            Err(error) => {
                self.fault = Some(error.kind());
                Err(error)
            }
        }
    }
}

impl<T: Write + Drop> Replies<T> {
    /// Notes how much room there is.
    fn note_room(&self) {
        let blocks = &self.blocks;
        let room = blocks.capacity().saturating_sub(blocks.buffer().len());
        self.pipeline.note_room(room, blocks);
    }
}

impl<T: Write + Drop> Write for Replies<T> {
    ghost contents = { λ replies. writer_contents T.contents replies.blocks };

    fn write(&mut self, bytes: &[u8]) -> io::Result<usize> {
        let written = self.blocks.write(bytes);
        self.note_room();
        written
    }

    fn flush(&mut self) -> io::Result<()> {
        if self.pipeline.is_at_hand() {
            return Ok(());
        }
        let flushed = self.blocks.flush();
        self.note_room();
        flushed
    }
}
