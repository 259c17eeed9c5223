//! A replay of a list of events. A call that refuses for memory is made again.

use crate::output::tell;
use prt_command::Refusal;
use prt_replay::{play_events, read_events, trace_text};
use prt_session::{Reply, Text};
use std::alloc::Global;
use std::io::{Read, Write};

/// How many bytes are asked for by one call of the reader, and how many calls there are at most.
const BLOCK: usize = 4096;

const MOST_BLOCKS: usize = 16;

/// Reads the events, plays them, and makes the text of what they show.
fn replayed(alloc: Global, bytes: &[u8]) -> Result<Vec<u8>, Refusal> {
    let events = match read_events(alloc, bytes) {
        Err(Refusal::NoMemory) => read_events(alloc, bytes)?,
        other => other?,
    };
    let trace = match play_events(alloc, events.as_slice()) {
        Err(Refusal::NoMemory) => play_events(alloc, events.as_slice())?,
        other => other?,
    };
    match trace_text(alloc, &trace) {
        Err(Refusal::NoMemory) => trace_text(alloc, &trace),
        other => other,
    }
}

/// Replays the events of the input, which is no longer than some blocks.
pub(crate) fn replay<R: Read, W: Write>(
    alloc: Global,
    input: &mut R,
    output: &mut W,
) -> Result<(), Refusal> {
    let mut bytes = Vec::new(alloc);
    let mut block = [0u8; BLOCK];
    for _ in 0..MOST_BLOCKS {
        match input.read(&mut block) {
            Ok(0) => break,
            Ok(count) => bytes.extend_from_slice(&block[..count])?,
            Err(_) => return Err(Refusal::ReadFault),
        }
    }
    let text = replayed(alloc, bytes.as_slice())?;
    tell(output, &Reply::Answered(Text::new(text)))
}
