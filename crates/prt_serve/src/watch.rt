//! Looks at the connection of a feed while nothing is published.

use std::io::{ErrorKind, Read};
use std::time::Duration;

/// How many milliseconds lie between a change and the first look; each later pause is twice as long.
const FIRST_PAUSE: u64 = 10;

/// The longest pause between two looks, in milliseconds.
const LONGEST_PAUSE: u64 = 1000;

/// After how many milliseconds in which nothing was written a heartbeat is due.
const HEARTBEAT: u64 = 15_000;

/// What a look at a connection shows of its peer.
#[derive(Clone, Copy)]
pub(crate) enum Peer {
    There,
    /// It sends nothing more. It may still read, or have gone.
    Ended,
    Gone,
}

/// What is to be done after a look.
#[derive(Clone, Copy)]
pub(crate) enum Due {
    Nothing,
    Heartbeat,
    Closing,
}

/// Looks at the peer, by an end whose reads hardly wait. What it sent is thrown away.
pub(crate) fn look<R: Read>(reader: &mut R) -> Peer {
    let mut thrown = [0u8; 64];
    match reader.read(&mut thrown) {
        Ok(0) => Peer::Ended,
        Ok(_) => Peer::There,
        Err(error) => match error.kind() {
            ErrorKind::WouldBlock | ErrorKind::TimedOut | ErrorKind::Interrupted => Peer::There,
            _ => Peer::Gone,
        },
    }
}

/// Says when to look at the peer of a feed, and when a heartbeat is due.
#[derive(Drop)]
pub(crate) struct Watch<'a, R: Read> {
    reader: &'a mut R,
    /// How many milliseconds lie before the next look.
    pause: u64,
    /// For how many milliseconds nothing was written.
    quiet: u64,
}

impl<'a, R: Read> Watch<'a, R> {
    pub(crate) fn new(reader: &'a mut R) -> Watch<'a, R> {
        Watch {
            reader,
            pause: FIRST_PAUSE,
            quiet: 0,
        }
    }

    /// Returns how long to wait for a command before the next look.
    pub(crate) fn pause(&self) -> Duration {
        Duration::from_millis(self.pause)
    }

    /// Notes that something was written.
    pub(crate) fn wrote(&mut self) {
        self.quiet = 0;
    }

    /// Looks, after a pause in which nothing was written. A heartbeat is due at each look at a peer that sends nothing more,
    /// since only a write shows whether it has gone, and after 15 seconds in any case.
    pub(crate) fn look(&mut self) -> Due {
        self.quiet = self.quiet.saturating_add(self.pause);
        self.pause = self.pause.saturating_mul(2).min(LONGEST_PAUSE);
        match look(self.reader) {
            Peer::Gone => Due::Closing,
            Peer::Ended => Due::Heartbeat,
            _ if self.quiet >= HEARTBEAT => Due::Heartbeat,
            _ => Due::Nothing,
        }
    }
}
