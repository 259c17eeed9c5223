//! What is called as connections come and go, and round each line of a session.

use prt_command::Command;
use prt_session::{Observer, Reply};
use std::alloc::Global;
use std::io;
use std::net::SocketAddr;

/// How many connections are on their way to a worker.
#[derive(Clone, Copy)]
pub struct Queued {
    /// How many are in the waiting room.
    pub in_room: usize,
    /// How many have left it for the workers, since the room was opened.
    pub handed_over: u64,
}

/// Is called around each line's execution and reply, by the thread that serves the session. Sessions and their lines
/// are numbered from 1. No call may wait for a client.
pub trait Gate {
    /// Comes before a line is executed.
    fn before(&self, session: u64, line: u64);

    /// Comes once the writer took this reply to the line of this text, or failed. A client at a Unix socket has the address
    /// 0.0.0.0:0.
    fn after(&self, session: u64, client: &SocketAddr, line: u64, text: &[u8], reply: &Reply);

    /// Comes once a command of an atomic script was made, with its number, after the client was answered.
    fn made(&self, _session: u64, _client: &SocketAddr, _number: u64, _command: &Command) {}

    /// Comes when a worker takes a session, before its first line.
    fn begins(&self, _session: u64) {}

    /// Comes when a session has ended.
    fn ends(&self, _session: u64) {}

    /// Comes when the waiting room was looked through, from its own thread.
    fn queued(&self, _queued: Queued) {}

    /// Comes when a connection wasn't accepted and the next one may be, before accepting is tried again.
    fn not_accepted(&self, _error: &io::Error) {}

    /// Makes the text for a client that asks for the status. `None` if there is none, or memory is refused.
    fn status(&self, _alloc: Global) -> Option<String> {
        None
    }
}

/// Does nothing.
#[derive(Clone, Copy)]
pub struct OpenGate;

impl Gate for OpenGate {
    fn before(&self, _session: u64, _line: u64) {}

    fn after(
        &self,
        _session: u64,
        _client: &SocketAddr,
        _line: u64,
        _text: &[u8],
        _reply: &Reply,
    ) {}
}

/// The gate, as the observer of one session.
#[derive(Drop)]
pub(crate) struct Gated<'a, G: Gate> {
    pub(crate) gate: &'a G,
    pub(crate) session: u64,
    /// Where the client is.
    pub(crate) client: SocketAddr,
}

impl<'a, G: Gate> Observer for Gated<'a, G> {
    fn before(&mut self, line: u64) {
        self.gate.before(self.session, line);
    }

    fn after(&mut self, line: u64, text: &[u8], reply: &Reply) {
        self.gate
            .after(self.session, &self.client, line, text, reply);
    }
}
