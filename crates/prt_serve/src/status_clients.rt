//! The loop that accepts clients that ask for the status, and answers them.

use crate::accept_loop::Accepting;
use crate::accepting::{AcceptResult, accept_one};
use crate::gate::Gate;
use std::alloc::Global;
use std::io::Write;
use std::net::{OpenListener, OpenStream};
use std::sync::Wait;
use std::sync::atomic::{AtomicBool, Ordering};
use std::thread;
use std::time::{Clock, Duration};

/// How many seconds the writing of a status may wait for its client.
const PATIENCE: u64 = 5;

/// How many milliseconds the loop pauses if no connection waits.
const PAUSE: u64 = 50;

/// Writes the status to a client, and closes its connection. Reads nothing of what it sent.
fn report<G: Gate, T: Write + OpenStream + Drop>(gate: &G, alloc: Global, mut stream: T) {
    let Some(text) = gate.status(alloc) else {
        return;
    };
    if stream
        .set_write_timeout(Some(Duration::from_secs(PATIENCE)))
        .is_err()
    {
        return;
    }
    // A new connection has room for the text, so one call writes it, and none waits twice.
    let _told = stream.write(text.as_bytes()).is_ok();
}

/// Reports the status to each client that comes, one after another, until it has to end.
pub(crate) fn report_all<H: Wait + Clock, G: Gate, L: OpenListener<Stream: Write + OpenStream>>(
    rt: &H,
    alloc: Global,
    gate: &G,
    listener: &L,
    is_ended: &AtomicBool,
) -> Accepting {
    // Waits for no client, so that it sees when it is to end.
    if listener.set_nonblocking(true).is_err() {
        return Accepting::Failed;
    }
    for _ in rt.forever() {
        if is_ended.load(Ordering::SeqCst) {
            return Accepting::Ended;
        }
        match accept_one(rt, gate, listener) {
            AcceptResult::Stream(stream, _) => report(gate, alloc, stream),
            AcceptResult::Nobody => thread::sleep(rt, Duration::from_millis(PAUSE)),
            AcceptResult::Never => return Accepting::Failed,
        }
    }
    unreachable!()
}
