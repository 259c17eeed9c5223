//! What is reported on standard error beside a session.
use prt_machine::{KeepsError, tell};
use prt_program::cause_message;
use std::alloc::{AllocError, Global};
use std::io::Write;
use std::sync::{Mutex, Wait};

/// Writes a message to an end that threads share, if there was memory for it.
pub(crate) fn tell_shared<H: Wait, E: Write + Drop>(
    rt: &H,
    message: Result<String, AllocError>,
    errors: &Mutex<E>,
) {
    if let Ok(message) = message {
        let _ = errors.lock(rt).write_all(message.as_bytes());
    }
}

/// Reports why a stream of this name failed, if it did.
pub(crate) fn tell_failure<T: KeepsError, E: Write>(
    alloc: Global,
    name: &str,
    stream: &T,
    errors: &mut E,
) {
    if let Some(error) = stream.error() {
        tell(cause_message(alloc, &name, error), errors);
    }
}

/// Reports why the standard input and the standard output failed, if they did.
pub(crate) fn tell_failures<R: KeepsError, W: KeepsError, E: Write>(
    alloc: Global,
    input: &R,
    output: &W,
    errors: &mut E,
) {
    tell_failure(alloc, "standard input", input, errors);
    tell_failure(alloc, "standard output", output, errors);
}
