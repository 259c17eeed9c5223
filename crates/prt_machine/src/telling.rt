//! What is reported on standard error beside an answer.
use std::alloc::AllocError;
use std::io::Write;

/// Writes a message, if there was memory for it. Nobody misses one that can't be written.
pub fn tell<E: Write>(message: Result<String, AllocError>, errors: &mut E) {
    if let Ok(message) = message {
        let _ = errors.write_all(message.as_bytes());
    }
}
