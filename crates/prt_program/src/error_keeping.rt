//! Streams whose faults are reported.
ghost use Rattle.std.specs.Prelude.{◌≡◌};

use std::io::{self, IsTerminal, Read, Write};

/// A stream that keeps the error of its last call that failed.
///
/// It reads and writes as the stream itself. What it returns to its caller of an error is the kind.
#[derive(Drop)]
pub struct ErrorKeeping<T> {
    stream: T,
    error: Option<io::Error>,
}

impl<T> ErrorKeeping<T> {
    /// Makes a stream of which no call has failed.
    pub fn new(stream: T) -> ErrorKeeping<T>
        ensures { result.stream ≡ stream }
    {
        ErrorKeeping {
            stream,
            error: None,
        }
    }

    /// Returns the error of the last call that failed, if one did.
    pub fn error(&self) -> Option<&io::Error> {
        self.error.as_ref()
    }

    /// Keeps an error, unless the call is only to be made again, and returns one of its kind.
    fn keep(&mut self, error: io::Error) -> io::Error
        ensures { self.new.stream ≡ self.old.stream }
    {
        let kind = error.kind();
        if kind != io::ErrorKind::Interrupted {
            self.error = Some(error);
        }
        io::Error::from(kind)
    }
}

impl<R: Read> Read for ErrorKeeping<R> {
    ghost remaining = { λ keeping. R.remaining keeping.stream };

    fn read(&mut self, buf: &mut [u8]) -> io::Result<usize> {
        match self.stream.read(buf) {
            Ok(count) => Ok(count),
            Err(error) => Err(self.keep(error)),
        }
    }
}

impl<W: Write> Write for ErrorKeeping<W> {
    ghost contents = { λ keeping. W.contents keeping.stream };

    fn write(&mut self, buf: &[u8]) -> io::Result<usize> {
        match self.stream.write(buf) {
            Ok(count) => Ok(count),
            Err(error) => Err(self.keep(error)),
        }
    }

    fn flush(&mut self) -> io::Result<()> {
        match self.stream.flush() {
            Ok(()) => Ok(()),
            Err(error) => Err(self.keep(error)),
        }
    }
}

impl<T: IsTerminal> IsTerminal for ErrorKeeping<T> {
    fn is_terminal(&self) -> bool {
        self.stream.is_terminal()
    }
}
