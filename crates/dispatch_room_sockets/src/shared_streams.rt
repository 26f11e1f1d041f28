//! A stream that both sides of a connection hold, and whose reads and writes don't block.
ghost use Rattle.std.specs.Prelude.{◌≡◌, IfSome, None};

use crate::nonblocking_streams::NonblockingStream;
use crate::readiness::has_room_before;
use std::cell::Cell;
use std::io::{self, Error, ErrorKind, Write};
use std::net::OpenStream;
use std::os::fd::AsRawFd;
use std::time::Duration;

/// A stream that is written to, while the other side of its connection holds it too. How long a
/// write waits for room is kept here, so that it is set in the system only where one has to wait.
#[derive(Drop)]
pub struct SharedStream<T> {
    stream: T,
    wait: Cell<Option<Duration>>,
}

impl<T: NonblockingStream + AsRawFd> SharedStream<T> {
    /// The stream of a connection.
    pub(crate) fn new(stream: &T) -> Option<SharedStream<T>>
        ensures same { IfSome result (λ it. T.is_same it.stream stream.now) }
        ensures none { result ≡ None → T.is_full stream.now }
    {
        Some(SharedStream {
            stream: stream.share()?,
            wait: Cell::new(None),
        })
    }

    // Waits for room. Where there is some, that was interrupted: what was is tried again.
    fn wait_for_room(&self) -> Error {
        if has_room_before(self.stream.as_raw_fd(), self.wait.get()) {
            Error::from(ErrorKind::Interrupted)
        } else {
            Error::from(ErrorKind::TimedOut)
        }
    }
}

impl<T: NonblockingStream + AsRawFd> Write for SharedStream<T> {
    fn write(&mut self, buf: &[u8]) -> io::Result<usize> {
        match self.stream.send(buf) {
            Err(error) if error.kind() == ErrorKind::WouldBlock => Err(self.wait_for_room()),
            given => given,
        }
    }

    fn flush(&mut self) -> io::Result<()> {
        Ok(())
    }
}

impl<T: NonblockingStream + AsRawFd> OpenStream for SharedStream<T> {
    fn set_write_timeout(&self, wait: Option<Duration>) -> io::Result<()> {
        self.wait.set(wait);
        Ok(())
    }
}
