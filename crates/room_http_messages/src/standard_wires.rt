//! The readers and writers of std as sources and sinks.
ghost use Rattle.std.specs.Prelude.{◌≡◌, false};
ghost use Rattle.room_http_messages.specs.Streams.{known_count};

use crate::sinks::{Sink, WriteFailed};
use crate::sources::{ReadFailed, Source};
use std::io::{Read, Write};

/// A reader or a writer of std, as a socket or standard input. A call that was interrupted counts
/// as failed.
#[derive(Drop)]
pub struct Wire<T> {
    inner: T,
    reads: u32,
    failed: bool,
    ended: bool,
}

impl<T> Wire<T> {
    /// A wire on which no call was made yet.
    pub fn new(inner: T) -> Wire<T>
        ensures { result ≡ record { inner = inner; reads = 0; failed = false; ended = false } }
    {
        Wire {
            inner,
            reads: 0,
            failed: false,
            ended: false,
        }
    }
}

impl<T: Read> Source for Wire<T> {
    ghost left = { λ w. T.remaining w.inner };

    ghost reads = { λ w. known_count w.reads };

    ghost has_failed = { λ w. w.failed };

    ghost has_ended = { λ w. w.ended };

    fn read(&mut self, buf: &mut [u8]) -> Result<usize, ReadFailed> {
        self.reads = self.reads.saturating_add(1);
        match self.inner.read(buf) {
            Ok(count) => {
                if count == 0 && !buf.is_empty() {
                    self.ended = true;
                }
                Ok(count)
            }
            Err(_) => {
                self.failed = true;
                Err(ReadFailed)
            }
        }
    }
}

impl<T: Write> Sink for Wire<T> {
    ghost held = { λ w. T.contents w.inner };

    ghost has_failed = { λ w. w.failed };

    fn write(&mut self, buf: &[u8]) -> Result<usize, WriteFailed> {
        match self.inner.write(buf) {
            Ok(count) => {
                if count == 0 && !buf.is_empty() {
                    self.failed = true;
                }
                Ok(count)
            }
            Err(_) => {
                self.failed = true;
                Err(WriteFailed)
            }
        }
    }
}
