//! A source that notes whether a read found its end.
ghost use Rattle.std.specs.Prelude.{◌≡◌, false};

use room_http_messages::sources::{ReadFailed, Source};
use std::marker::Model;

/// A source, and whether a read found its end.
#[derive(Drop)]
pub struct NotedSource<R: Source> {
    reader: R,
    has_ended: bool,
}

// It knows whether its end was found.
impl<R: Source> Model for NotedSource<R> {
    ghost Value = { R };

    ghost view = { λ noted. noted.reader };

    ghost invariant = { λ noted. noted.has_ended ≡ R.has_ended noted.reader };
}

impl<R: Source> NotedSource<R> {
    /// A source whose end was not found yet.
    pub fn new(reader: R) -> NotedSource<R>
        requires { R.has_ended reader ≡ false }
        ensures { result ≡ reader }
    {
        NotedSource {
            reader,
            has_ended: false,
        }
    }

    /// Whether a read found the end.
    pub fn has_ended(&self) -> bool
        ensures { result ≡ R.has_ended self.now }
    {
        self.has_ended
    }
}

impl<R: Source> Source for NotedSource<R> {
    ghost left = { λ reader. R.left reader };

    ghost reads = { λ reader. R.reads reader };

    ghost has_failed = { λ reader. R.has_failed reader };

    ghost has_ended = { λ reader. R.has_ended reader };

    fn read(&mut self, buf: &mut [u8]) -> Result<usize, ReadFailed> {
        let count = self.reader.read(buf)?;
        if count == 0 && !buf.is_empty() {
            self.has_ended = true;
        }
        Ok(count)
    }
}
