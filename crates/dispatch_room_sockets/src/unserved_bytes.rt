//! The bytes of a stream that were read ahead of the requests that are served.
ghost use Rattle.std.specs.Prelude.{◌≡◌, ◌≤◌, ◌<◌, ◌+◌, ◌++◌, ◌==◌, ℕ, List, [], IfOk, OnErr, drop};
ghost use Rattle.std.specs.Prelude.{length, min, take};
ghost use Rattle.std.specs.Vec.{vec_capacity};
ghost use Rattle.std.specs.Io.KnownBytes.{IsAtEnd, Keeps, prepend_known};
ghost use Rattle.room_http_messages.specs.declared.limits.TheConstants.{INBOX_ROOM};
ghost use Rattle.dispatch_room_sockets.specs.Lookaheads.{StaysInFront};

use crate::nonblocking_streams::{NoBytes, NonblockingStream};
use room_http_messages::limits::INBOX_ROOM;
use std::alloc::{AllocError, Global};
use std::marker::Model;

/// The bytes of a stream that were read and not served yet: no more than a request has, for which
/// there is room from the beginning. They go with their connection.
#[derive(Drop)]
pub struct UnservedBytes {
    bytes: Vec<u8>,
}

impl Model for UnservedBytes {
    ghost Value = { List ℕ };

    ghost view = { λ unserved. unserved.bytes.items };

    ghost invariant = { λ unserved. (length unserved.bytes.items ≤ INBOX_ROOM)
        × (INBOX_ROOM ≤ vec_capacity unserved.bytes) };
}

impl UnservedBytes {
    /// None was read yet.
    pub(crate) fn new(alloc: Global) -> Result<UnservedBytes, AllocError>
        ensures { IfOk result (λ it. it ≡ []) }
    {
        Ok(UnservedBytes {
            bytes: Vec::with_capacity(alloc, INBOX_ROOM)?,
        })
    }

    /// Whether all that was read is served.
    pub(crate) fn is_empty(&self) -> bool
        ensures { result ≡ (length self.now == 0) }
    {
        self.bytes.is_empty()
    }

    /// The bytes.
    pub(crate) fn bytes(&self) -> &[u8]
        ensures value { result.now ≡ self.now }
        ensures fits { length result.now ≤ INBOX_ROOM }
    {
        self.bytes.as_slice()
    }

    /// Reads what can be read now of a stream, by way of some room, and returns how many bytes that
    /// were: 0 at its end.
    pub(crate) fn fill<T: NonblockingStream>(
        &mut self,
        stream: &mut T,
        room: &mut [u8],
    ) -> Result<usize, NoBytes>
        ensures bytes { Keeps (prepend_known self.old (T.left stream.old))
            (prepend_known self.new (T.left stream.new)) }
        ensures given { T.gives stream.new result }
        ensures end { IfOk result (λ count. count ≡ 0 → 0 < length room.old
            → length self.old < INBOX_ROOM → IsAtEnd (T.left stream.new)) }
        ensures none { OnErr result (self.new ≡ self.old) }
        ensures grown { IfOk result (λ count. length self.new ≡ length self.old + count) }
        ensures front { StaysInFront self.old self.new }
    {
        let most = room.len().min(INBOX_ROOM - self.bytes.len());
        let count = stream.receive(&mut room[..most])?;
        // There is room for them.
        let _ = self.bytes.extend_from_slice(&room[..count]);
        Ok(count)
    }

    /// Gives the first of them to be served, as many as fit in `buf`, and returns how many.
    pub(crate) fn give(&mut self, buf: &mut [u8]) -> usize
        ensures count { result ≡ min (length self.old) (length buf.old) }
        ensures given { self.old ≡ take result buf.new ++ self.new }
        ensures room { length buf.new ≡ length buf.old }
    {
        let count = self.bytes.len().min(buf.len());
        buf[..count].copy_from_slice(&self.bytes.as_slice()[..count]);
        self.remove(count);
        count
    }

    // Lets so many of the first go.
    fn remove(&mut self, count: usize)
        requires { count ≤ length self.old }
        ensures { self.new ≡ drop count self.old }
    {
        let len = self.bytes.len();
        self.bytes.copy_within(count..len, 0);
        self.bytes.truncate(len - count);
    }
}
