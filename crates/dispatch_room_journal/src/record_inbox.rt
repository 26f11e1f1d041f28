//! The bytes of a chain that were read and not given yet.
ghost use Rattle.std.specs.Prelude.{◌≡◌, ◌≤◌, ◌<◌, [], length, drop, take, ℕ, List};
ghost use Rattle.dispatch_room_journal.specs.declared.record_inbox.TheConstants.{RECORD_ROOM};
ghost use Rattle.dispatch_room_journal.specs.ReadSteps.{Fills};

use crate::journal_inbox::ENTRY_ROOM;
use crate::record_headers::HEADER;
use room_http_messages::sources::{ReadFailed, Source};
use std::marker::Model;

/// The bytes of the longest record, and of its line.
pub const RECORD_ROOM: usize = HEADER + ENTRY_ROOM;

/// The bytes of a chain that were read and not given yet. It has room for the longest record.
#[derive(Drop)]
pub struct RecordInbox {
    room: [u8; RECORD_ROOM],
    len: usize,
}

impl Model for RecordInbox {
    ghost Value = { List ℕ };

    ghost view = { λ inbox. take inbox.len inbox.room };

    ghost invariant = { λ inbox. (length inbox.room ≡ RECORD_ROOM) × (inbox.len ≤ RECORD_ROOM) };
}

impl RecordInbox {
    /// An inbox without bytes.
    pub fn new() -> RecordInbox
        ensures { result ≡ [] }
    {
        RecordInbox {
            room: [0; RECORD_ROOM],
            len: 0,
        }
    }

    /// The bytes.
    pub fn bytes(&self) -> &[u8]
        ensures value { result.now ≡ self.now }
        ensures fits { length result.now ≤ RECORD_ROOM }
    {
        &self.room[..self.len]
    }

    /// One read into the room that is left.
    pub fn fill<R: Source>(&mut self, reader: &mut R) -> Result<usize, ReadFailed>
        requires { length self.old < RECORD_ROOM }
        ensures { Fills R.left R.has_failed reader.old reader.new self.old self.new result }
    {
        let len = self.len;
        match reader.read(&mut self.room[len..]) {
            Ok(count) => {
                self.len = len + count;
                Ok(count)
            }
            Err(failed) => Err(failed),
        }
    }

    /// Lets so many bytes at the front go.
    pub fn remove(&mut self, gone: usize)
        requires { gone ≤ length self.old }
        ensures { self.new ≡ drop gone self.old }
    {
        let len = self.len;
        self.room.copy_within(gone..len, 0);
        self.len = len - gone;
    }
}
