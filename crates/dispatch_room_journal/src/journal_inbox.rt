//! The bytes of a journal that were read and that no entry has taken yet.
ghost use Rattle.std.specs.Prelude.{◌≡◌, ◌+◌, ◌≤◌, ◌<◌, [], length, drop, take, min, vec_len, IfOk};
ghost use Rattle.dispatch_room_journal.specs.JournalReads.{InboxBytes};
ghost use Rattle.dispatch_room_journal.specs.declared.journal_inbox.TheConstants.{ENTRY_ROOM};
ghost use Rattle.dispatch_room_journal.specs.Entries.{Entry, bytes_of};
ghost use Rattle.dispatch_room_journal.specs.EntryPrefixes.{IsLayout};
ghost use Rattle.dispatch_room_journal.specs.EntryReadings.{Fills};

use crate::entry_lines::EntryLine;
use crate::entry_prefixes::EntryLayout;
use room_http_messages::limits::INBOX_ROOM;
use room_http_messages::sources::{ReadFailed, Source};
use std::alloc::{AllocError, Global};
use std::marker::Model;

/// The bytes of the longest entry: its line, a message, and their ends.
pub const ENTRY_ROOM: usize = 25 + INBOX_ROOM;

/// The bytes of a journal that were read and that no entry has taken yet. It has room for the
/// longest entry, which `new` takes once: nothing else here takes memory.
#[derive(Drop)]
pub struct JournalInbox {
    room: Vec<u8>,
    len: usize,
    taken: u64,
}

impl Model for JournalInbox {
    ghost Value = { InboxBytes };

    ghost view = { λ inbox. record {
      kept = take inbox.len inbox.room.items;
      taken = inbox.taken;
    } };

    ghost invariant = { λ inbox. (vec_len inbox.room ≡ ENTRY_ROOM) × (inbox.len ≤ ENTRY_ROOM) };
}

impl JournalInbox {
    /// An inbox without bytes.
    pub fn new(alloc: Global) -> Result<JournalInbox, AllocError>
        ensures kept { IfOk result (λ inbox. inbox.kept ≡ []) }
        ensures taken { IfOk result (λ inbox. inbox.taken ≡ 0) }
    {
        Ok(JournalInbox {
            room: vec![in alloc; 0; ENTRY_ROOM]?,
            len: 0,
            taken: 0,
        })
    }

    /// The bytes.
    pub fn bytes(&self) -> &[u8]
        ensures value { result.now ≡ self.now.kept }
        ensures fits { length result.now ≤ ENTRY_ROOM }
    {
        &self.room.as_slice()[..self.len]
    }

    /// The number of the bytes that entries have taken, which stops at the greatest of its type.
    pub fn taken(&self) -> u64
        ensures { result ≡ self.now.taken }
    {
        self.taken
    }

    /// One read into the room that is left.
    pub fn fill<R: Source>(&mut self, reader: &mut R) -> Result<usize, ReadFailed>
        requires { length self.old.kept < ENTRY_ROOM }
        ensures read { Fills R.left R.has_failed R.has_ended reader.old reader.new self.old.kept
            self.new.kept result }
        ensures taken { self.new.taken ≡ self.old.taken }
    {
        let len = self.len;
        match reader.read(&mut self.room.as_mut_slice()[len..]) {
            Ok(count) => {
                self.len = len + count;
                Ok(count)
            }
            Err(failed) => Err(failed),
        }
    }

    /// The bytes of the message at the front, none where another entry stands there.
    pub fn message(&self, layout: &EntryLayout) -> &[u8]
        requires { (e : Entry) × IsLayout self.now.kept layout.now e }
        ensures { (e : Entry) → IsLayout self.now.kept layout.now e → result.now ≡ bytes_of e }
    {
        match layout.line {
            EntryLine::Message { size, .. } => &self.bytes()[layout.start..layout.start + size],
            EntryLine::Room(_) | EntryLine::Answer(_) => &[],
        }
    }

    /// Lets the entry at the front go, so that what follows it comes to the front.
    pub fn remove(&mut self, layout: &EntryLayout)
        requires { (e : Entry) × IsLayout self.old.kept layout.now e }
        ensures kept { self.new.kept ≡ drop layout.now.end self.old.kept }
        ensures taken { self.new.taken ≡ min (self.old.taken + layout.now.end) u64.MAX }
    {
        let (end, len) = (layout.end, self.len);
        self.room.copy_within(end..len, 0);
        self.len = len - end;
        self.taken = self.taken.saturating_add(end as u64);
    }
}
