//! Entries read from a source.
ghost use Rattle.std.specs.Prelude.{◌≡◌, false};
ghost use Rattle.dispatch_room_journal.specs.EntryReadings.{ReadsEntry, end_of};

use crate::entry_prefixes::{EntryLayout, EntryPrefix, look_at};
use crate::journal_inbox::JournalInbox;
use room_http_messages::sources::Source;

/// Why no entry was read.
#[derive(Clone, Copy, PartialEq, Eq)]
pub enum EntryFault {
    /// The journal ends within an entry.
    Cut,
    /// What follows begins with no entry.
    Foreign,
    /// A read failed.
    Read,
}

/// What is at the end of a journal that has these bytes left: nothing, or an entry that is cut.
fn end_of(bytes: &[u8]) -> Result<Option<EntryLayout>, EntryFault>
    ensures { result ≡ end_of bytes.now }
{
    if bytes.is_empty() {
        Ok(None)
    } else {
        Err(EntryFault::Cut)
    }
}

/// Reads until the entry at the front of the journal is whole, and returns its place in the inbox;
/// none at the end of the journal. It stays at the front of the inbox, where
/// `JournalInbox::message` shows a message's bytes, until `JournalInbox::remove` lets it go.
///
/// The bytes are looked at after each read, so what is no journal is refused at its first bytes.
pub fn read_entry<R: Source>(
    inbox: &mut JournalInbox,
    reader: &mut R,
) -> Result<Option<EntryLayout>, EntryFault>
    requires { R.has_failed reader.old ≡ false }
    ensures read { ReadsEntry R.left R.has_failed R.has_ended reader.old reader.new inbox.old.kept
        inbox.new.kept result }
    ensures taken { inbox.new.taken ≡ inbox.old.taken }
{
    'looks: loop {
        match look_at(inbox.bytes()) {
            EntryPrefix::Whole(layout) => return Ok(Some(layout)),
            EntryPrefix::Foreign => return Err(EntryFault::Foreign),
            EntryPrefix::Part => match inbox.fill(reader) {
                Err(_) => return Err(EntryFault::Read),
                Ok(0) => return end_of(inbox.bytes()),
                Ok(_) => {}
            },
        }
    }
}
