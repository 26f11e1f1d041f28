//! Where the whole entries of a journal end.
ghost use Rattle.std.specs.Prelude.{◌≡◌, ℕ, List, [], false, Some, MatchResult};
ghost use Rattle.dispatch_room_journal.specs.WholeEntries.{EndsWhole, FailsIn};

use crate::entry_reader::{EntryFault, read_entry};
use crate::journal_inbox::JournalInbox;
use room_http_messages::sources::Source;

/// How many bytes the whole entries are with which a journal begins, read by an inbox that is new.
/// What follows them is nothing, or an entry that was cut off; where it is anything else, the
/// journal is none.
pub fn whole_bytes<R: Source>(inbox: &mut JournalInbox, reader: &mut R) -> Result<u64, EntryFault>
    requires sound { R.has_failed reader.old ≡ false }
    requires kept { inbox.old.kept ≡ [] }
    requires taken { inbox.old.taken ≡ 0 }
    ensures { (text : List ℕ) → R.left reader.old ≡ Some text
        → MatchResult result (EndsWhole text) (FailsIn (R.has_failed reader.new) text) }
{
    'entries: for _entry in 0..u64::MAX {
        match read_entry(inbox, reader) {
            Ok(Some(layout)) => inbox.remove(&layout),
            Ok(None) => return Ok(inbox.taken()),
            Err(EntryFault::Cut) => return Ok(inbox.taken()),
            Err(EntryFault::Foreign) => return Err(EntryFault::Foreign),
            Err(EntryFault::Read) => return Err(EntryFault::Read),
        }
    }
    Err(EntryFault::Read)
}
