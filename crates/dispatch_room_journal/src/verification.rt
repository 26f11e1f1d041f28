//! A whole list, read and judged.
ghost use Rattle.std.specs.Prelude.{◌≡◌, ℕ, List, [], false, Some, MatchResult};
ghost use Rattle.dispatch_room_journal.specs.ListTallies.{IsFlawed, IsVerified};

use crate::entry_reader::{EntryFault, read_entry};
use crate::journal_inbox::JournalInbox;
use crate::list_tallies::{Defect, Tally};
use room_http_messages::sources::Source;

/// What a list holds, read by an inbox that is new: `None` where nothing was begun; or where it is
/// no list.
pub fn verify<R: Source>(inbox: &mut JournalInbox, list: &mut R) -> Result<Option<Tally>, Defect>
    requires sound { R.has_failed list.old ≡ false }
    requires kept { inbox.old.kept ≡ [] }
    requires taken { inbox.old.taken ≡ 0 }
    ensures { (text : List ℕ) → R.left list.old ≡ Some text
        → MatchResult result (IsVerified text) (IsFlawed (R.has_failed list.new) text) }
{
    let mut tally = Tally::new();
    'entries: for entry in 0..u64::MAX {
        match read_entry(inbox, list) {
            Ok(Some(layout)) => {
                tally.note(&layout.line);
                inbox.remove(&layout);
            }
            Ok(None) => {
                if entry == 0 {
                    return Ok(None);
                }
                return Ok(Some(tally));
            }
            Err(fault) => return Err(tally.defect(fault)),
        }
    }
    Err(tally.defect(EntryFault::Read))
}
