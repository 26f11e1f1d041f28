//! The status of an answer, found in its bytes.
ghost use Rattle.std.specs.Prelude.{◌≡◌, ◌≤◌, decimal, length, MatchOption};
ghost use Rattle.dispatch_room_journal.specs.Entries.{IsEntry, answer};
ghost use Rattle.dispatch_room_journal.specs.JournalRecords.{LacksStatus, status_in};

use crate::entry_lines::{GREATEST_STATUS, LEAST_STATUS};
use crate::journal_numbers::number;

/// The three digits that follow the version in an answer's first line (RFC 9112, section 4), or
/// what there is of them.
pub fn status_in(bytes: &[u8]) -> &[u8]
    ensures value { result.now ≡ status_in bytes.now }
    ensures short { length result.now ≤ 3 }
{
    let rest = &bytes[bytes.len().min(9)..];
    &rest[..rest.len().min(3)]
}

/// The status in an answer's first line; none where that has no number from 100 to 999.
pub fn status_of(bytes: &[u8]) -> Option<u16>
    ensures { MatchOption result (LacksStatus bytes.now) (λ status.
        IsEntry (answer status) × (status_in bytes.now ≡ decimal status)) }
{
    match number(status_in(bytes), LEAST_STATUS, GREATEST_STATUS) {
        Some(status) => Some(status as u16),
        None => None,
    }
}
