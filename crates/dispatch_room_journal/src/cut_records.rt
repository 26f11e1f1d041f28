//! What is lost of a chain: the end of its last record, which a stop left half written, or its
//! beginning. Nothing else is taken for a record that is half written: the size in a record's line
//! stands under no check, so the record behind it is looked at too.
ghost use Rattle.std.specs.Prelude.{◌≡◌, ◌↔◌, ◌≤◌, ◌<◌, ◌++◌, ℕ, List, length, IsTrue, true};
ghost use Rattle.dispatch_room_journal.specs.Chains.{is_no_entry};
ghost use Rattle.dispatch_room_journal.specs.CutRecords.{BeginsLine, IsCutBody, IsCutRecord};
ghost use Rattle.dispatch_room_journal.specs.CutRecords.{IsTruncated, may_stand};
ghost use Rattle.dispatch_room_journal.specs.TextParts.{Lacks};

use crate::entry_lines::{EntryLine, cut, line_in};
use crate::line_prefixes::begins_line;
use crate::record_fronts::{END, ROW, number_in};
use crate::record_headers::HEADER;

/// Whether a text is the beginning of one record.
pub fn is_cut_record(text: &[u8]) -> bool
    ensures { IsTrue result ↔ IsCutRecord text.now }
{
    if text.len() < HEADER {
        return begins_record_line(text);
    }
    begins_record_line(&text[..HEADER]) && is_cut_body(number_in(text), &text[HEADER..])
}

/// Whether a text begins with the line of a record, as what is left of a truncated chain does.
pub fn is_truncated(text: &[u8]) -> bool
    ensures { IsTrue result ↔ IsTruncated text.now }
{
    HEADER <= text.len() && begins_record_line(&text[..HEADER])
}

// Whether these bytes are the first of the line before a record, or all of it.
fn begins_record_line(line: &[u8]) -> bool
    requires { length line.now ≤ HEADER }
    ensures { IsTrue result ↔ BeginsLine line.now }
{
    for at in 0..line.len() {
        if !may_stand(at, line[at]) {
            return false;
        }
    }
    true
}

// Whether a byte may stand at a place of the line before a record: the digits of a size, a space,
// the digits of a check, and a line end.
fn may_stand(at: usize, byte: u8) -> bool
    ensures { result ≡ may_stand at byte }
{
    match at {
        0..=4 => byte.is_ascii_digit(),
        5 => byte == b' ',
        70 => byte == b'\n',
        _ => byte.is_ascii_digit() || (b'a'..=b'f').contains(&byte),
    }
}

// Whether these bytes are the beginning of a record of this size. Of those whose first line is
// whole, only a message goes on behind it.
fn is_cut_body(size: usize, part: &[u8]) -> bool
    ensures { IsTrue result ↔ IsCutBody size part.now }
{
    match cut(part, b'\n') {
        None => begins_line(part) || begins_no_entry(part),
        Some((line, rest)) => match line_in(line) {
            Some(EntryLine::Message { size: bytes, .. }) => {
                rest.len() <= bytes && line.len() + bytes + 2 == size
            }
            Some(EntryLine::Room(_)) => false,
            Some(EntryLine::Answer(_)) => false,
            None => false,
        },
    }
}

// Whether bytes without a line end are the first of a row, or of the record of a list that ended.
fn begins_no_entry(part: &[u8]) -> bool
    requires { Lacks 10 part.now }
    ensures { IsTrue result ↔ ((more : List ℕ) × (0 < length more)
        × (is_no_entry (part.now ++ more) ≡ true)) }
{
    ROW.starts_with(part) || (part.starts_with(ROW) || END.starts_with(part))
}
