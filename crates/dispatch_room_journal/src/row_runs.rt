//! Rows of a file that stand in a list, one after another.
ghost use Rattle.std.specs.Prelude.{◌≡◌, ◌<◌, ◌≤◌, ◌++◌, false, is_err, length, Err, IfErr, IfOk};
ghost use Rattle.std.specs.Prelude.{OnOk, vec_len};
ghost use Rattle.std.specs.Io.KnownBytes.{prepend_known};
ghost use Rattle.dispatch_room_journal.specs.Chains.{row_body, row_line};
ghost use Rattle.dispatch_room_journal.specs.RowRuns.{HeadIs, IsRow, TakesKnown, is_read};
ghost use Rattle.dispatch_room_journal.specs.WholeRecords.{GivesMore};
ghost use Rattle.dispatch_room_journal.specs.declared.journal_inbox.TheConstants.{ENTRY_ROOM};
ghost use Rattle.dispatch_room_journal.specs.declared.record_inbox.TheConstants.{RECORD_ROOM};
ghost use Rattle.dispatch_room_journal.specs.declared.row_runs.RowsFault.TheVariants.{Memory, Read};

use crate::entry_lines::EntryLine;
use crate::entry_prefixes::{self, EntryPrefix};
use crate::journal_inbox::ENTRY_ROOM;
use crate::line_texts::append;
use crate::record_fronts::{Front, Link, ROW, body_of, is_end, is_row, look_at};
use crate::record_headers::HEADER;
use crate::record_inbox::RecordInbox;
use crate::whole_records::{ends_with, read_more};
use arrayvec::ArrayVec;
use room_http_messages::sources::Source;
use room_model::digests::StartDigest;

/// The bytes of the longest line of a row, without its end.
pub const ROW_ROOM: usize = ENTRY_ROOM - 5;

/// What stands behind the rows that were taken.
#[derive(Clone, Copy)]
pub enum Behind {
    /// What stands before them was not read to its end: none were taken.
    Unread,
    /// Nothing: the list ends.
    End,
    /// A part begins, at a room whose rows have this digest.
    Room(StartDigest),
    /// Anything else.
    Other,
}

/// Why rows were not taken.
#[derive(Clone, Copy)]
pub enum RowsFault {
    /// A read failed.
    Read,
    /// Memory was refused.
    Memory,
}

/// The record of a line, which is given without its end.
pub fn row_of(line: &[u8]) -> ArrayVec<u8, ENTRY_ROOM>
    requires { length line.now ≤ ROW_ROOM }
    ensures { result.items ≡ row_body line.now }
{
    let mut text = ArrayVec::<u8, ENTRY_ROOM>::new();
    append(&mut text, ROW);
    append(&mut text, line);
    append(&mut text, b"\n");
    text
}

// The line in the record of a row, with its end.
fn line_of(body: &[u8]) -> &[u8]
    requires { IsRow body.now }
    ensures { result.now ≡ row_line body.now }
{
    &body[ROW.len()..]
}

// Puts the line in the record of a row behind others.
fn add_line(rows: &mut Vec<u8>, body: &[u8]) -> Result<(), RowsFault>
    requires { IsRow body.now }
    ensures items { OnOk result (rows.new.items ≡ rows.old.items ++ row_line body.now) }
    ensures more { OnOk result (vec_len rows.old < vec_len rows.new) }
    ensures fault { IfErr result (λ fault. fault ≡ Memory) }
{
    match rows.extend_from_slice(line_of(body)) {
        Ok(()) => Ok(()),
        Err(_) => Err(RowsFault::Memory),
    }
}

// Reads once more, and returns whether that gave anything.
fn read_rows<R: Source>(inbox: &mut RecordInbox, reader: &mut R) -> Result<bool, RowsFault>
    requires sound { R.has_failed reader.old ≡ false }
    requires room { length inbox.old < RECORD_ROOM }
    ensures failed { R.has_failed reader.new ≡ is_err result }
    ensures fault { IfErr result (λ fault. fault ≡ Read) }
    ensures gave { IfOk result (GivesMore inbox.old inbox.new (R.left reader.old)
        (R.left reader.new)) }
{
    match read_more(inbox, reader) {
        Ok(gave) => Ok(gave),
        Err(_) => Err(RowsFault::Read),
    }
}

// Which head a record is, if it is one.
fn head_in(body: &[u8]) -> Behind
    ensures { HeadIs body.now result }
{
    match entry_prefixes::look_at(body) {
        EntryPrefix::Whole(layout) => {
            if !ends_with(&layout, body) {
                return Behind::Other;
            }
            match layout.line {
                EntryLine::Room(head) => Behind::Room(head),
                EntryLine::Message { .. } => Behind::Other,
                EntryLine::Answer(_) => Behind::Other,
            }
        }
        EntryPrefix::Part => Behind::Other,
        EntryPrefix::Foreign => Behind::Other,
    }
}

/// Takes the rows that stand next in a chain that has come so far, and puts their lines behind
/// `rows`.
pub fn take_run<R: Source>(
    inbox: &mut RecordInbox,
    reader: &mut R,
    link: &mut Link,
    rows: &mut Vec<u8>,
) -> Result<Behind, RowsFault>
    requires sound { R.has_failed reader.old ≡ false }
    ensures failed { R.has_failed reader.new ≡ is_read result }
    ensures taken { IfOk result (TakesKnown link.old link.new
        (prepend_known inbox.old (R.left reader.old)) (prepend_known inbox.new (R.left reader.new))
        rows.old.items rows.new.items) }
{
    'looks: loop {
        match look_at(link, inbox.bytes()) {
            Front::Whole(size, check) => {
                let body = body_of(inbox.bytes(), size);
                if !is_row(body) {
                    return Ok(head_in(body));
                }
                add_line(rows, body)?;
                let has_ended = is_end(body);
                *link = Link { check, has_ended };
                inbox.remove(HEADER + size);
            }
            Front::Empty => {
                if !read_rows(inbox, reader)? {
                    return Ok(Behind::End);
                }
            }
            Front::Short => {
                if !read_rows(inbox, reader)? {
                    return Ok(Behind::Other);
                }
            }
            Front::Wrong => return Ok(Behind::Other),
        }
    }
}
