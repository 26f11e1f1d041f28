//! The list of a room, in which the text of a change is kept before it is made.
ghost use Rattle.std.specs.Prelude.{◌≡◌, ◌≤◌, ◌<◌, ◌⊎◌, ◌∷◌, ◌++◌, ◌||◌, [], List, OnErr, OnOk};
ghost use Rattle.std.specs.Prelude.{None, Some, is_err, length, slice_get, take, true, false, ℕ};
ghost use Rattle.dispatch_room_journal.specs.Entries.{IsDigest};
ghost use Rattle.dispatch_room_journal.specs.RowRuns.{PutsRow};
ghost use Rattle.dispatch_room_journal.specs.TextParts.{Lacks};
ghost use Rattle.dispatch_room_changes.specs.KeptImports.{AreLinesOf, KeepsLines, KeepsHead};
ghost use Rattle.dispatch_room_changes.specs.KeptImports.{BeginsMarked, LacksRow, LacksRows};
ghost use Rattle.dispatch_room_changes.specs.KeptImports.{PutsHead, PutsRows};

use dispatch_room_journal::entry_texts::EntryText;
use dispatch_room_journal::list_ends::{ListEnd, put_entry, put_row};
use dispatch_room_journal::row_runs::ROW_ROOM;
use dispatch_room_serving::journal_files::{Lasting, WrittenFile};
use room_http::observers::JournalFailed;
use room_model::digests::StartDigest;

/// The list of a room, to which the text of a change is appended.
#[derive(Drop)]
pub struct ChangeList<F> {
    pub out: WrittenFile<F>,
    pub end: ListEnd,
}

impl<F> ChangeList<F> {
    /// A list that was opened, and goes on from here.
    pub fn new(file: F, end: ListEnd) -> ChangeList<F>
        ensures { result ≡ record { out = record { file = file; failed = false }; end = end } }
    {
        ChangeList {
            out: WrittenFile::new(file),
            end,
        }
    }
}

/// Keeps the digest of a room, and then the lines of a text, and makes all of it last. Until it
/// does, a mark says where it begins. It fails if the list is no chain, if a line is longer than
/// `ROW_ROOM` bytes, or if the list can't be marked or written.
pub fn keep_lines<F: Lasting>(
    list: &mut ChangeList<F>,
    head: &StartDigest,
    text: &[u8],
) -> Result<(), JournalFailed>
    requires sound { list.old.out.failed ≡ false }
    requires digest { IsDigest head.now.digits }
    ensures sound { OnOk result (list.new.out.failed ≡ false) }
    ensures kept { OnOk result (KeepsLines F.contents F.lasting list.old list.new head.now
        text.now) }
    ensures marked { OnOk result (BeginsMarked F.contents F.marks list.old) }
    ensures unmarked { OnOk result (F.marks list.new.out.file None) }
    ensures unkept { OnErr result (LacksRows list.new text.now) }
{
    keep_head(list, head)?;
    keep_rows(list, text)?;
    make_last(list)
}

/// Keeps the digest of a room, and makes it last. Until it does, a mark says where it begins.
pub fn keep_place<F: Lasting>(
    list: &mut ChangeList<F>,
    head: &StartDigest,
) -> Result<(), JournalFailed>
    requires sound { list.old.out.failed ≡ false }
    requires digest { IsDigest head.now.digits }
    ensures kept { OnOk result (KeepsHead F.contents F.lasting list.old list.new head.now) }
    ensures marked { OnOk result (BeginsMarked F.contents F.marks list.old) }
    ensures unmarked { OnOk result (F.marks list.new.out.file None) }
    ensures unkept { OnErr result (list.new.out.failed ≡ true) }
{
    keep_head(list, head)?;
    make_last(list)
}

// Makes all that was kept last, and then takes the mark away. If that fails, the list has failed.
fn make_last<F: Lasting>(list: &mut ChangeList<F>) -> Result<(), JournalFailed>
    ensures held { F.contents list.new.out.file ≡ F.contents list.old.out.file }
    ensures end { list.new.end ≡ list.old.end }
    ensures failed { list.new.out.failed ≡ (list.old.out.failed || is_err result) }
    ensures lasts { OnOk result (F.lasting list.new.out.file ≡ F.contents list.new.out.file) }
    ensures unmarked { OnOk result (F.marks list.new.out.file None) }
{
    if list.out.make_last() && list.out.unmark() {
        Ok(())
    } else {
        Err(JournalFailed)
    }
}

// Marks beside a list where it ends, and keeps the digest of a room there.
fn keep_head<F: Lasting>(list: &mut ChangeList<F>, head: &StartDigest) -> Result<(), JournalFailed>
    requires sound { list.old.out.failed ≡ false }
    requires digest { IsDigest head.now.digits }
    ensures failed { list.new.out.failed ≡ is_err result }
    ensures marked { OnOk result (BeginsMarked F.contents F.marks list.old) }
    ensures kept { OnOk result (PutsHead F.contents F.lasting list.old list.new head.now) }
{
    let entry = EntryText::room(head);
    if !list.out.mark() {
        return Err(JournalFailed);
    }
    match put_entry(&mut list.out, &mut list.end, entry.bytes()) {
        Ok(()) => Ok(()),
        Err(_) => Err(JournalFailed),
    }
}

// Keeps each line of a text as a row.
fn keep_rows<F: Lasting>(list: &mut ChangeList<F>, text: &[u8]) -> Result<(), JournalFailed>
    requires sound { list.old.out.failed ≡ false }
    ensures sound { OnOk result (list.new.out.failed ≡ false) }
    ensures kept { OnOk result ((lines : List (List ℕ)) × AreLinesOf text.now lines
        × PutsRows list.old.end list.new.end (F.contents list.old.out.file)
        (F.contents list.new.out.file) lines) }
    ensures unkept { OnErr result (LacksRows list.new text.now) }
{
    let mut left = text;
    'lines: while !left.is_empty() {
        let (line, rest) = first_line(left);
        keep_row(list, line)?;
        left = rest;
    }
    Ok(())
}

// Keeps a line as a row, if the list is a chain and the line not too long.
fn keep_row<F: Lasting>(list: &mut ChangeList<F>, line: &[u8]) -> Result<(), JournalFailed>
    requires sound { list.old.out.failed ≡ false }
    requires line { Lacks 10 line.now }
    ensures sound { OnOk result (list.new.out.failed ≡ false) }
    ensures kept { OnOk result (PutsRow list.old.end list.new.end
        (F.contents list.old.out.file) (F.contents list.new.out.file) line.now) }
    ensures unkept { OnErr result (LacksRow list.new line.now) }
{
    let link = match list.end {
        ListEnd::Chain(link) => link,
        ListEnd::Plain => return Err(JournalFailed),
    };
    if line.len() > ROW_ROOM {
        return Err(JournalFailed);
    }
    match put_row(&mut list.out, &mut list.end, &link, line) {
        Ok(()) => Ok(()),
        Err(_) => Err(JournalFailed),
    }
}

// The first line of a text, and what follows it.
fn first_line(text: &[u8]) -> (&[u8], &[u8])
    requires { 0 < length text.now }
    ensures line { Lacks 10 result.0.now }
    ensures is { (text.now ≡ result.0.now ++ 10 ∷ result.1.now)
        ⊎ ((text.now ≡ result.0.now) × (result.1.now ≡ [])) }
    ensures shorter { length result.1.now < length text.now }
{
    let end = line_end(text);
    if end < text.len() {
        (&text[..end], &text[end + 1..])
    } else {
        (text, &[])
    }
}

// How many bytes stand before the first line end of a text.
fn line_end(text: &[u8]) -> usize
    ensures within { result ≤ length text.now }
    ensures before { Lacks 10 (take result text.now) }
    ensures at { result < length text.now → slice_get text.now result ≡ Some 10 }
{
    for (at, byte) in text.iter().enumerate() {
        if *byte == b'\n' {
            return at;
        }
    }
    text.len()
}
