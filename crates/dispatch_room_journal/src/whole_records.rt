//! Where the whole records of a chain end.
ghost use Rattle.std.specs.Prelude.{◌≡◌, ◌↔◌, ◌≤◌, ◌<◌, ℕ, List, [], false, length, is_err, take};
ghost use Rattle.std.specs.Prelude.{IsTrue, Some, MatchResult};
ghost use Rattle.std.specs.Io.KnownBytes.{Keeps, prepend_known};
ghost use Rattle.dispatch_room_journal.specs.declared.entry_reader.EntryFault.TheVariants.{Foreign};
ghost use Rattle.dispatch_room_journal.specs.declared.entry_reader.EntryFault.TheVariants.{Read};
ghost use Rattle.std.specs.Str.{bytes_eq};
ghost use Rattle.dispatch_room_journal.specs.Chains.{opening};
ghost use Rattle.dispatch_room_journal.specs.CutRecords.{IsCutRecord, SaysEntry};
ghost use Rattle.dispatch_room_journal.specs.WholeRecords.{EndsChain, FailsChain, FailsForm};
ghost use Rattle.dispatch_room_journal.specs.WholeRecords.{GivesMore, IsForm, IsFull};
ghost use Rattle.dispatch_room_journal.specs.declared.record_inbox.TheConstants.{RECORD_ROOM};

use crate::cut_records::{is_cut_record, is_truncated};
use crate::entry_prefixes::{self, EntryLayout, EntryPrefix};
use crate::entry_reader::EntryFault;
use crate::record_fronts::{
    FIRST_LINK, Front, Link, OPENING, body_of, is_end, is_no_entry, look_at,
};
use crate::record_headers::HEADER;
use crate::record_inbox::RecordInbox;
use room_http_messages::sources::Source;

/// What is whole of a chain, after its first line.
#[derive(Clone, Copy)]
pub struct WholeChain {
    /// The number of the bytes of its whole records, which stops at the greatest of its type.
    pub bytes: u64,
    /// How far the chain has come with them.
    pub link: Link,
}

// Whether a record is an entry, or none as those are that stand among them.
fn says_entry(body: &[u8]) -> bool
    ensures { IsTrue result ↔ SaysEntry body.now }
{
    if is_no_entry(body) {
        return true;
    }
    match entry_prefixes::look_at(body) {
        EntryPrefix::Whole(layout) => ends_with(&layout, body),
        EntryPrefix::Part => false,
        EntryPrefix::Foreign => false,
    }
}

/// Whether an entry ends where these bytes do.
pub fn ends_with(layout: &EntryLayout, bytes: &[u8]) -> bool
    ensures { IsTrue result ↔ (layout.now.end ≡ length bytes.now) }
{
    layout.end == bytes.len()
}

/// Reads once more, and returns whether that gave anything.
pub fn read_more<R: Source>(inbox: &mut RecordInbox, reader: &mut R) -> Result<bool, EntryFault>
    requires sound { R.has_failed reader.old ≡ false }
    requires room { length inbox.old < RECORD_ROOM }
    ensures failed { R.has_failed reader.new ≡ is_err result }
    ensures gave { MatchResult result
        (GivesMore inbox.old inbox.new (R.left reader.old) (R.left reader.new))
        (λ fault. (fault ≡ Read) × (inbox.new ≡ inbox.old)
        × Keeps (R.left reader.old) (R.left reader.new)) }
{
    match inbox.fill(reader) {
        Ok(count) => Ok(0 < count),
        Err(_) => Err(EntryFault::Read),
    }
}

/// What is whole of a chain whose first line was read. What follows its whole records is nothing,
/// or the beginning of one; where it is anything else, or a record is no entry, the chain is no
/// journal.
pub fn whole_chain<R: Source>(
    inbox: &mut RecordInbox,
    reader: &mut R,
) -> Result<WholeChain, EntryFault>
    requires sound { R.has_failed reader.old ≡ false }
    ensures { (text : List ℕ) → prepend_known inbox.old (R.left reader.old) ≡ Some text
        → MatchResult result (EndsChain text) (FailsChain (R.has_failed reader.new) text) }
{
    let mut whole = WholeChain {
        bytes: 0,
        link: FIRST_LINK,
    };
    'looks: for _look in 0..u64::MAX {
        match look_at(&whole.link, inbox.bytes()) {
            Front::Whole(size, check) => {
                let body = body_of(inbox.bytes(), size);
                if !says_entry(body) {
                    return Err(EntryFault::Foreign);
                }
                let has_ended = is_end(body);
                whole.link = Link { check, has_ended };
                whole.bytes = whole.bytes.saturating_add((HEADER + size) as u64);
                inbox.remove(HEADER + size);
            }
            Front::Empty => {
                if !read_more(inbox, reader)? {
                    return Ok(whole);
                }
            }
            Front::Short => {
                if !read_more(inbox, reader)? {
                    return cut_to(&whole, inbox.bytes());
                }
            }
            Front::Wrong => return Err(EntryFault::Foreign),
        }
    }
    Err(EntryFault::Read)
}

// What is whole of a chain that ends with these bytes, if they are the beginning of one record.
fn cut_to(whole: &WholeChain, rest: &[u8]) -> Result<WholeChain, EntryFault>
    ensures { MatchResult result (λ found. (found ≡ whole.now) × IsCutRecord rest.now)
        (λ fault. (fault ≡ Foreign) × ¬ (IsCutRecord rest.now)) }
{
    if is_cut_record(rest) {
        Ok(*whole)
    } else {
        Err(EntryFault::Foreign)
    }
}

/// What a list is.
#[derive(Clone, Copy)]
pub enum ListForm {
    /// None yet: it is empty, or some first bytes of the line with which a chain begins.
    New,
    /// What is left of a chain that was truncated to nothing while it was written.
    Truncated,
    /// No chain.
    Plain,
    /// A chain, of which so much is whole behind its first line.
    Chain(WholeChain),
}

// Reads until there are so many bytes, and returns whether there are.
fn fill_to<R: Source>(
    inbox: &mut RecordInbox,
    reader: &mut R,
    count: usize,
) -> Result<bool, EntryFault>
    requires sound { R.has_failed reader.old ≡ false }
    requires room { count ≤ RECORD_ROOM }
    ensures failed { R.has_failed reader.new ≡ is_err result }
    ensures same { Keeps (prepend_known inbox.old (R.left reader.old))
        (prepend_known inbox.new (R.left reader.new)) }
    ensures enough { MatchResult result (IsFull count inbox.new (R.left reader.new))
        (λ fault. fault ≡ Read) }
{
    'reads: while inbox.bytes().len() < count {
        if !read_more(inbox, reader)? {
            return Ok(false);
        }
    }
    Ok(true)
}

// Whether all these bytes are the first bytes of a chain's opening line.
fn begin_line(bytes: &[u8]) -> bool
    requires { length bytes.now ≤ 7 }
    ensures { result ≡ bytes_eq (take (length bytes.now) opening) bytes.now }
{
    &OPENING[..bytes.len()] == bytes
}

// What a list is that has no more bytes than these.
fn form_of_few(bytes: &[u8]) -> ListForm
    requires { length bytes.now < 7 }
    ensures { IsForm bytes.now result }
{
    if begin_line(bytes) {
        return ListForm::New;
    }
    ListForm::Plain
}

// Whether the bytes begin with the line with which a chain begins.
fn begins_chain(bytes: &[u8]) -> bool
    requires { 7 ≤ length bytes.now }
    ensures { result ≡ bytes_eq (take 7 bytes.now) opening }
{
    &bytes[..7] == OPENING
}

// What a list is that begins otherwise than a chain does.
fn form_of_other<R: Source>(inbox: &mut RecordInbox, reader: &mut R) -> Result<ListForm, EntryFault>
    requires sound { R.has_failed reader.old ≡ false }
    requires long { 7 ≤ length inbox.old }
    requires other { bytes_eq (take 7 inbox.old) opening ≡ false }
    ensures { (text : List ℕ) → prepend_known inbox.old (R.left reader.old) ≡ Some text
        → MatchResult result (IsForm text) (FailsForm (R.has_failed reader.new) text) }
{
    fill_to(inbox, reader, HEADER)?;
    if is_truncated(inbox.bytes()) {
        return Ok(ListForm::Truncated);
    }
    Ok(ListForm::Plain)
}

/// What a list is, of which nothing was read: of a chain its records are looked through.
pub fn look_through<R: Source>(
    inbox: &mut RecordInbox,
    reader: &mut R,
) -> Result<ListForm, EntryFault>
    requires sound { R.has_failed reader.old ≡ false }
    requires none { inbox.old ≡ [] }
    ensures { (text : List ℕ) → R.left reader.old ≡ Some text
        → MatchResult result (IsForm text) (FailsForm (R.has_failed reader.new) text) }
{
    if !fill_to(inbox, reader, OPENING.len())? {
        return Ok(form_of_few(inbox.bytes()));
    }
    if !begins_chain(inbox.bytes()) {
        return form_of_other(inbox, reader);
    }
    inbox.remove(7);
    match whole_chain(inbox, reader) {
        Ok(whole) => Ok(ListForm::Chain(whole)),
        Err(fault) => Err(fault),
    }
}
