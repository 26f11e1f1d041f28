//! What is at the front of the bytes of a chain.
ghost use Rattle.std.specs.Prelude.{◌≡◌, ◌≤◌, ◌+◌, ◌-◌, length, take};
ghost use Rattle.std.specs.Str.{bytes_eq};
ghost use Rattle.dispatch_room_journal.specs.Chains.{is_end, is_whole_line, is_row, is_no_entry};
ghost use Rattle.dispatch_room_journal.specs.Chains.{next_check, sha256_digits};
ghost use Rattle.dispatch_room_journal.specs.RecordFronts.{Stays, body_in, comes_next, front_of};
ghost use Rattle.dispatch_room_journal.specs.RecordFronts.{number_in, sized_front, whole_front};
ghost use Rattle.dispatch_room_journal.specs.declared.record_headers.TheConstants.{HEADER};
ghost use Rattle.dispatch_room_journal.specs.declared.journal_inbox.TheConstants.{ENTRY_ROOM};

use crate::entry_lines::cut;
use crate::journal_inbox::ENTRY_ROOM;
use crate::record_headers::{CHECK_DIGITS, FIRST_CHECK, HEADER, check_after, header_of};

/// What is at the front of the bytes of a chain.
#[derive(Clone, Copy)]
pub enum Front {
    /// Nothing.
    Empty,
    /// Too few bytes to say.
    Short,
    /// No record that comes next.
    Wrong,
    /// A record of so many bytes, after its line, with this check.
    Whole(usize, [u8; CHECK_DIGITS]),
}

/// How far a chain has come.
#[derive(Clone, Copy)]
pub struct Link {
    /// The check of the last record.
    pub check: [u8; CHECK_DIGITS],
    /// Whether the last record says that the list ended well.
    pub has_ended: bool,
}

/// Where a chain begins.
pub const FIRST_LINK: Link = Link {
    check: FIRST_CHECK,
    has_ended: false,
};

/// The line with which a list begins that is a chain.
pub const OPENING: &[u8] = b"list 2\n";

/// The record of a list that ended well.
pub const END: &[u8] = b"end\n";

/// The word with which a record begins that is a row of a file which changes the room.
pub const ROW: &[u8] = b"row ";

/// Whether a record says that the list ended well.
pub fn is_end(body: &[u8]) -> bool
    ensures { result ≡ is_end body.now }
{
    body == END
}

// Whether these bytes are a line with its end.
fn is_whole_line(bytes: &[u8]) -> bool
    ensures { result ≡ is_whole_line bytes.now }
{
    match cut(bytes, b'\n') {
        Some((_, rest)) => rest.is_empty(),
        None => false,
    }
}

/// Whether a record is a row of such a file: that word, and a line with its end.
pub fn is_row(body: &[u8]) -> bool
    ensures { result ≡ is_row body.now }
{
    body.starts_with(ROW) && is_whole_line(&body[ROW.len()..])
}

/// Whether a record is no entry: it says that the list ended well, or is a row.
pub fn is_no_entry(body: &[u8]) -> bool
    ensures { result ≡ is_no_entry body.now }
{
    is_end(body) || is_row(body)
}

// Whether a record may come next: a list ends well once before it goes on.
fn comes_next(has_ended: bool, body: &[u8]) -> bool
    ensures { result ≡ comes_next has_ended body.now }
{
    if has_ended {
        return !is_end(body);
    }
    true
}

// The value of a digit.
fn value(digit: u8) -> usize
    ensures { result ≡ digit - 48 }
{
    usize::from(digit.saturating_sub(b'0'))
}

/// The number whose five digits the bytes begin with.
pub fn number_in(bytes: &[u8]) -> usize
    requires { 5 ≤ length bytes.now }
    ensures { result ≡ number_in bytes.now }
{
    value(bytes[0]) * 10_000
        + value(bytes[1]) * 1000
        + value(bytes[2]) * 100
        + value(bytes[3]) * 10
        + value(bytes[4])
}

/// The bytes of a record of this size, after its line.
pub fn body_of(bytes: &[u8], size: usize) -> &[u8]
    requires { HEADER + size ≤ length bytes.now }
    ensures { result.now ≡ body_in size bytes.now }
{
    &bytes[HEADER..HEADER + size]
}

// Whether the line before a record is this one.
fn has_line(bytes: &[u8], line: &[u8]) -> bool
    requires { HEADER ≤ length bytes.now }
    ensures { result ≡ bytes_eq (take HEADER bytes.now) line.now }
{
    &bytes[..HEADER] == line
}

// Whether the record of so many bytes that stands there comes next.
fn whole_front(link: &Link, bytes: &[u8], size: usize) -> Front
    requires some { 1 ≤ size }
    requires fits { size ≤ ENTRY_ROOM }
    requires whole { HEADER + size ≤ length bytes.now }
    ensures { Stays (λ text. whole_front link.now.has_ended text size
        (next_check sha256_digits link.now.check (body_in size text)))
        link.now.has_ended bytes.now result }
{
    let body = body_of(bytes, size);
    if !comes_next(link.has_ended, body) {
        return Front::Wrong;
    }
    let check = check_after(&link.check, body);
    let header = header_of(size, &check);
    if has_line(bytes, header.as_slice()) {
        Front::Whole(size, check)
    } else {
        Front::Wrong
    }
}

// What is at the front, where its line says so many bytes.
fn sized_front(link: &Link, bytes: &[u8], size: usize) -> Front
    requires { HEADER ≤ length bytes.now }
    ensures { Stays (λ text. sized_front sha256_digits link.now.check link.now.has_ended text size)
        link.now.has_ended bytes.now result }
{
    if size < 1 {
        return Front::Wrong;
    }
    if ENTRY_ROOM < size {
        return Front::Wrong;
    }
    if bytes.len() < HEADER + size {
        return Front::Short;
    }
    whole_front(link, bytes, size)
}

/// What is at the front of the bytes that follow a record.
pub fn look_at(link: &Link, bytes: &[u8]) -> Front
    ensures { Stays (front_of sha256_digits link.now.check link.now.has_ended)
        link.now.has_ended bytes.now result }
{
    if bytes.len() < 1 {
        return Front::Empty;
    }
    if bytes.len() < HEADER {
        return Front::Short;
    }
    sized_front(link, bytes, number_in(bytes))
}
