//! Whether bytes without a line end are the first part of a line.
ghost use Rattle.std.specs.Prelude.{◌↔◌, codes, IsTrue};
ghost use Rattle.dispatch_room_journal.specs.declared.entry_lines.TheConstants.{LEAST_STATUS};
ghost use Rattle.dispatch_room_journal.specs.declared.entry_lines.TheConstants.{GREATEST_STATUS};
ghost use Rattle.dispatch_room_journal.specs.Entries.{IsDigest, head_words};
ghost use Rattle.dispatch_room_journal.specs.TextParts.{After, AreNumbers, BeginsOne, IsLineText};
ghost use Rattle.dispatch_room_journal.specs.TextParts.{IsNumber};

use crate::entry_lines::{DIGEST_DIGITS, GREATEST_STATUS, LONGEST, cut, head_words};
use crate::journal_digests::are_digest_digits;
use crate::journal_numbers::{begins_number, number};
use room_model::digests::Version;
use room_types::numbers::LAST_MOMENT;

/// Whether the bytes are the first part of a digest.
fn begins_digest(bytes: &[u8]) -> bool
    ensures { IsTrue result ↔ BeginsOne IsDigest bytes.now }
{
    bytes.len() <= DIGEST_DIGITS && are_digest_digits(bytes)
}

/// Whether the bytes are the first part of a moment and a number of bytes.
fn begins_numbers(bytes: &[u8]) -> bool
    ensures { IsTrue result ↔ BeginsOne AreNumbers bytes.now }
{
    match cut(bytes, b' ') {
        Some((at, size)) => {
            number(at, 0, LAST_MOMENT).is_some() && begins_number(size, 1, LONGEST)
        }
        None => begins_number(bytes, 0, LAST_MOMENT),
    }
}

/// Whether the bytes are the first part of a status: a number that is not 0, and not above it.
fn begins_status(bytes: &[u8]) -> bool
    ensures { IsTrue result ↔ BeginsOne (IsNumber LEAST_STATUS GREATEST_STATUS) bytes.now }
{
    begins_number(bytes, 1, GREATEST_STATUS)
}

/// Whether the bytes are the first part of the line of a digest of this version.
fn begins_room(version: Version, bytes: &[u8]) -> bool
    ensures { IsTrue result ↔ BeginsOne (After (head_words version) IsDigest) bytes.now }
{
    let words = head_words(version);
    match bytes.strip_prefix(words) {
        Some(digits) => begins_digest(digits),
        None => words.starts_with(bytes),
    }
}

/// Whether the bytes are the first part of the line of a message.
fn begins_message(bytes: &[u8]) -> bool
    ensures { IsTrue result ↔ BeginsOne (After (codes "message ") AreNumbers) bytes.now }
{
    match bytes.strip_prefix(b"message ") {
        Some(numbers) => begins_numbers(numbers),
        None => b"message ".starts_with(bytes),
    }
}

/// Whether the bytes are the first part of the line of an answer.
fn begins_answer(bytes: &[u8]) -> bool
    ensures { IsTrue result ↔ BeginsOne
        (After (codes "answer ") (IsNumber LEAST_STATUS GREATEST_STATUS)) bytes.now }
{
    match bytes.strip_prefix(b"answer ") {
        Some(digits) => begins_status(digits),
        None => b"answer ".starts_with(bytes),
    }
}

/// Whether the bytes are the first part of a line, or a whole one.
pub fn begins_line(bytes: &[u8]) -> bool
    ensures { IsTrue result ↔ BeginsOne IsLineText bytes.now }
{
    begins_room(Version::First, bytes)
        || (begins_room(Version::Second, bytes) || (begins_message(bytes) || begins_answer(bytes)))
}
