//! The line that begins an entry.
ghost use Rattle.std.specs.Prelude.{◌≡◌, ◌∷◌, ◌++◌, codes, MatchOption};
ghost use Rattle.dispatch_room_journal.specs.declared.entry_lines.EntryLine.{EntryLine};
ghost use Rattle.dispatch_room_journal.specs.Entries.{IsDigest, IsLine, head_words, line_text};
ghost use Rattle.dispatch_room_journal.specs.TextParts.{AreNumbers, IsLineText, Lacks};

use crate::journal_digests::are_digest_digits;
use crate::journal_numbers::number;
use memchr::memchr;
use room_http_messages::limits::INBOX_ROOM;
use room_model::digests::{StartDigest, Version};
use room_types::numbers::{LAST_MOMENT, Moment};

/// The least status of an answer.
pub const LEAST_STATUS: u32 = 100;

/// The greatest status of an answer.
pub const GREATEST_STATUS: u32 = 999;

/// The bytes of the longest message.
pub const LONGEST: u32 = INBOX_ROOM as u32;

/// The digits of a digest.
pub const DIGEST_DIGITS: usize = 64;

/// What an entry's line says.
#[derive(Clone, Copy)]
pub enum EntryLine {
    /// A part begins, at a room whose rows have this digest.
    Room(StartDigest),
    /// A message that was answered came at this moment, and has so many bytes.
    Message { at: Moment, size: usize },
    /// The message before it was answered with this status.
    Answer(u16),
}

/// What stands before the first `mark`, and what stands after it.
pub fn cut(bytes: &[u8], mark: u8) -> Option<(&[u8], &[u8])>
    ensures { MatchOption result (Lacks mark bytes.now) (λ parts.
        Lacks mark parts.0.now × (bytes.now ≡ parts.0.now ++ mark ∷ parts.1.now)) }
{
    match memchr(mark, bytes) {
        Some(at) => Some((&bytes[..at], &bytes[at + 1..])),
        None => None,
    }
}

/// The words before a digest of this version.
pub fn head_words(version: Version) -> &'static [u8]
    ensures { result.now ≡ head_words version }
{
    match version {
        Version::First => b"room 1 ",
        Version::Second => b"room 2 ",
    }
}

/// The line of a digest.
fn room_line(version: Version, digits: &[u8]) -> Option<EntryLine>
    ensures { MatchOption result (¬ (IsDigest digits.now))
        (λ line. IsLine line × (head_words version ++ digits.now ≡ line_text line)) }
{
    if digits.len() != DIGEST_DIGITS || !are_digest_digits(digits) {
        return None;
    }
    let mut digest = [0; DIGEST_DIGITS];
    digest.copy_from_slice(digits);
    Some(EntryLine::Room(StartDigest {
        version,
        digits: digest,
    }))
}

/// The line of a moment and a number of bytes.
fn message_line(numbers: &[u8]) -> Option<EntryLine>
    ensures { MatchOption result (¬ (AreNumbers numbers.now))
        (λ line. IsLine line × (codes "message " ++ numbers.now ≡ line_text line)) }
{
    let Some((at, size)) = cut(numbers, b' ') else {
        return None;
    };
    let Some(at) = number(at, 0, LAST_MOMENT) else {
        return None;
    };
    let Some(size) = number(size, 1, LONGEST) else {
        return None;
    };
    Some(EntryLine::Message {
        at: Moment::of(at),
        size: size as usize,
    })
}

/// What the line says of which these are the bytes, without the line end.
pub fn line_in(bytes: &[u8]) -> Option<EntryLine>
    ensures { MatchOption result (¬ (IsLineText bytes.now))
        (λ line. IsLine line × (bytes.now ≡ line_text line)) }
{
    if let Some(digits) = bytes.strip_prefix(head_words(Version::First)) {
        return room_line(Version::First, digits);
    }
    if let Some(digits) = bytes.strip_prefix(head_words(Version::Second)) {
        return room_line(Version::Second, digits);
    }
    if let Some(numbers) = bytes.strip_prefix(b"message ") {
        return message_line(numbers);
    }
    let Some(digits) = bytes.strip_prefix(b"answer ") else {
        return None;
    };
    match number(digits, LEAST_STATUS, GREATEST_STATUS) {
        Some(status) => Some(EntryLine::Answer(status as u16)),
        None => None,
    }
}
