//! Whole numbers, as a journal writes them.
ghost use Rattle.std.specs.Prelude.{◌≡◌, ◌≤◌, ◌<◌, ◌↔◌, decimal, IsTrue, MatchOption};
ghost use Rattle.dispatch_room_journal.specs.TextParts.{BeginsOne, IsNumber};

use itoa::Buffer;
use std::str;

/// The number from `least` to `greatest` whose digits the bytes are, without a sign and without
/// zeros before it.
pub fn number(bytes: &[u8], least: u32, greatest: u32) -> Option<u32>
    ensures { MatchOption result
        (¬ (IsNumber least greatest bytes.now))
        (λ n. (least ≤ n) × (n ≤ greatest) × (bytes.now ≡ decimal n)) }
{
    let Ok(text) = str::from_utf8(bytes) else {
        return None;
    };
    let Ok(number) = text.parse::<u32>() else {
        return None;
    };
    // `parse` takes a sign and leading zeros; `format` writes neither.
    if Buffer::new().format(number).as_bytes() != bytes {
        return None;
    }
    if number < least || greatest < number {
        return None;
    }
    Some(number)
}

/// Whether the bytes are the first part of a number from `least`, which is 0 or 1, to `greatest`.
pub fn begins_number(bytes: &[u8], least: u32, greatest: u32) -> bool
    requires low { least ≤ 1 }
    requires some { 1 ≤ greatest }
    ensures { IsTrue result ↔ BeginsOne (IsNumber least greatest) bytes.now }
{
    bytes.is_empty() || number(bytes, least, greatest).is_some()
}
