//! The line before a record.
ghost use Rattle.std.specs.Prelude.{◌≡◌, ◌≤◌, ◌++◌};
ghost use Rattle.sha2.specs.Sha256.{sha256};
ghost use Rattle.dispatch_room_journal.specs.Chains.{header, next_check, sha256_digits, size_text};

use crate::journal_digests::digest_of;
use crate::line_texts::append;
use arrayvec::ArrayVec;
use sha2::{Digest, Sha256};

/// The digits of a check.
pub const CHECK_DIGITS: usize = 64;

/// The bytes of the line before a record, with its end.
pub const HEADER: usize = 71;

/// The bytes of a record, at most, that can be written in five digits.
pub const GREATEST_SIZE: usize = 99_999;

/// The check before the first record.
pub const FIRST_CHECK: [u8; CHECK_DIGITS] = [b'0'; CHECK_DIGITS];

// The hash of a check and a record.
fn hash_of(check: &[u8], body: &[u8]) -> [u8; 32]
    ensures { result ≡ sha256 (check.now ++ body.now) }
{
    let mut hasher = Sha256::new();
    hasher.update(check);
    hasher.update(body);
    hasher.finalize()
}

/// The check of a record that comes after one with this check.
pub fn check_after(check: &[u8; CHECK_DIGITS], body: &[u8]) -> [u8; CHECK_DIGITS]
    ensures { result ≡ next_check sha256_digits check.now body.now }
{
    digest_of(&hash_of(check.as_slice(), body))
}

/// A number of bytes in five digits.
fn size_digits(size: usize) -> [u8; 5]
    requires { size ≤ GREATEST_SIZE }
    ensures { result ≡ size_text size }
{
    [
        b'0' + (size / 10_000 % 10) as u8,
        b'0' + (size / 1000 % 10) as u8,
        b'0' + (size / 100 % 10) as u8,
        b'0' + (size / 10 % 10) as u8,
        b'0' + (size % 10) as u8,
    ]
}

/// The line before a record of so many bytes with this check.
pub fn header_of(size: usize, check: &[u8; CHECK_DIGITS]) -> ArrayVec<u8, HEADER>
    requires { size ≤ GREATEST_SIZE }
    ensures { result.items ≡ header size check.now }
{
    let mut text = ArrayVec::<u8, HEADER>::new();
    append(&mut text, &size_digits(size));
    append(&mut text, b" ");
    append(&mut text, check.as_slice());
    append(&mut text, b"\n");
    text
}
