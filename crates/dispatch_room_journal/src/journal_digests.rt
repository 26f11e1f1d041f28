//! Digests of a room's rows, as a journal writes them.
ghost use Rattle.std.specs.Prelude.{◌≡◌, ◌↔◌, IsTrue, All, true};
ghost use Rattle.hex.specs.Hex.{encode_lower};
ghost use Rattle.dispatch_room_journal.specs.Entries.{is_digest_digit, IsDigest};

use crate::entry_lines::DIGEST_DIGITS;

/// Whether the byte is one of 0 to 9 and a to f.
fn is_digest_digit(byte: u8) -> bool
    ensures { result ≡ is_digest_digit byte }
{
    (b'0' <= byte && byte <= b'9') || (b'a' <= byte && byte <= b'f')
}

/// Whether all bytes are digits of a digest.
pub fn are_digest_digits(bytes: &[u8]) -> bool
    ensures { IsTrue result ↔ All (λ byte. is_digest_digit byte ≡ true) bytes.now }
{
    for byte in bytes {
        if !is_digest_digit(*byte) {
            return false;
        }
    }
    true
}

/// A SHA-256 in digits.
pub fn digest_of(hash: &[u8; 32]) -> [u8; DIGEST_DIGITS]
    ensures written { result ≡ encode_lower hash.now }
    ensures is_one { IsDigest result }
{
    let mut digits = [0; DIGEST_DIGITS];
    let _ = hex::encode_to_slice(hash.as_slice(), &mut digits);
    digits
}
