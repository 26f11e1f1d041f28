//! The parameters in a target: its segments, and the numbers that they write.
ghost use Rattle.std.specs.Prelude.{◌≡◌, option_map};
ghost use Rattle.room_types.specs.Numerals.{are_digits};
ghost use Rattle.room_http_requests.specs.Parameters.{is_plain_numeral, segment_at, text_of};
ghost use Rattle.room_http_requests.specs.Parameters.{whole_of};

use room_place::bounded_numbers::Bounded;

/// The text of a target: none where a byte is not of ASCII.
pub(crate) fn text_of(target: &[u8]) -> Option<&str>
    ensures { option_map (λ text. text.now) result ≡ text_of target.now }
{
    if target.iter().all(|byte| byte.is_ascii()) {
        Some(str::from_utf8(target).unwrap())
    } else {
        None
    }
}

/// A segment of a target, counted from what stands before its first slash: empty where there is
/// none.
pub(crate) fn segment(target: &str, at: usize) -> &str
    ensures { result.now ≡ segment_at at target.now }
{
    target.split('/').nth(at).unwrap_or("")
}

/// The number that a text writes in decimal, without a leading zero: none where it writes none of
/// this range.
pub(crate) fn whole<const LEAST: u32, const GREATEST: u32>(
    text: &str,
) -> Option<Bounded<LEAST, GREATEST>>
    ensures { result ≡ whole_of LEAST GREATEST text.now }
{
    if !is_plain_numeral(text.as_bytes()) {
        return None;
    }
    match text.parse::<u32>() {
        Ok(number) => Bounded::new(number),
        Err(_) => None,
    }
}

/// Whether a text is only digits, the first of them no zero.
fn is_plain_numeral(text: &[u8]) -> bool
    ensures { result ≡ is_plain_numeral text.now }
{
    match text {
        [] => false,
        [first, ..] => b'1' <= *first && are_digits(text),
    }
}

fn are_digits(text: &[u8]) -> bool
    ensures { result ≡ are_digits text.now }
{
    text.iter().all(|byte| byte.is_ascii_digit())
}
