//! The fields of a row, and the numbers that they write.
ghost use Rattle.std.specs.Prelude.{◌≡◌};
ghost use Rattle.csv.specs.Records.{fields_of};
ghost use Rattle.room_types.specs.Numerals.{are_digits};
ghost use Rattle.dispatch_room_csv.specs.RowFields.{is_numeral, number_of, text_at, whole_of};

use csv::StringRecord;
use room_place::bounded_numbers::Bounded;

/// The text of a field: empty where the row has none there.
pub(crate) fn text_at(row: &StringRecord, at: usize) -> &str
    ensures { result.now ≡ text_at (fields_of row.now) at }
{
    row.get(at).unwrap_or("")
}

/// The number that a text writes in digits only: none where it writes none, or one past 32 bits.
pub(crate) fn number(text: &str) -> Option<u32>
    ensures { result ≡ number_of text.now }
{
    if !is_numeral(text.as_bytes()) {
        return None;
    }
    text.parse::<u32>().ok()
}

/// The number of a range that a text writes in digits only.
pub(crate) fn whole<const LEAST: u32, const GREATEST: u32>(
    text: &str,
) -> Option<Bounded<LEAST, GREATEST>>
    ensures { result ≡ whole_of LEAST GREATEST text.now }
{
    Bounded::new(number(text)?)
}

/// Whether a text is one digit or more, and nothing else.
fn is_numeral(text: &[u8]) -> bool
    ensures { result ≡ is_numeral text.now }
{
    !text.is_empty() && are_digits(text)
}

fn are_digits(text: &[u8]) -> bool
    ensures { result ≡ are_digits text.now }
{
    text.iter().all(|byte| byte.is_ascii_digit())
}
