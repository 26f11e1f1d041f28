//! Values of the room in columns.

ghost use Rattle.std.specs.Prelude.{◌≡◌, pos, Bool, is_some, IfSome};
ghost use Rattle.std.specs.Str.{is_utf8};
ghost use Rattle.sqlite.specs.Values.{or_null};
ghost use Rattle.sqlite_value.specs.Order.{column, Row as Cells};
ghost use Rattle.sqlite_value.specs.Value.{owned};
ghost use Rattle.sqlite_value.specs.declared.value.Value.{Value};
ghost use Rattle.sqlite_value.specs.declared.value.Value.TheVariants.{Null, Int, Text, Blob};
ghost use Rattle.room_tables_schema.specs.TypedRows.{number};
ghost use Rattle.room_types.specs.Texts.{is_callsign, is_token};
ghost use Rattle.room_tables_rows.specs.ColumnValues.{truth, kind_code, status_code, button_code};
ghost use Rattle.room_tables_rows.specs.ColumnValues.{outcome_code};
ghost use Rattle.room_tables_rows.specs.ReadableColumns.{is_number, is_or_null, is_text, is_note};
ghost use Rattle.room_tables_rows.specs.ReadableColumns.{is_word, is_truth, is_kind, is_status};
ghost use Rattle.room_tables_rows.specs.ReadableColumns.{is_button, is_outcome};

use room_place::bounded_numbers::Bounded;
use room_types::callsign::Callsign;
use room_types::codes::{Button, Kind, Outcome, Status};
use room_types::note::Note;
use room_types::token::Token;
use sqlite::Row;
use sqlite_value::value::ValueRef;
use std::str;

/// A value that stands in one column.
pub trait Field: Sized {
    ghost stored: { Self → Value };

    /// Whether a column stands for a value of this type.
    ghost stands: { Value → Bool };

    /// The value that a column stands for; none where it stands for none of this type.
    fn read(column: ValueRef<'_>) -> Option<Self>
        ensures value { IfSome result (λ x. stored x ≡ owned column.entry) }
        ensures has_one { is_some result ≡ stands (owned column.entry) };

    /// The value as it is stored.
    fn store(&self) -> ValueRef<'_>
        ensures { owned result ≡ stored self.now };
}

/// A column of a row, NULL where the row has no such column.
pub(crate) fn column_at(row: &Row, at: usize) -> ValueRef<'_>
    ensures { owned result ≡ column row.now at }
{
    row.get_ref(at).unwrap_or(ValueRef::Null)
}

/// The value of a column of a row; none where the column stands for no value of this type.
pub fn value_at<F: Field>(row: &Row, at: usize) -> Option<F>
    ensures value { IfSome result (λ x. F.stored x ≡ column row.now at) }
    ensures has_one { is_some result ≡ F.stands (column row.now at) }
{
    F::read(column_at(row, at))
}

/// A row that stands in a table.
pub trait Stored: Copy {
    ghost cells: { Self → Cells };

    /// Whether columns stand for a row of this type.
    ghost is_row: { Cells → Bool };

    /// The row that columns stand for; none where they stand for none of this type.
    fn read(row: &Row) -> Option<Self>
        ensures row { IfSome result (λ x. cells x ≡ row.now) }
        ensures has_one { is_some result ≡ is_row row.now };
}

/// A number as it is stored.
pub(crate) fn integer(number: u32) -> ValueRef<'static>
    ensures { owned result ≡ Int (pos number) }
{
    ValueRef::Int(i64::from(number))
}

/// A second of UTC as it is compared with moments. It may be before 1970.
pub fn second(at: i64) -> ValueRef<'static>
    ensures { owned result ≡ Int at }
{
    ValueRef::Int(at)
}

// The whole number of a column, where 32 bits hold it.
fn small(column: ValueRef<'_>) -> Option<u32>
    ensures value { IfSome result (λ n. number n ≡ owned column.entry) }
    ensures has_one { is_some result ≡ is_word (owned column.entry) }
{
    match column {
        ValueRef::Int(n) => match u32::try_from(n) {
            Ok(n) => Some(n),
            Err(_) => None,
        },
        _ => None,
    }
}

impl Field for u32 {
    ghost stored = { number };

    ghost stands = { is_word };

    fn read(column: ValueRef<'_>) -> Option<u32> {
        small(column)
    }

    fn store(&self) -> ValueRef<'_> {
        integer(*self)
    }
}

impl Field for u8 {
    ghost stored = { number };

    ghost stands = { is_number 0 255 };

    fn read(column: ValueRef<'_>) -> Option<u8> {
        code(column)
    }

    fn store(&self) -> ValueRef<'_> {
        integer(u32::from(*self))
    }
}

impl<const LEAST: u32, const GREATEST: u32> Field for Bounded<LEAST, GREATEST> {
    ghost stored = { number };

    ghost stands = { is_number LEAST GREATEST };

    fn read(column: ValueRef<'_>) -> Option<Self> {
        Bounded::new(small(column)?)
    }

    fn store(&self) -> ValueRef<'_> {
        integer(self.get())
    }
}

impl<F: Field> Field for Option<F> {
    ghost stored = { or_null F.stored };

    ghost stands = { is_or_null F.stands };

    fn read(column: ValueRef<'_>) -> Option<Option<F>> {
        match column {
            ValueRef::Null => Some(None),
            _ => match F::read(column) {
                Some(value) => Some(Some(value)),
                None => None,
            },
        }
    }

    fn store(&self) -> ValueRef<'_> {
        match self {
            Some(value) => value.store(),
            None => ValueRef::Null,
        }
    }
}

impl Field for bool {
    ghost stored = { truth };

    ghost stands = { is_truth };

    fn read(column: ValueRef<'_>) -> Option<bool> {
        match small(column)? {
            0 => Some(false),
            1 => Some(true),
            _ => None,
        }
    }

    fn store(&self) -> ValueRef<'_> {
        ValueRef::Int(if *self { 1 } else { 0 })
    }
}

impl Field for Callsign {
    ghost stored = { Text };

    ghost stands = { is_text is_callsign };

    fn read(column: ValueRef<'_>) -> Option<Callsign> {
        Callsign::parse(text(column)?)
    }

    fn store(&self) -> ValueRef<'_> {
        ValueRef::Text(self.as_str().as_bytes())
    }
}

impl Field for Token {
    ghost stored = { Text };

    ghost stands = { is_text is_token };

    fn read(column: ValueRef<'_>) -> Option<Token> {
        Token::parse(text(column)?)
    }

    fn store(&self) -> ValueRef<'_> {
        ValueRef::Text(self.as_str().as_bytes())
    }
}

/// The text of a column.
pub(crate) fn text(column: ValueRef<'_>) -> Option<&str>
    ensures value { IfSome result (λ t. Text t.now ≡ owned column.entry) }
    ensures has_one { is_some result ≡ is_text is_utf8 (owned column.entry) }
{
    match column {
        ValueRef::Text(bytes) => utf8(bytes),
        _ => None,
    }
}

// The text of bytes, where they are UTF-8.
fn utf8(bytes: &[u8]) -> Option<&str>
    ensures text { IfSome result (λ t. t.now ≡ bytes.now) }
    ensures has_one { is_some result ≡ is_utf8 bytes.now }
{
    match str::from_utf8(bytes) {
        Ok(text) => Some(text),
        Err(_) => None,
    }
}

impl Field for Note {
    ghost stored = { Blob };

    ghost stands = { is_note };

    fn read(column: ValueRef<'_>) -> Option<Note> {
        match column {
            ValueRef::Blob(bytes) => Note::new(utf8(bytes)?),
            _ => None,
        }
    }

    fn store(&self) -> ValueRef<'_> {
        ValueRef::Blob(self.as_str().as_bytes())
    }
}

// A code of a column, as the numbers of codes are.
fn code(column: ValueRef<'_>) -> Option<u8>
    ensures value { IfSome result (λ n. number n ≡ owned column.entry) }
    ensures has_one { is_some result ≡ is_number 0 255 (owned column.entry) }
{
    match u8::try_from(small(column)?) {
        Ok(n) => Some(n),
        Err(_) => None,
    }
}

impl Field for Kind {
    ghost stored = { kind_code };

    ghost stands = { is_kind };

    fn read(column: ValueRef<'_>) -> Option<Kind> {
        Kind::from_number(code(column)?)
    }

    fn store(&self) -> ValueRef<'_> {
        integer(u32::from(self.number()))
    }
}

impl Field for Status {
    ghost stored = { status_code };

    ghost stands = { is_status };

    fn read(column: ValueRef<'_>) -> Option<Status> {
        Status::from_number(code(column)?)
    }

    fn store(&self) -> ValueRef<'_> {
        integer(u32::from(self.number()))
    }
}

impl Field for Button {
    ghost stored = { button_code };

    ghost stands = { is_button };

    fn read(column: ValueRef<'_>) -> Option<Button> {
        Button::from_number(code(column)?)
    }

    fn store(&self) -> ValueRef<'_> {
        integer(u32::from(self.number()))
    }
}

impl Field for Outcome {
    ghost stored = { outcome_code };

    ghost stands = { is_outcome };

    fn read(column: ValueRef<'_>) -> Option<Outcome> {
        Outcome::from_number(code(column)?)
    }

    fn store(&self) -> ValueRef<'_> {
        integer(u32::from(self.number()))
    }
}
