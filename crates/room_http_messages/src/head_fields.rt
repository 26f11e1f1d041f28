//! The fields of a head by their names (RFC 9110, section 5.1: names are the same in any case).
ghost use Rattle.std.specs.Prelude.{◌≡◌, ℕ, List, map, length, IfSome};
ghost use Rattle.std.specs.Option.{option_map};
ghost use Rattle.httparse.specs.Spans.{header_bytes, span_bytes, IsWithin};
ghost use Rattle.room_http_messages.specs.HeadFields.{AreWithin, FoundIs, found_with, is_there};
ghost use Rattle.room_http_messages.specs.HeadFields.{only_value, values_of};

use httparse::spans::{HeaderSpan, Span};

/// What the fields of one name hold.
#[derive(Clone, Copy, PartialEq, Eq)]
pub enum Found {
    /// No field has the name.
    Nowhere,
    /// One field has it: where its value is.
    Once(Span),
    /// Two fields or more have it.
    Repeated,
}

impl Found {
    /// With the value of one field more.
    fn with(self, value: Span) -> Found
        ensures { result ≡ found_with self value }
    {
        match self {
            Found::Nowhere => Found::Once(value),
            Found::Once(_) | Found::Repeated => Found::Repeated,
        }
    }

    /// Whether a field has the name.
    pub fn is_there(self) -> bool
        ensures { (buf : List ℕ) (values : List (List ℕ)) → FoundIs buf values self
            → result ≡ is_there values }
    {
        match self {
            Found::Nowhere => false,
            Found::Once(_) | Found::Repeated => true,
        }
    }

    /// Where the value is, if only one field has the name.
    pub fn only(self) -> Option<Span>
        ensures value { (buf : List ℕ) (values : List (List ℕ)) → FoundIs buf values self
            → option_map (span_bytes buf) result ≡ only_value values }
        ensures within { (buf : List ℕ) (values : List (List ℕ)) → FoundIs buf values self
            → IfSome result (IsWithin (length buf)) }
    {
        match self {
            Found::Once(value) => Some(value),
            Found::Nowhere | Found::Repeated => None,
        }
    }
}

/// What the fields of a head hold under a name, in any case.
pub fn find_field(buf: &[u8], headers: &[HeaderSpan], name: &[u8]) -> Found
    requires { AreWithin buf.now headers.now }
    ensures { FoundIs buf.now (values_of name.now (map (header_bytes buf.now) headers.now)) result }
{
    let mut found = Found::Nowhere;
    for header in headers {
        if header.name.of(buf).eq_ignore_ascii_case(name) {
            found = found.with(header.value);
        }
    }
    found
}
