//! The names of vehicles.
ghost use Rattle.std.specs.Prelude.{◌≡◌, true};
ghost use Rattle.std.specs.List.{list_all};
ghost use Rattle.std.specs.Option.{SomeIff};
ghost use Rattle.room_types.specs.Texts.{is_callsign, is_callsign_letter};

use crate::text::Text;
use std::marker::Model;

/// The name of a vehicle: 1 to 8 of A-Z and 0-9, ordered by bytes. A contract sees its text.
#[derive(Clone, Copy, PartialEq, Eq, PartialOrd, Ord)]
pub struct Callsign {
    text: Text<8>,
}

impl Model for Callsign {
    ghost use Rattle.std.specs.Prelude.{List, ℕ, ◌≡◌, true};
    ghost use Rattle.room_types.specs.Texts.{is_callsign};

    ghost Value = { List ℕ };

    ghost view = { λ c. c.text };

    ghost invariant = { λ c. is_callsign c.text ≡ true };

    ghost inverse = { λ text. record { text = text } };
}

impl Callsign {
    /// Reads a callsign; none where the text is none.
    pub fn parse(text: &str) -> Option<Callsign>
        ensures { SomeIff result (is_callsign text.now ≡ true) text.now }
    {
        if !is_callsign(text.as_bytes()) {
            return None;
        }
        let text = Text::new(text)?;
        Some(Callsign { text })
    }

    /// The text of the callsign.
    pub fn as_str(&self) -> &str
        ensures text { result.now ≡ self.now }
        ensures valid { is_callsign self.now ≡ true }
    {
        self.text.as_str()
    }
}

fn is_callsign(text: &[u8]) -> bool
    ensures { result ≡ is_callsign text.now }
{
    1 <= text.len() && text.len() <= 8 && are_letters(text)
}

fn are_letters(text: &[u8]) -> bool
    ensures { result ≡ list_all is_callsign_letter text.now }
{
    text.iter().all(|&byte| is_letter(byte))
}

fn is_letter(byte: u8) -> bool
    ensures { result ≡ is_callsign_letter byte }
{
    matches!(byte, b'A'..=b'Z' | b'0'..=b'9')
}
