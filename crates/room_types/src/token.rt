//! The secrets of terminals.
ghost use Rattle.std.specs.Prelude.{◌≡◌, true};
ghost use Rattle.std.specs.List.{list_all};
ghost use Rattle.std.specs.Option.{SomeIff};
ghost use Rattle.room_types.specs.Texts.{is_token, is_token_letter};

use crate::text::Text;
use std::marker::Model;

/// The secret that names a terminal: 8 to 32 of A-Z, a-z and 0-9. A contract sees its text.
#[derive(Clone, Copy, PartialEq, Eq, PartialOrd, Ord)]
pub struct Token {
    text: Text<32>,
}

impl Model for Token {
    ghost use Rattle.std.specs.Prelude.{List, ℕ, ◌≡◌, true};
    ghost use Rattle.room_types.specs.Texts.{is_token};

    ghost Value = { List ℕ };

    ghost view = { λ t. t.text };

    ghost invariant = { λ t. is_token t.text ≡ true };

    ghost inverse = { λ text. record { text = text } };
}

impl Token {
    /// Reads a token; none where the text is none.
    pub fn parse(text: &str) -> Option<Token>
        ensures { SomeIff result (is_token text.now ≡ true) text.now }
    {
        if !is_token(text.as_bytes()) {
            return None;
        }
        let text = Text::new(text)?;
        Some(Token { text })
    }

    /// The text of the token.
    pub fn as_str(&self) -> &str
        ensures text { result.now ≡ self.now }
        ensures valid { is_token self.now ≡ true }
    {
        self.text.as_str()
    }
}

fn is_token(text: &[u8]) -> bool
    ensures { result ≡ is_token text.now }
{
    8 <= text.len() && text.len() <= 32 && are_letters(text)
}

fn are_letters(text: &[u8]) -> bool
    ensures { result ≡ list_all is_token_letter text.now }
{
    text.iter().all(|&byte| is_letter(byte))
}

fn is_letter(byte: u8) -> bool
    ensures { result ≡ is_token_letter byte }
{
    matches!(byte, b'A'..=b'Z' | b'a'..=b'z' | b'0'..=b'9')
}
