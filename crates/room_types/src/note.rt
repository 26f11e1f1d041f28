//! What a call taker writes beside a call.
ghost use Rattle.std.specs.Prelude.{◌≡◌, ◌≤◌, length};
ghost use Rattle.std.specs.Option.{SomeIff};

use crate::text::Text;
use std::marker::Model;

/// What a call taker adds to a call: at most 120 bytes of UTF-8. A contract sees its text.
#[derive(Clone, Copy, PartialEq, Eq)]
pub struct Note {
    text: Text<120>,
}

impl Model for Note {
    ghost use Rattle.std.specs.Prelude.{List, ℕ};

    ghost Value = { List ℕ };

    ghost view = { λ n. n.text };

    ghost inverse = { λ text. record { text = text } };
}

impl Note {
    /// A note of this text, where it is not too long.
    pub fn new(text: &str) -> Option<Note>
        ensures { SomeIff result (length text.now ≤ 120) text.now }
    {
        let text = Text::new(text)?;
        Some(Note { text })
    }

    /// The text of the note.
    pub fn as_str(&self) -> &str
        ensures text { result.now ≡ self.now }
        ensures fits { length self.now ≤ 120 }
    {
        self.text.as_str()
    }
}
