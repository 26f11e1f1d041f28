//! Why a part of the board is not there.
ghost use Rattle.std.specs.Prelude.{◌≡◌, IfOk, string_bytes};
ghost use Rattle.std.specs.List.{list_all};
ghost use Rattle.serde_json.specs.View.{view};
ghost use Rattle.room_types.specs.Texts.{is_token_letter};
ghost use Rattle.dispatch_room_board.specs.Members.{IsRead};
ghost use Rattle.dispatch_room_board.specs.BoardErrors.{IsErrorIn, IsName, IsNameOf, error_text};

use crate::json_members::{FromJson, member};
use room_types::text::Text;
use serde_json::Value;
use std::alloc::{AllocError, Global};

/// Why a part of the board is not there.
#[derive(Clone, Copy)]
pub enum BoardError {
    /// No answer came, or none that is whole.
    Unheard,
    /// What came is no answer of a room.
    Foreign,
    /// The room refused: the number and the name of the refusal.
    Refused(u8, Name),
}

/// The name of a refusal: at most 32 letters and digits, so that nothing else of a peer's reaches
/// a terminal.
#[derive(Clone, Copy)]
pub struct Name {
    text: Text<32>,
}

impl FromJson for Name {
    ghost says = { IsName };

    fn from_json(value: &Value) -> Option<Name> {
        match value.as_str() {
            Some(text) => name_of(text),
            None => None,
        }
    }
}

// The name that a text is; none where it is too long, or has anything but letters and digits.
fn name_of(text: &str) -> Option<Name>
    ensures { IsRead (IsNameOf text.now) result }
{
    if !are_letters(text.as_bytes()) {
        return None;
    }
    match Text::new(text) {
        Some(text) => Some(Name { text }),
        None => None,
    }
}

fn are_letters(text: &[u8]) -> bool
    ensures { result ≡ list_all is_token_letter text.now }
{
    text.iter().all(|&byte| is_letter(byte))
}

fn is_letter(byte: u8) -> bool
    ensures { result ≡ is_token_letter byte }
{
    matches!(byte, b'A'..=b'Z' | b'a'..=b'z' | b'0'..=b'9')
}

/// The error that a refusal reports; none where the value reports none.
pub fn refusal_in(value: &Value) -> Option<BoardError>
    ensures { IsRead (IsErrorIn (view value.now)) result }
{
    match member(value, "number").zip(member(value, "error")) {
        Some((number, name)) => Some(BoardError::Refused(number, name)),
        None => None,
    }
}

/// The line that is shown in place of the table of a title.
pub fn error_text(
    alloc: Global,
    title: &str,
    board_error: &BoardError,
) -> Result<String, AllocError>
    ensures { IfOk result (λ text. string_bytes text ≡ error_text title.now board_error.now) }
{
    match board_error {
        BoardError::Unheard => format!(in alloc; "{title}: not reached: no whole answer came"),
        BoardError::Foreign => {
            format!(in alloc; "{title}: not reached: the answer is not a room's")
        }
        BoardError::Refused(number, name) => {
            let name = name.text.as_str();
            format!(in alloc; "{title}: refused: {number} {name}")
        }
    }
}
