//! The token of a board: a word of the command line, or the first line of a file.
ghost use Rattle.std.specs.Prelude.{SomeIff, true, ◌≡◌};
ghost use Rattle.room_types.specs.Texts.{is_token};
ghost use Rattle.dispatch_room_commands.specs.TaskSteps.{ReadsToken, TakesToken};
ghost use Rattle.dispatch_room_commands.specs.TokenFiles.{IsFirstLine, IsTokenIn, IsTokenOf};
ghost use Rattle.dispatch_room_disk.specs.CommandSteps.{Quietly};

use dispatch_room_cli::tasks::TokenPlace;
use dispatch_room_exit::exit_status::Failure;
use dispatch_room_exit::failure_causes::Explainer;
use dispatch_room_journal::entry_lines::cut;
use dispatch_room_tcp::hosts::Machine;
use room_types::token::Token;
use std::str;

/// The token of a desk, from where it stands. Explains why there is none.
pub fn token_of<M: Machine>(
    explainer: Explainer<'_>,
    machine: &mut M,
    place: TokenPlace<'_>,
) -> Result<Token, Failure>
    ensures { Quietly (TakesToken place.entry) (M.done machine.old) (M.done machine.new) result }
{
    match place {
        TokenPlace::Word(text) => token_of_word(explainer, text),
        TokenPlace::File(path) => token_of_file(explainer, machine, path),
    }
}

// The token that a word of the command line is.
fn token_of_word(explainer: Explainer<'_>, text: &str) -> Result<Token, Failure>
    ensures { IsTokenOf text.now result }
{
    match Token::parse(text) {
        Some(token) => Ok(token),
        None => {
            explainer.explain("TOKEN is not 8 to 32 of A-Z, a-z and 0-9");
            Err(Failure::Input)
        }
    }
}

// The token in the first line of a file.
fn token_of_file<M: Machine>(
    explainer: Explainer<'_>,
    machine: &mut M,
    path: &str,
) -> Result<Token, Failure>
    ensures { Quietly (ReadsToken path.now) (M.done machine.old) (M.done machine.new) result }
{
    let text = machine.read_text(path)?;
    token_of_text(explainer, path, text.as_slice())
}

// The token in the first line of a file's text.
fn token_of_text(explainer: Explainer<'_>, path: &str, text: &[u8]) -> Result<Token, Failure>
    ensures { IsTokenIn text.now result }
{
    match token_in(first_line(text)) {
        Some(token) => Ok(token),
        None => {
            explainer.explain(format_args!("{path}:1: token is not 8 to 32 of A-Z, a-z and 0-9"));
            Err(Failure::Input)
        }
    }
}

// What stands before the first line end of a text, or all of it where it has none.
fn first_line(text: &[u8]) -> &[u8]
    ensures { IsFirstLine text.now result.now }
{
    match cut(text, b'\n') {
        Some((line, _)) => line,
        None => text,
    }
}

// The token that bytes are.
fn token_in(bytes: &[u8]) -> Option<Token>
    ensures { SomeIff result (is_token bytes.now ≡ true) bytes.now }
{
    let Ok(text) = str::from_utf8(bytes) else {
        return None;
    };
    Token::parse(text)
}
