//! Tokens of random bytes.
ghost use Rattle.std.specs.List.{list_all};
ghost use Rattle.std.specs.Option.{SomeIff};
ghost use Rattle.std.specs.Prelude.{◌≡◌, ◌≤◌, IfOk, length, take, true};
ghost use Rattle.room_types.specs.Texts.{is_token_letter};
ghost use Rattle.dispatch_room_tasks.specs.RandomTokens.{AreEnough, first_letters, letter_of};
ghost use Rattle.dispatch_room_tasks.specs.RandomTokens.{letters_of};

use room_types::token::Token;
use std::alloc::{AllocError, Global};
use std::str;

/// How many random bytes a token is made of. Nearly all give a letter.
pub const RANDOM: usize = 64;

// How many letters such a token has: each is worth nearly 6 bits, all together 142.
const LENGTH: usize = 24;

// How many values of a byte give letters: four for each of the 62, so that none is likelier.
const FAIR: u8 = 248;

/// A token of random bytes: the first of them that give letters. There is none exactly where too
/// few do.
#[tactic(auto, using(crate::proofs::TokenLemmas::are_letters))]
pub fn token_of(alloc: Global, random: &[u8]) -> Result<Option<Token>, AllocError>
    ensures { IfOk result (λ found.
        SomeIff found (AreEnough random.now) (first_letters random.now)) }
{
    let letters = letters_of(alloc, random)?;
    Ok(token_in(letters.as_slice()))
}

// The letters that bytes give.
fn letters_of(alloc: Global, random: &[u8]) -> Result<Vec<u8>, AllocError>
    ensures { IfOk result (λ letters. letters.items ≡ letters_of random.now) }
{
    random
        .iter()
        .filter_map(|&byte| letter_of(byte))
        .collect(alloc)
}

// The token of the first letters, where they are enough.
fn token_in(letters: &[u8]) -> Option<Token>
    requires { list_all is_token_letter letters.now ≡ true }
    ensures { SomeIff result (24 ≤ length letters.now) (take 24 letters.now) }
{
    let text = str::from_utf8(letters.get(..LENGTH)?).ok()?;
    Token::parse(text)
}

// The letter or digit of a random byte. The last eight values give none, so that none is likelier
// than another.
fn letter_of(byte: u8) -> Option<u8>
    ensures { result ≡ letter_of byte }
{
    if FAIR <= byte {
        return None;
    }
    Some(match byte % 62 {
        number @ 0..=25 => b'A' + number,
        number @ 26..=51 => b'a' + (number - 26),
        number => b'0' + (number - 52),
    })
}
