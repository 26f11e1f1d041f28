//! What one answer gives.
ghost use Rattle.std.specs.Prelude.{IfOk, MatchResult};
ghost use Rattle.serde_json.specs.Data.{Data};
ghost use Rattle.serde_json.specs.View.{view};
ghost use Rattle.dispatch_room_board.specs.Members.{IsRead};
ghost use Rattle.dispatch_room_board.specs.AnswerRows.{IsDatedAnswer, IsFound, IsJson, IsNoAnswer};

use crate::board_errors::{BoardError, refusal_in};
use crate::heard_answers::{HeardAnswer, first_message};
use room_types::numbers::Moment;
use serde_json::Value;
use serde_json::error::Category;
use std::alloc::{AllocError, Global};

/// What an answer can give: the rows of a list, or all of an incident.
pub trait FromAnswer: Drop {
    // Whether the JSON of an answer gives it.
    ghost gives: { Data → Self → Type 0 };

    /// What a value of JSON gives; none where it gives nothing of the kind.
    fn from_answer(alloc: Global, value: &Value) -> Result<Option<Self>, AllocError>
        ensures { IfOk result (IsRead (gives (view value.now))) };
}

/// What an answer gives, with its moment, or why it gives nothing of the kind.
pub type Found<G> = Result<(G, Moment), BoardError>;

/// What the next answer of what was heard gives, and what follows it. Where no answer can be read,
/// nothing is taken, so none can be read after it.
pub fn next_in<G: FromAnswer>(alloc: Global, heard: &[u8]) -> Result<(Found<G>, &[u8]), AllocError>
    ensures { IfOk result (λ found. IsFound G.gives heard.now found.1.now found.0) }
{
    match first_message(heard) {
        Ok((message, rest)) => Ok((found_in(alloc, &message)?, rest)),
        Err(board_error) => Ok((Err(board_error), heard)),
    }
}

/// What an answer gives, with its moment, or why it gives nothing of the kind: it is a refusal, or
/// no answer of a room. An answer without a date is none.
pub fn found_in<G: FromAnswer>(
    alloc: Global,
    message: &HeardAnswer<'_>,
) -> Result<Found<G>, AllocError>
    ensures { IfOk result (λ found. MatchResult found
        (IsDatedAnswer G.gives message.now)
        (IsNoAnswer (IsDatedAnswer G.gives message.now) message.now)) }
{
    match Value::from_slice(alloc, message.content) {
        Ok(value) => found_by(alloc, message, &value),
        Err(error) if error.classify() == Category::Memory => Err(AllocError),
        Err(_) => Ok(Err(BoardError::Foreign)),
    }
}

// The same of an answer whose content says this value.
fn found_by<G: FromAnswer>(
    alloc: Global,
    message: &HeardAnswer<'_>,
    value: &Value,
) -> Result<Found<G>, AllocError>
    requires { IsJson message.now.content.now (view value.now) }
    ensures { IfOk result (λ found. MatchResult found
        (IsDatedAnswer G.gives message.now)
        (IsNoAnswer (IsDatedAnswer G.gives message.now) message.now)) }
{
    if message.code != 200 {
        return Ok(Err(refusal_in(value).unwrap_or(BoardError::Foreign)));
    }
    let given = G::from_answer(alloc, value)?;
    Ok(given.zip(message.moment).ok_or(BoardError::Foreign))
}
