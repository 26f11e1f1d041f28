//! What is wrong with a field of a row, in words.

use crate::row_fields::text_at;
use csv::StringRecord;
use room_place::places::PlaceFault;
use room_types::token::Token;
use std::fmt;

/// What is wrong with a field.
#[derive(Clone, Copy)]
pub(crate) enum FieldFault<'a> {
    /// Its text is not of this form.
    Form {
        name: &'static str,
        text: &'a str,
        form: &'static str,
    },
    /// It is no reference.
    Place {
        text: &'a str,
        fault: PlaceFault,
    },
    /// It is no token. What was written is a secret.
    Token,
}

impl<'a> fmt::Display for FieldFault<'a> {
    fn fmt<W: fmt::Write>(&self, f: &mut fmt::Formatter<W>) -> fmt::Result {
        match *self {
            FieldFault::Form { name, text, form } => write!(f, "{name} \"{text}\" is not {form}"),
            FieldFault::Place { text, fault } => write!(f, "place \"{text}\": {fault}"),
            FieldFault::Token => f.write_str("token is not 8 to 32 of A-Z, a-z and 0-9"),
        }
    }
}

/// The fault of a field that has to be of a form, where it is not.
pub(crate) fn unless<'a>(
    is_good: bool,
    name: &'static str,
    text: &'a str,
    form: &'static str,
) -> Option<FieldFault<'a>> {
    if is_good {
        None
    } else {
        Some(FieldFault::Form { name, text, form })
    }
}

/// The fault of a field that has to be a token, where it is none.
pub(crate) fn unless_token<'a>(row: &'a StringRecord, at: usize) -> Option<FieldFault<'a>> {
    match Token::parse(text_at(row, at)) {
        Some(_) => None,
        None => Some(FieldFault::Token),
    }
}
