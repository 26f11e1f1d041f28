//! What is wrong with a body that is refused, in words.

use crate::bodies::moves;
use crate::body_fields::{button, callsign, fields_of, needs, number, place, point};
use crate::request_table::Target;
use room_place::bounded_numbers::Bounded;
use room_place::plans::DivisionNumber;
use room_types::note::Note;
use room_types::numbers::{Class, Cover, LastNumber, Moment, Number};
use room_types::refusal_statuses::Refusal;
use serde_json::Value;
use std::alloc::Global;
use std::fmt;

/// What is wrong with a body.
#[derive(Clone, Copy)]
pub enum BodyFault {
    NoObject,
    /// It has no member of this name.
    Missing(&'static str),
    /// The member of this name is none of these whole numbers.
    Range {
        name: &'static str,
        least: u32,
        greatest: u32,
    },
    /// The member of this name is not of this form.
    Form {
        name: &'static str,
        form: &'static str,
    },
    /// It has more members than are wanted.
    More,
}

impl fmt::Display for BodyFault {
    fn fmt<W: fmt::Write>(&self, f: &mut fmt::Formatter<W>) -> fmt::Result {
        match *self {
            BodyFault::NoObject => f.write_str("the body is no object of JSON"),
            BodyFault::Missing(name) => write!(f, "\"{name}\" is missing"),
            BodyFault::Range {
                name,
                least,
                greatest,
            } => write!(
                f,
                "\"{name}\" is not a whole number from {least} to {greatest}"
            ),
            BodyFault::Form { name, form } => write!(f, "\"{name}\" is not {form}"),
            BodyFault::More => f.write_str("the body has a member too many"),
        }
    }
}

/// What is wrong with the body of a request: nothing where it is what the target takes, or memory
/// is lacking.
pub fn fault_of(alloc: Global, target: &Target, body: &[u8]) -> Option<BodyFault> {
    match fields_of(alloc, body) {
        Ok(fields) => fault_in(target, &fields),
        Err(Refusal::Memory) => None,
        Err(_) => Some(BodyFault::NoObject),
    }
}

// The first member that is not what the target takes, or that there are more.
fn fault_in(target: &Target, fields: &Value) -> Option<BodyFault> {
    let Some(members) = fields.as_object() else {
        return Some(BodyFault::NoObject);
    };
    let fault = match *target {
        Target::Call => call_fault(fields),
        Target::Mobilise(_) => vehicle_fault(fields),
        Target::Needs(_) => needs_fault(fields),
        Target::Merge(_) => number_fault(fields, "into"),
        Target::Moves => moves_fault(fields),
        Target::Standby(_) => point_fault(fields),
        Target::Duty(_) => place_fault(fields).or(until_fault(fields)),
        Target::Lend(_) => division_fault(fields).or(until_fault(fields)),
        Target::SetPoint(_) => place_fault(fields).or(cover_fault(fields)),
        Target::Report => press_fault(fields),
        _ => None,
    };
    fault.or(if members.len() > target.members() {
        Some(BodyFault::More)
    } else {
        None
    })
}

fn call_fault(fields: &Value) -> Option<BodyFault> {
    let class: Option<Class> = number(fields, "class");
    number_fault(fields, "serial")
        .or(place_fault(fields))
        .or(out_of(fields, "class", class))
        .or(needs_fault(fields))
        .or(note_fault(fields))
}

fn press_fault(fields: &Value) -> Option<BodyFault> {
    let order: Option<LastNumber> = number(fields, "order");
    number_fault(fields, "number")
        .or(button_fault(fields))
        .or(out_of(fields, "order", order))
        .or(place_fault(fields))
}

fn number_fault(fields: &Value, name: &'static str) -> Option<BodyFault> {
    let given: Option<Number> = number(fields, name);
    out_of(fields, name, given)
}

fn until_fault(fields: &Value) -> Option<BodyFault> {
    let until: Option<Moment> = number(fields, "until");
    out_of(fields, "until", until)
}

fn division_fault(fields: &Value) -> Option<BodyFault> {
    let to: Option<DivisionNumber> = number(fields, "to");
    out_of(fields, "to", to)
}

fn cover_fault(fields: &Value) -> Option<BodyFault> {
    let cover: Option<Cover> = number(fields, "cover");
    out_of(fields, "cover", cover)
}

fn place_fault(fields: &Value) -> Option<BodyFault> {
    let is_good = place(fields, "place").is_some();
    unless(
        is_good,
        fields,
        "place",
        "a grid reference such as \"TQ300800\"",
    )
}

fn vehicle_fault(fields: &Value) -> Option<BodyFault> {
    let is_good = callsign(fields, "vehicle").is_some();
    unless(is_good, fields, "vehicle", "1 to 8 of A-Z and 0-9")
}

fn moves_fault(fields: &Value) -> Option<BodyFault> {
    let is_good = moves(fields, "moves").is_some();
    let form = "an array of 1 to 8 objects with an incident, or null, and a vehicle";
    unless(is_good, fields, "moves", form)
}

fn needs_fault(fields: &Value) -> Option<BodyFault> {
    let is_good = needs(fields, "needs").is_some();
    let form = "three whole numbers from 0 to 9, not all 0";
    unless(is_good, fields, "needs", form)
}

fn note_fault(fields: &Value) -> Option<BodyFault> {
    let text = fields.get("note").and_then(Value::as_str);
    let is_good = text.and_then(Note::new).is_some();
    unless(is_good, fields, "note", "a text of at most 120 bytes")
}

fn point_fault(fields: &Value) -> Option<BodyFault> {
    let is_good = point(fields, "point").is_some();
    unless(
        is_good,
        fields,
        "point",
        "a whole number from 1 to 99, or null",
    )
}

fn button_fault(fields: &Value) -> Option<BodyFault> {
    let is_good = button(fields, "button").is_some();
    unless(is_good, fields, "button", "the name of a button")
}

// The fault of a member that has to be a whole number of a range, where it is none.
fn out_of<const LEAST: u32, const GREATEST: u32>(
    fields: &Value,
    name: &'static str,
    given: Option<Bounded<LEAST, GREATEST>>,
) -> Option<BodyFault> {
    match given {
        Some(_) => None,
        None if fields.get(name).is_none() => Some(BodyFault::Missing(name)),
        None => Some(BodyFault::Range {
            name,
            least: LEAST,
            greatest: GREATEST,
        }),
    }
}

// The fault of a member that has to be of a form, where it is not.
fn unless(
    is_good: bool,
    fields: &Value,
    name: &'static str,
    form: &'static str,
) -> Option<BodyFault> {
    if is_good {
        None
    } else if fields.get(name).is_none() {
        Some(BodyFault::Missing(name))
    } else {
        Some(BodyFault::Form { name, form })
    }
}
