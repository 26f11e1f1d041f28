//! What the fields of a body ask for, of each target that takes a body.
ghost use Rattle.std.specs.Prelude.{◌≡◌};
ghost use Rattle.serde_json.specs.View.{items_view, view};
ghost use Rattle.room_http_requests.specs.Bodies.{ask_with_body, call_form, exactly, move_at};
ghost use Rattle.room_http_requests.specs.Bodies.{move_in, moves_at, press};

use crate::body_fields::{
    button, callsign, few, has_members, incident, needs, number, place, point,
};
use crate::request_table::Target;
use room_types::asks::{Ask, CallForm, MORE_MOVES, Move, Moves, Press};
use room_types::note::Note;
use serde_json::Value;

/// What the fields ask for of a target that takes a body: none where they are not exactly those
/// that the target takes, each of its form, and none for a target that takes no body.
#[tactic(auto, unfolding(crate::specs::Bodies::mobilise, crate::specs::Bodies::needs_change, crate::specs::Bodies::merge, crate::specs::Bodies::moves, crate::specs::Bodies::standby, crate::specs::Bodies::duty, crate::specs::Bodies::lend, crate::specs::Bodies::point_form, crate::specs::Bodies::exactly, crate::specs::Bodies::and_then))]
pub(crate) fn ask_with_body(target: &Target, fields: &Value) -> Option<Ask>
    ensures { result ≡ ask_with_body target.now (view fields.now) }
{
    if !has_members(fields, target.members()) {
        return None;
    }
    match *target {
        Target::Call => Some(Ask::Call(call_form(fields)?)),
        Target::Mobilise(incident) => Some(Ask::Mobilise(incident, callsign(fields, "vehicle")?)),
        Target::Needs(incident) => Some(Ask::Needs(incident, needs(fields, "needs")?)),
        Target::Merge(incident) => Some(Ask::Merge(incident, number(fields, "into")?)),
        Target::Moves => Some(Ask::Moves(moves(fields, "moves")?)),
        Target::Close(incident) => Some(Ask::Close(incident)),
        Target::StandDown(vehicle) => Some(Ask::StandDown(vehicle)),
        Target::Standby(vehicle) => Some(Ask::Standby(vehicle, point(fields, "point")?)),
        Target::Duty(vehicle) => {
            let (place, until) = (place(fields, "place")?, number(fields, "until")?);
            Some(Ask::Duty(vehicle, place, until))
        }
        Target::Off(vehicle) => Some(Ask::Off(vehicle)),
        Target::Lend(vehicle) => {
            let (to, until) = (number(fields, "to")?, number(fields, "until")?);
            Some(Ask::Lend(vehicle, to, until))
        }
        Target::Withdraw(vehicle) => Some(Ask::Withdraw(vehicle)),
        Target::Decline(vehicle) => Some(Ask::Decline(vehicle)),
        Target::Accept(vehicle) => Some(Ask::Accept(vehicle)),
        Target::Recall(vehicle) => Some(Ask::Recall(vehicle)),
        Target::GiveBack(vehicle) => Some(Ask::GiveBack(vehicle)),
        Target::Clear(vehicle, report) => Some(Ask::Clear(vehicle, report)),
        Target::SetPoint(point) => {
            let (place, cover) = (place(fields, "place")?, number(fields, "cover")?);
            Some(Ask::SetPoint(point, place, cover))
        }
        Target::Report => Some(Ask::Report(press(fields)?)),
        _ => None,
    }
}

/// A call: its class, needs, note, place and serial, which are its five fields.
#[tactic(auto, unfolding(crate::specs::Bodies::call_form, crate::specs::Bodies::exactly, crate::specs::Bodies::and_then, crate::specs::BodyFields::note_at, crate::specs::BodyFields::text_at))]
fn call_form(fields: &Value) -> Option<CallForm>
    ensures { exactly 5 (view fields.now) result ≡ call_form (view fields.now) }
{
    Some(CallForm {
        serial: number(fields, "serial")?,
        place: place(fields, "place")?,
        class: number(fields, "class")?,
        needs: needs(fields, "needs")?,
        note: Note::new(fields.get("note")?.as_str()?)?,
    })
}

/// A report: its number, button, order and place, which are its four fields.
#[tactic(auto, unfolding(crate::specs::Bodies::press, crate::specs::Bodies::exactly, crate::specs::Bodies::and_then))]
fn press(fields: &Value) -> Option<Press>
    ensures { exactly 4 (view fields.now) result ≡ press (view fields.now) }
{
    Some(Press {
        number: number(fields, "number")?,
        button: button(fields, "button")?,
        order: number(fields, "order")?,
        place: place(fields, "place")?,
    })
}

/// The moves under a name: one at least, and eight at most.
#[tactic(auto, unfolding(crate::specs::Bodies::moves_at, crate::specs::Bodies::moves_in, crate::specs::Bodies::and_then))]
pub(crate) fn moves(fields: &Value, name: &str) -> Option<Moves>
    ensures { result ≡ moves_at name.now (view fields.now) }
{
    let items = few(fields, name, MORE_MOVES + 1)?;
    Some(Moves {
        first: move_at(items, 0)??,
        others: [
            move_at(items, 1)?,
            move_at(items, 2)?,
            move_at(items, 3)?,
            move_at(items, 4)?,
            move_at(items, 5)?,
            move_at(items, 6)?,
            move_at(items, 7)?,
        ],
    })
}

/// The move at a place: `Some(None)` where nothing stands there.
#[tactic(auto, unfolding(crate::specs::Bodies::move_at))]
fn move_at(items: &[Value], place: usize) -> Option<Option<Move>>
    ensures { result ≡ move_at place (items_view items.now) }
{
    match items.get(place) {
        Some(fields) => Some(Some(move_in(fields)?)),
        None => Some(None),
    }
}

/// A move: its incident, or null, and its vehicle, which are its two fields.
#[tactic(auto, unfolding(crate::specs::Bodies::move_in, crate::specs::Bodies::exactly, crate::specs::Bodies::and_then))]
fn move_in(fields: &Value) -> Option<Move>
    ensures { result ≡ move_in (view fields.now) }
{
    if !has_members(fields, 2) {
        return None;
    }
    let incident = incident(fields, "incident")?;
    Some(Move {
        callsign: callsign(fields, "vehicle")?,
        incident,
    })
}
