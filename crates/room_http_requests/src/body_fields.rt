//! The fields of a body: an object of JSON, and the values under its names.
ghost use Rattle.std.specs.Prelude.{◌≡◌, MatchResult, Some, None, ◌⊎◌};
ghost use Rattle.serde_json.specs.Data.{object};
ghost use Rattle.serde_json.specs.View.{items_view, view};
ghost use Rattle.std.specs.Option.{option_map};
ghost use Rattle.room_types.specs.declared.refusal_statuses.Refusal.TheVariants.{BadBody, Memory};
ghost use Rattle.room_http_requests.specs.BodyFields.{button_at, callsign_at, few_at, fields_of};
ghost use Rattle.room_http_requests.specs.BodyFields.{has_members, incident_at, needs_at, needs_of};
ghost use Rattle.room_http_requests.specs.BodyFields.{number_at, number_in, place_at, point_at};

use room_place::bounded_numbers::Bounded;
use room_place::places::Place;
use room_types::callsign::Callsign;
use room_types::codes::Button;
use room_types::needs::{Counts, Needs};
use room_types::numbers::{Need, Number, PointNumber};
use room_types::refusal_statuses::Refusal;
use serde_json::{Map, Value};
use std::alloc::Global;

/// The fields of a body: an empty one has none. A text that is no JSON is refused as `BadBody`.
#[tactic(auto, unfolding(crate::specs::BodyFields::fields_of))]
pub(crate) fn fields_of(alloc: Global, body: &[u8]) -> Result<Value, Refusal>
    ensures { MatchResult result (λ fields. fields_of body.now ≡ Some (view fields))
        (λ refusal. (refusal ≡ Memory) ⊎ ((refusal ≡ BadBody) × (fields_of body.now ≡ None))) }
{
    if body.is_empty() {
        return Ok(Value::Object(Map::new(alloc)));
    }
    let Ok(text) = str::from_utf8(body) else {
        return Err(Refusal::BadBody);
    };
    match Value::from_str(alloc, text) {
        Ok(fields) => Ok(fields),
        Err(error) if error.is_memory() => Err(Refusal::Memory),
        Err(_) => Err(Refusal::BadBody),
    }
}

/// Whether these are the fields of an object of so many members.
pub(crate) fn has_members(fields: &Value, count: usize) -> bool
    ensures { result ≡ has_members count (view fields.now) }
{
    match fields.as_object() {
        Some(members) => members.len() == count,
        None => false,
    }
}

/// The whole number of a range that a value is.
fn number_in<const LEAST: u32, const GREATEST: u32>(
    value: &Value,
) -> Option<Bounded<LEAST, GREATEST>>
    ensures { result ≡ number_in LEAST GREATEST (view value.now) }
{
    let number = value.as_u64()?;
    if number <= u64::from(GREATEST) {
        Bounded::new(number as u32)
    } else {
        None
    }
}

/// The whole number of a range under a name.
#[tactic(auto, unfolding(crate::specs::BodyFields::number_at))]
pub(crate) fn number<const LEAST: u32, const GREATEST: u32>(
    fields: &Value,
    name: &str,
) -> Option<Bounded<LEAST, GREATEST>>
    ensures { result ≡ number_at LEAST GREATEST name.now (view fields.now) }
{
    number_in(fields.get(name)?)
}

/// The place that a reference under a name names.
#[tactic(auto, unfolding(crate::specs::BodyFields::place_at, crate::specs::BodyFields::text_at))]
pub(crate) fn place(fields: &Value, name: &str) -> Option<Place>
    ensures { result ≡ place_at name.now (view fields.now) }
{
    Place::parse(fields.get(name)?.as_str()?).ok()
}

/// The callsign under a name.
#[tactic(auto, unfolding(crate::specs::BodyFields::callsign_at, crate::specs::BodyFields::text_at))]
pub(crate) fn callsign(fields: &Value, name: &str) -> Option<Callsign>
    ensures { result ≡ callsign_at name.now (view fields.now) }
{
    Callsign::parse(fields.get(name)?.as_str()?)
}

/// The button whose name stands under a name.
#[tactic(auto, unfolding(crate::specs::BodyFields::button_at, crate::specs::BodyFields::text_at))]
pub(crate) fn button(fields: &Value, name: &str) -> Option<Button>
    ensures { result ≡ button_at name.now (view fields.now) }
{
    Button::parse(fields.get(name)?.as_str()?)
}

/// The needs under a name: an array of three numbers, for at least one vehicle.
#[tactic(auto, unfolding(crate::specs::BodyFields::needs_at, crate::specs::BodyFields::needs_of))]
pub(crate) fn needs(fields: &Value, name: &str) -> Option<Needs>
    ensures { result ≡ needs_at name.now (view fields.now) }
{
    match fields.get(name)?.as_array()?.as_slice() {
        [ambulances, cars, support] => Needs::new(Counts {
            ambulances: number_in(ambulances)?,
            cars: number_in(cars)?,
            support: number_in(support)?,
        }),
        _ => None,
    }
}

/// The standby point under a name: `Some(None)` where it is null.
#[tactic(auto, unfolding(crate::specs::BodyFields::point_at))]
pub(crate) fn point(fields: &Value, name: &str) -> Option<Option<PointNumber>>
    ensures { result ≡ point_at name.now (view fields.now) }
{
    let value = fields.get(name)?;
    if value.is_null() {
        return Some(None);
    }
    number_in(value).map(Some)
}

/// The incident under a name: `Some(None)` where it is null.
#[tactic(auto, unfolding(crate::specs::BodyFields::incident_at))]
pub(crate) fn incident(fields: &Value, name: &str) -> Option<Option<Number>>
    ensures { result ≡ incident_at name.now (view fields.now) }
{
    let value = fields.get(name)?;
    if value.is_null() {
        return Some(None);
    }
    number_in(value).map(Some)
}

/// The items of the array under a name, of which there are at most so many.
#[tactic(auto, unfolding(crate::specs::BodyFields::few_at))]
pub(crate) fn few<'a>(fields: &'a Value, name: &str, most: usize) -> Option<&'a [Value]>
    ensures { option_map (λ items. items_view items.now) result
        ≡ few_at most name.now (view fields.now) }
{
    let items = fields.get(name)?.as_array()?.as_slice();
    if items.len() <= most {
        Some(items)
    } else {
        None
    }
}
