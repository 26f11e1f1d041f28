//! What the members of an answer's JSON say.
ghost use Rattle.serde_json.specs.Data.{Data};
ghost use Rattle.serde_json.specs.View.{view};
ghost use Rattle.room_types.specs.Codes.{Decodes, outcome_name};
ghost use Rattle.dispatch_room_board.specs.Members.{HasItem, HasMember, IsBool, IsButton, IsByte};
ghost use Rattle.dispatch_room_board.specs.Members.{IsCallsign, IsCounts, IsFrom, IsKind, IsNeeds};
ghost use Rattle.dispatch_room_board.specs.Members.{IsNote, IsOrNull, IsOutcome, IsPlace, IsRank};
ghost use Rattle.dispatch_room_board.specs.Members.{IsRead, IsServed, IsStatus, IsWhole, IsWord};

use room_place::bounded_numbers::Bounded;
use room_place::places::Place;
use room_types::answers::Served;
use room_types::callsign::Callsign;
use room_types::codes::{Button, Kind, Outcome, Status};
use room_types::needs::{Counts, Needs};
use room_types::note::Note;
use room_types::ranks::Rank;
use serde_json::Value;

/// What an answer can say.
pub trait FromJson: Copy {
    // Whether JSON says it.
    ghost says: { Data → Self → Type 0 };

    /// What a value of JSON says; none where it says nothing of the kind.
    fn from_json(value: &Value) -> Option<Self>
        ensures { IsRead (says (view value.now)) result };
}

/// What the member of a name says; none where the value has none, or it says nothing of the kind.
pub fn member<T: FromJson>(value: &Value, name: &str) -> Option<T>
    ensures { IsRead (HasMember T.says name.now (view value.now)) result }
{
    match value.get(name) {
        Some(member) => T::from_json(member),
        None => None,
    }
}

// What the item at a place of a list says, counted from 0; none where there is none, or it says
// nothing of the kind.
fn item<T: FromJson>(value: &Value, at: usize) -> Option<T>
    ensures { IsRead (HasItem T.says at (view value.now)) result }
{
    match value.get(at) {
        Some(item) => T::from_json(item),
        None => None,
    }
}

impl FromJson for bool {
    ghost says = { IsBool };

    fn from_json(value: &Value) -> Option<bool> {
        value.as_bool()
    }
}

impl FromJson for u64 {
    ghost says = { IsWhole };

    fn from_json(value: &Value) -> Option<u64> {
        value.as_u64()
    }
}

impl FromJson for u32 {
    ghost says = { IsWord };

    fn from_json(value: &Value) -> Option<u32> {
        match value.as_u64() {
            Some(number) => u32::try_from(number).ok(),
            None => None,
        }
    }
}

impl FromJson for u8 {
    ghost says = { IsByte };

    fn from_json(value: &Value) -> Option<u8> {
        match value.as_u64() {
            Some(number) => u8::try_from(number).ok(),
            None => None,
        }
    }
}

impl<const LEAST: u32, const GREATEST: u32> FromJson for Bounded<LEAST, GREATEST> {
    ghost says = { IsFrom LEAST GREATEST };

    fn from_json(value: &Value) -> Option<Self> {
        match u32::from_json(value) {
            Some(number) => Bounded::new(number),
            None => None,
        }
    }
}

impl<T: FromJson> FromJson for Option<T> {
    ghost says = { IsOrNull T.says };

    fn from_json(value: &Value) -> Option<Option<T>> {
        if value.as_null().is_some() {
            return Some(None);
        }
        match T::from_json(value) {
            Some(it) => Some(Some(it)),
            None => None,
        }
    }
}

impl FromJson for Callsign {
    ghost says = { IsCallsign };

    fn from_json(value: &Value) -> Option<Callsign> {
        match value.as_str() {
            Some(text) => Callsign::parse(text),
            None => None,
        }
    }
}

impl FromJson for Note {
    ghost says = { IsNote };

    fn from_json(value: &Value) -> Option<Note> {
        match value.as_str() {
            Some(text) => Note::new(text),
            None => None,
        }
    }
}

impl FromJson for Kind {
    ghost says = { IsKind };

    fn from_json(value: &Value) -> Option<Kind> {
        match u8::from_json(value) {
            Some(number) => Kind::from_number(number),
            None => None,
        }
    }
}

impl FromJson for Status {
    ghost says = { IsStatus };

    fn from_json(value: &Value) -> Option<Status> {
        match u8::from_json(value) {
            Some(number) => Status::from_number(number),
            None => None,
        }
    }
}

impl FromJson for Button {
    ghost says = { IsButton };

    fn from_json(value: &Value) -> Option<Button> {
        match value.as_str() {
            Some(name) => Button::parse(name),
            None => None,
        }
    }
}

impl FromJson for Outcome {
    ghost says = { IsOutcome };

    fn from_json(value: &Value) -> Option<Outcome> {
        match value.as_str() {
            Some(name) => outcome_of(name),
            None => None,
        }
    }
}

// The outcome of this name; none where no outcome has it.
fn outcome_of(name: &str) -> Option<Outcome>
    ensures { Decodes outcome_name name.now result }
{
    match name {
        "normal" => Some(Outcome::Normal),
        "skipped" => Some(Outcome::Skipped),
        "wrong" => Some(Outcome::Wrong),
        "late" => Some(Outcome::Late),
        "stale" => Some(Outcome::Stale),
        _ => None,
    }
}

impl FromJson for Rank {
    ghost says = { IsRank };

    fn from_json(value: &Value) -> Option<Rank> {
        match u8::from_json(value) {
            Some(number) => Rank::from_number(number),
            None => None,
        }
    }
}

impl FromJson for Counts {
    ghost says = { IsCounts };

    fn from_json(value: &Value) -> Option<Counts> {
        let members = item(value, 0).zip(item(value, 1)).zip(item(value, 2));
        match members {
            Some(((ambulances, cars), support)) => Some(Counts {
                ambulances,
                cars,
                support,
            }),
            None => None,
        }
    }
}

impl FromJson for Needs {
    ghost says = { IsNeeds };

    fn from_json(value: &Value) -> Option<Needs> {
        match Counts::from_json(value) {
            Some(counts) => Needs::new(counts),
            None => None,
        }
    }
}

impl FromJson for Served {
    ghost says = { IsServed };

    fn from_json(value: &Value) -> Option<Served> {
        let served = item(value, 0).zip(item(value, 1)).zip(item(value, 2));
        match served {
            Some(((ambulances, cars), support)) => Some(Served {
                ambulances,
                cars,
                support,
            }),
            None => None,
        }
    }
}

impl FromJson for Place {
    ghost says = { IsPlace };

    fn from_json(value: &Value) -> Option<Place> {
        match item(value, 0).zip(item(value, 1)) {
            Some((east, north)) => Some(Place { east, north }),
            None => None,
        }
    }
}
