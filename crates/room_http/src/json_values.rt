//! What answers say, as JSON that is sent value by value.
#![tactic(auto, unfolding(crate::specs::Objects::Sends))]

ghost use Rattle.std.specs.Prelude.{OnOk, Option, Some, None};
ghost use Rattle.serde_json.specs.Data.{Data, boolean, number, string};
ghost use Rattle.serde_json.specs.Find.{of_integer};
ghost use Rattle.room_http.specs.JsonShapes.{whole, or_null, list_of};
ghost use Rattle.room_http.specs.Objects.{Sends};
ghost use Rattle.room_http.specs.AnswerJson.{counts_json, place_json, served_json};
ghost use Rattle.room_types.specs.Codes.{button_name, kind_number, outcome_name, status_number};
ghost use Rattle.room_types.specs.Ranks.{rank_number};

use room_place::bounded_numbers::Bounded;
use room_place::places::Place;
use room_types::answers::{Listed, Served};
use room_types::callsign::Callsign;
use room_types::codes::{Button, Kind, Outcome, Status};
use room_types::needs::{Counts, Needs};
use room_types::note::Note;
use room_types::ranks::Rank;
use serde::Serializer;

/// What an answer can say. The types are of other crates, as serde's `Serialize` is.
pub trait ToJson {
    // The JSON that says it.
    ghost json: { Self → Data };

    /// Sends the JSON that says it.
    fn write_json<S: Serializer>(&self, out: &mut S) -> Result<(), S::Error>
        ensures { OnOk result (Sends (json self.now) (S.written out.old) (S.written out.new)) };
}

impl ToJson for bool {
    ghost json = { boolean };

    fn write_json<S: Serializer>(&self, out: &mut S) -> Result<(), S::Error> {
        out.bool(*self)
    }
}

impl ToJson for u8 {
    ghost json = { whole };

    fn write_json<S: Serializer>(&self, out: &mut S) -> Result<(), S::Error> {
        out.u64(u64::from(*self))
    }
}

impl ToJson for u32 {
    ghost json = { whole };

    fn write_json<S: Serializer>(&self, out: &mut S) -> Result<(), S::Error> {
        out.u64(u64::from(*self))
    }
}

impl ToJson for u64 {
    ghost json = { whole };

    fn write_json<S: Serializer>(&self, out: &mut S) -> Result<(), S::Error> {
        out.u64(*self)
    }
}

impl ToJson for i64 {
    ghost json = { λ z. number (of_integer z) };

    fn write_json<S: Serializer>(&self, out: &mut S) -> Result<(), S::Error> {
        if *self < 0 {
            out.i64(*self)
        } else {
            out.u64(*self as u64)
        }
    }
}

impl ToJson for &str {
    ghost json = { λ text. string text.now };

    fn write_json<S: Serializer>(&self, out: &mut S) -> Result<(), S::Error> {
        out.str(self)
    }
}

impl<const LEAST: u32, const GREATEST: u32> ToJson for Bounded<LEAST, GREATEST> {
    ghost json = { whole };

    fn write_json<S: Serializer>(&self, out: &mut S) -> Result<(), S::Error> {
        out.u64(u64::from(self.get()))
    }
}

impl<T: ToJson> ToJson for Option<T> {
    ghost json = { or_null T.json };

    fn write_json<S: Serializer>(&self, out: &mut S) -> Result<(), S::Error> {
        match self {
            Some(value) => value.write_json(out),
            None => out.unit(),
        }
    }
}

impl ToJson for Callsign {
    ghost json = { string };

    fn write_json<S: Serializer>(&self, out: &mut S) -> Result<(), S::Error> {
        out.str(self.as_str())
    }
}

impl ToJson for Note {
    ghost json = { string };

    fn write_json<S: Serializer>(&self, out: &mut S) -> Result<(), S::Error> {
        out.str(self.as_str())
    }
}

impl ToJson for Kind {
    ghost json = { λ kind. whole (kind_number kind) };

    fn write_json<S: Serializer>(&self, out: &mut S) -> Result<(), S::Error> {
        out.u64(u64::from(self.number()))
    }
}

impl ToJson for Status {
    ghost json = { λ status. whole (status_number status) };

    fn write_json<S: Serializer>(&self, out: &mut S) -> Result<(), S::Error> {
        out.u64(u64::from(self.number()))
    }
}

impl ToJson for Rank {
    ghost json = { λ rank. whole (rank_number rank) };

    fn write_json<S: Serializer>(&self, out: &mut S) -> Result<(), S::Error> {
        out.u64(u64::from(self.number()))
    }
}

impl ToJson for Button {
    ghost json = { λ button. string (button_name button) };

    fn write_json<S: Serializer>(&self, out: &mut S) -> Result<(), S::Error> {
        out.str(self.name())
    }
}

impl ToJson for Outcome {
    ghost json = { λ outcome. string (outcome_name outcome) };

    fn write_json<S: Serializer>(&self, out: &mut S) -> Result<(), S::Error> {
        out.str(self.name())
    }
}

impl ToJson for Counts {
    ghost json = { counts_json };

    fn write_json<S: Serializer>(&self, out: &mut S) -> Result<(), S::Error> {
        list(&[self.ambulances, self.cars, self.support], out)
    }
}

impl ToJson for Served {
    ghost json = { served_json };

    fn write_json<S: Serializer>(&self, out: &mut S) -> Result<(), S::Error> {
        list(&[self.ambulances, self.cars, self.support], out)
    }
}

impl ToJson for Needs {
    ghost json = { counts_json };

    fn write_json<S: Serializer>(&self, out: &mut S) -> Result<(), S::Error> {
        self.counts().write_json(out)
    }
}

impl ToJson for Place {
    ghost json = { place_json };

    fn write_json<S: Serializer>(&self, out: &mut S) -> Result<(), S::Error> {
        list(&[self.east.get(), self.north.get()], out)
    }
}

impl<L: ToJson + Copy> ToJson for Listed<L> {
    ghost json = { list_of L.json };

    fn write_json<S: Serializer>(&self, out: &mut S) -> Result<(), S::Error> {
        list(self.as_slice(), out)
    }
}

impl<T: ToJson, const N: usize> ToJson for [T; N] {
    ghost json = { list_of T.json };

    fn write_json<S: Serializer>(&self, out: &mut S) -> Result<(), S::Error> {
        list(self, out)
    }
}

/// A list, item by item.
fn list<T: ToJson, S: Serializer>(items: &[T], out: &mut S) -> Result<(), S::Error>
    ensures { OnOk result
        (Sends (list_of T.json items.now) (S.written out.old) (S.written out.new)) }
{
    out.begin_seq(Some(items.len()))?;
    for item in items {
        item.write_json(out)?;
    }
    out.end_seq()
}
