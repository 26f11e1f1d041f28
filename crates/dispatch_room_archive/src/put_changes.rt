//! The changes that put rows.
ghost use Rattle.std.specs.Prelude.{◌≡◌, ◌++◌, ℕ, Bool, List, OnOk, filter, map, not};
ghost use Rattle.room_place.specs.declared.plans.Area.{Area};
ghost use Rattle.room_types.specs.declared.changes.Change.{Change as Made};
ghost use Rattle.room_types.specs.declared.changes.Change.TheVariants as made;
ghost use Rattle.room_model.specs.Room.{Room};
ghost use Rattle.room_model.specs.RoomSlices.{room_of};
ghost use Rattle.dispatch_room_archive.specs.Successor.{is_over};
ghost use Rattle.dispatch_room_archive.specs.Leftovers.{is_call_over, is_report_over, is_turn_over};

use crate::past_rows::Past;
use room_types::changes::Change;
use room_types::rows::{Part, Row, Rows};
use room_types::tables::{
    Assignment, Call, Division, Incident, Loan, Offer, Point, Report, Turn, Vehicle,
};
use std::alloc::AllocError;

/// A row that a change puts.
pub(crate) trait Put: Row {
    ghost put_of: { Self → Made };

    /// The change that puts it.
    fn put(self) -> Change
        ensures { result ≡ put_of self };
}

/// A row that may stay behind when its room is renewed.
pub(crate) trait Leaves: Put {
    // Whether it stays behind, of a room that is renewed since a moment.
    ghost stays_behind: { ℕ → Room → Self → Bool };

    /// Whether it stays behind.
    fn stays_behind(&self, past: &Past<'_>) -> bool
        ensures { (plan : List Area) → result
            ≡ stays_behind past.now.since (room_of plan past.now.rows.now) self.now };
}

/// Puts all rows of a table, after the changes that are there.
pub(crate) fn put_all<R: Put>(changes: &mut Vec<Change>, rows: &Part<R>) -> Result<(), AllocError>
    ensures { OnOk result (changes.new.items ≡ changes.old.items ++ map R.put_of rows.now) }
{
    for row in rows.as_slice() {
        changes.push(row.put())?;
    }
    Ok(())
}

/// Puts the rows of a table that don't stay behind.
pub(crate) fn put_kept<R: Leaves>(
    changes: &mut Vec<Change>,
    rows: &Rows<R>,
    past: &Past<'_>,
) -> Result<(), AllocError>
    ensures { OnOk result ((plan : List Area) → changes.new.items ≡ changes.old.items
        ++ map R.put_of (filter (λ x. not (R.stays_behind past.now.since
        (room_of plan past.now.rows.now) x)) rows.now)) }
{
    for row in rows.as_slice() {
        if !row.stays_behind(past) {
            changes.push(row.put())?;
        }
    }
    Ok(())
}

impl Put for Division {
    ghost put_of = { made.PutDivision };

    fn put(self) -> Change {
        Change::PutDivision(self)
    }
}

impl Put for Incident {
    ghost put_of = { made.PutIncident };

    fn put(self) -> Change {
        Change::PutIncident(self)
    }
}

impl Put for Call {
    ghost put_of = { made.PutCall };

    fn put(self) -> Change {
        Change::PutCall(self)
    }
}

impl Put for Vehicle {
    ghost put_of = { made.PutVehicle };

    fn put(self) -> Change {
        Change::PutVehicle(self)
    }
}

impl Put for Turn {
    ghost put_of = { made.PutTurn };

    fn put(self) -> Change {
        Change::PutTurn(self)
    }
}

impl Put for Assignment {
    ghost put_of = { made.PutAssignment };

    fn put(self) -> Change {
        Change::PutAssignment(self)
    }
}

impl Put for Point {
    ghost put_of = { made.PutPoint };

    fn put(self) -> Change {
        Change::PutPoint(self)
    }
}

impl Put for Loan {
    ghost put_of = { made.PutLoan };

    fn put(self) -> Change {
        Change::PutLoan(self)
    }
}

impl Put for Offer {
    ghost put_of = { made.PutOffer };

    fn put(self) -> Change {
        Change::PutOffer(self)
    }
}

impl Put for Report {
    ghost put_of = { made.PutReport };

    fn put(self) -> Change {
        Change::PutReport(self)
    }
}

impl Leaves for Incident {
    ghost stays_behind = { is_over };

    fn stays_behind(&self, past: &Past<'_>) -> bool {
        past.is_over(self)
    }
}

impl Leaves for Call {
    ghost stays_behind = { is_call_over };

    fn stays_behind(&self, past: &Past<'_>) -> bool {
        past.incident_stays_behind(self.division, self.incident)
    }
}

impl Leaves for Turn {
    ghost stays_behind = { is_turn_over };

    fn stays_behind(&self, past: &Past<'_>) -> bool {
        past.incident_stays_behind(self.division, self.incident)
    }
}

impl Leaves for Report {
    ghost stays_behind = { is_report_over };

    fn stays_behind(&self, past: &Past<'_>) -> bool {
        past.is_report_over(self)
    }
}
