//! Rooms whose turns, reports and calls are judged one at a time, so that they need not be held.
ghost use Rattle.std.specs.Prelude.{◌≡◌, ◌↔◌, ◌++◌, ◌∷◌, [], ℕ, IsTrue, List, OnOk, is_none};
ghost use Rattle.std.specs.Prelude.{option_copied};
ghost use Rattle.std.specs.BTreeSet.{BTreeSet, contains};
ghost use Rattle.room_model.specs.Room.{IsInOrder};
ghost use Rattle.room_model.specs.RoomSlices.{room_of};
ghost use Rattle.room_model.specs.RoomAgreements.{IsWellFormed};
ghost use Rattle.room_types.specs.declared.slices.DivisionRows.{DivisionRows};
ghost use Rattle.room_types.specs.declared.tables.Call.{Call as CallRow};
ghost use Rattle.room_store_check_rows.specs.RowTests.{opening_cmp};
ghost use Rattle.room_store_check_rows.specs.HistoryChecks.{AreOpenings, histories_fit, is_last};
ghost use Rattle.room_store_check_rows.specs.HistoryChecks.{is_last_report, kept};
ghost use Rattle.room_store_check_rows.specs.HistoryChecks.{kept_disagreement};

use crate::disagreements::Disagreement;
use crate::first_disagreement::{Judged, first_of};
use crate::opening_calls::first_uncalled;
use crate::room_checks::{RoomRows, standing_disagreement};
use room_place::plans::{DivisionNumber, Plan};
use room_types::numbers::{Moment, Number};
use room_types::rows::Part;
use room_types::tables::{Call, Incident, Report, Vehicle};
use std::alloc::{AllocError, Global};
use std::collections::BTreeSet;
use std::marker::Model;

/// The openings that calls give, so that an incident without one is found at once. A contract sees
/// the set of the divisions, numbers and moments that they give.
#[derive(Drop)]
pub struct Openings {
    called: BTreeSet<(DivisionNumber, Number, Moment)>,
}

impl Model for Openings {
    ghost Value = { BTreeSet (ℕ × ℕ × ℕ) };

    ghost view = { λ openings. openings.called };
}

impl Openings {
    /// None yet.
    pub fn new(alloc: Global) -> Openings
        ensures { AreOpenings [] result }
    {
        Openings {
            called: BTreeSet::new(alloc),
        }
    }

    /// Adds what a call gives.
    pub fn add(&mut self, call: &Call) -> Result<(), AllocError>
        ensures { OnOk result ((calls : List CallRow) → AreOpenings calls self.old
            → AreOpenings (calls ++ call.now ∷ []) self.new) }
    {
        self.called.insert((call.division, call.incident, call.at))?;
        Ok(())
    }

    // Whether the incident's opening is given.
    pub(crate) fn has(&self, incident: &Incident) -> bool
        ensures { let i = incident.now in result ≡
            contains opening_cmp self.now (i.division, i.number, i.opened) }
    {
        self.called
            .contains(&(incident.division, incident.number, incident.opened))
    }
}

/// Whether a row agrees with the rows that it names.
pub fn agrees<R: Judged>(plan: &Plan, rows: &RoomRows, row: &R) -> bool
    ensures { result ≡ is_none (R.disagreement plan.now.areas rows.now row.now) }
{
    row.disagreement(plan, rows).is_none()
}

/// Whether a report is the last of its vehicle.
pub fn is_last(report: &Report, vehicles: &Part<Vehicle>) -> bool
    ensures { result ≡ is_last vehicles.now report.now }
{
    is_last_report(report.number, vehicles.get(&report.callsign))
}

fn is_last_report(number: Number, vehicle: Option<&Vehicle>) -> bool
    ensures { result ≡ is_last_report number (option_copied vehicle.entry) }
{
    match vehicle {
        Some(vehicle) => vehicle.last_report.get() == number.get(),
        None => false,
    }
}

/// Whether a room is well-formed, of which these rows are kept, these openings are given, and whose
/// turns, reports and calls all agree with the rows that are kept, or don't.
pub fn is_room_well_formed(
    plan: &Plan,
    rows: &RoomRows,
    openings: &Openings,
    do_histories_fit: bool,
) -> bool
    ensures { (s : DivisionRows) → IsInOrder (room_of plan.now.areas s) → rows.now ≡ kept s
        → AreOpenings s.calls openings.now → do_histories_fit ≡ histories_fit plan.now.areas s
        → (IsTrue result ↔ IsWellFormed (room_of plan.now.areas s)) }
{
    do_histories_fit && kept_disagreement(plan, rows, openings).is_none()
}

// What is wrong first with the rows that are kept, but for the turns, reports and calls of them.
fn kept_disagreement(plan: &Plan, rows: &RoomRows, openings: &Openings) -> Option<Disagreement>
    ensures { result ≡ kept_disagreement plan.now.areas rows.now openings.now }
{
    let incidents = rows.incidents.as_slice();
    standing_disagreement(plan, rows)
        .or(first_of(plan, rows, incidents))
        .or(first_uncalled(openings, incidents))
}
