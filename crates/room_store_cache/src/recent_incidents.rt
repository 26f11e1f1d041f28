//! The incidents opened from a moment on, and those of them that a call may be linked to. Those
//! within 200 m east or west and 200 m north or south are decided on: none further off is within
//! 200 m, and those in the corners of that square are few.
ghost use Rattle.std.specs.Prelude.{◌≡◌, ◌+◌, ◌-◌, ◌≤◌, ◌==◌, ◌&&◌, None, filter, IfErr, IfOk};
ghost use Rattle.std.specs.Prelude.{IfSome, OnOk};
ghost use Rattle.room_tables.specs.FoundRows.{Finds};
ghost use Rattle.room_tables_schema.specs.FileConnections.{HasRoomSchema, StandsOpen};
ghost use Rattle.room_tables_schema.specs.declared.database_faults.Fault.TheVariants.{Memory};
ghost use Rattle.room_tables_schema.specs.Outcomes.{ReadsOnly};
ghost use Rattle.room_types.specs.declared.asks.Ask.TheVariants.{Call};
ghost use Rattle.room_model.specs.Moments.{link_seconds};
ghost use Rattle.room_model.specs.Room.{Room};
ghost use Rattle.room_model.specs.WorkingRows.{names_opening};
ghost use Rattle.room_store_cache.specs.RecentIncidents.{AreRecent, opened_since};

use crate::cached_rows::put;
use crate::half_hours::HalfHour;
use crate::views::View;
use room_place::plans::DivisionNumber;
use room_tables::incident_table::incidents_since;
use room_tables_schema::database_faults::Fault;
use room_types::asks::CallForm;
use room_types::changes::Change;
use room_types::link_limits::{LINK_METRES, LINK_SECONDS};
use room_types::numbers::Moment;
use room_types::rows::Rows;
use room_types::tables::Incident;
use sqlite::{Alter, Connection};
use std::alloc::Global;

// How many seconds more are kept than a call looks back: after these they are read anew, without
// the oldest.
const KEPT_LONGER: u32 = 900;

/// The incidents of all divisions that were opened from a moment on, as the tables have them, where
/// that is one half hour; or nothing is known.
#[derive(Drop)]
pub struct RecentIncidents {
    known: Option<HalfHour>,
}

impl RecentIncidents {
    /// Nothing is known yet.
    pub fn new() -> RecentIncidents
        ensures { result.known ≡ None }
    {
        RecentIncidents { known: None }
    }

    /// The half hour that is known, where it has all that a call at this moment may be linked to,
    /// and is not to be read anew.
    pub fn get(&self, at: Moment) -> Option<&HalfHour>
        ensures so { (room : Room) → AreRecent self.now room
            → IfSome result (λ x. x.now.incidents ≡ filter (opened_since x.now.from)
            room.incidents) }
        ensures reach { IfSome result (λ x. x.now.from ≤ at - link_seconds) }
        ensures last { IfSome result (λ _. IfSome self.now.known (λ x. at ≤ x.from + 1800)) }
    {
        let from = first_linked(at);
        match &self.known {
            Some(known) if known.from <= from && from - known.from <= KEPT_LONGER => Some(known),
            _ => None,
        }
    }

    /// Keeps the incidents that were opened from a second on, where they are of one half hour.
    pub fn fill(&mut self, from: u32, incidents: Rows<Incident>)
        ensures so { (room : Room) → incidents ≡ filter (opened_since from) room.incidents
            → AreRecent self.new room }
        ensures from { IfSome self.new.known (λ x. x.from ≡ from) }
    {
        self.known = HalfHour::new(from, incidents);
    }

    /// The incidents of a division that a call may be linked to. Where not all of them are known,
    /// the tables are read first, and what they have is kept if it is of one half hour. It is of
    /// more only where the clock was put back. A refusal is of memory or of storage.
    pub fn near<S: Alter>(
        &mut self,
        alloc: Global,
        conn: &mut Connection<S>,
        division: DivisionNumber,
        form: &CallForm,
        at: Moment,
    ) -> Result<Rows<Incident>, Fault>
        requires room { HasRoomSchema S.Store conn.old }
        requires open { StandsOpen S.Store conn.old }
        ensures rows { Finds S.Store conn.old conn.new result (λ room x. AreRecent self.old room
            → x ≡ filter (λ i. i.division == division && names_opening (Call form.now) at i)
            room.incidents) }
        ensures kept { Finds S.Store conn.old conn.new result (λ room x. AreRecent self.old room
            → AreRecent self.new room) }
        ensures last { OnOk result (IfSome self.new.known (λ x. at ≤ x.from + 1800)) }
        ensures reads { ReadsOnly S.Store conn.old conn.new result }
    {
        if let Some(known) = self.get(at) {
            return around(alloc, &known.incidents, division, form, at);
        }
        let from = first_linked(at);
        let since = incidents_since(alloc, conn, i64::from(from))?;
        let near = around(alloc, &since, division, form, at);
        self.fill(from, since);
        near
    }
}

impl View for RecentIncidents {
    ghost is_so = { AreRecent };

    ghost is_empty = { λ recent_incidents. recent_incidents.known ≡ None };

    // Nothing is known either where an incident was opened after the half hour.
    fn apply(&mut self, change: &Change) {
        if let Change::PutIncident(incident) = change
            && let Some(known) = self.known.take()
        {
            self.known = known.with(incident);
        }
    }

    fn forget(&mut self) {
        self.known = None;
    }
}

// The first second in which an incident may have been opened that a call at a moment is linked to.
fn first_linked(at: Moment) -> u32
    ensures { result ≡ at - link_seconds }
{
    at.get().saturating_sub(LINK_SECONDS)
}

// Those of a division that a call may be linked to. The one fault is `Memory`.
fn around(
    alloc: Global,
    incidents: &Rows<Incident>,
    division: DivisionNumber,
    form: &CallForm,
    at: Moment,
) -> Result<Rows<Incident>, Fault>
    ensures rows { IfOk result (λ rows. rows ≡ filter (λ i. i.division == division
        && names_opening (Call form.now) at i) incidents.now) }
    ensures memory { IfErr result (λ e. e ≡ Memory) }
{
    let mut near = Rows::new(alloc);
    for incident in incidents.as_slice() {
        if may_link(incident, division, form, at) {
            put(&mut near, incident)?;
        }
    }
    Ok(near)
}

// Whether an incident is the division's, and a call may be linked to it by its opening and its
// place.
fn may_link(incident: &Incident, division: DivisionNumber, form: &CallForm, at: Moment) -> bool
    ensures { result ≡ incident.now.division == division
        && names_opening (Call form.now) at incident.now }
{
    incident.division == division
        && at.get().saturating_sub(incident.opened.get()) <= LINK_SECONDS
        && incident.place.east.get().abs_diff(form.place.east.get()) <= LINK_METRES
        && incident.place.north.get().abs_diff(form.place.north.get()) <= LINK_METRES
}
