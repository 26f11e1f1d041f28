//! Which rows of a room stay behind when it is renewed since a moment.
ghost use Rattle.std.specs.Prelude.{◌≡◌, ◌&&◌, IfOk, List, nat_lt, not};
ghost use Rattle.room_place.specs.declared.plans.Area.{Area};
ghost use Rattle.room_types.specs.Codes.{is_active, is_normal};
ghost use Rattle.room_model.specs.RoomSlices.{room_of};
ghost use Rattle.dispatch_room_archive.specs.Successor.{incident_stays_behind, is_over, is_settled};
ghost use Rattle.dispatch_room_archive.specs.CalledIncidents.{AreCalled};
ghost use Rattle.dispatch_room_archive.specs.Leftovers.{is_report_over};

use crate::called_incidents::Called;
use room_place::plans::DivisionNumber;
use room_store_check_rows::history_checks::is_last;
use room_types::codes::Outcome;
use room_types::numbers::{Moment, Number};
use room_types::slices::DivisionRows;
use room_types::tables::{Incident, Report};
use std::alloc::{AllocError, Global};

/// The rows of a room, and what decides which of them stay behind when it is renewed since a
/// moment.
#[derive(Drop)]
pub struct Past<'a> {
    pub since: Moment,
    pub rows: &'a DivisionRows<'a>,
    called: Called,
    pub ghost calls: { AreCalled since rows.now.calls rows.now.calls called },
}

impl<'a> Past<'a> {
    /// Prepares to decide about these rows. It fails if memory is refused.
    pub fn of(
        alloc: Global,
        since: Moment,
        rows: &'a DivisionRows<'a>,
    ) -> Result<Past<'a>, AllocError>
        ensures { IfOk result (λ past. (past.since ≡ since) × (past.rows.now ≡ rows.now)) }
    {
        let called = Called::since(alloc, since, &rows.calls)?;
        Ok(Past {
            since,
            rows,
            called,
        })
    }

    /// Whether the incident of a division and number stays behind.
    pub fn incident_stays_behind(&self, division: DivisionNumber, number: Number) -> bool
        ensures { (plan : List Area) → result
            ≡ incident_stays_behind self.now.since (room_of plan self.now.rows.now) division
            number }
    {
        match self.rows.incidents.get(&(division, number)) {
            Some(incident) => self.is_over(incident),
            None => false,
        }
    }

    /// Whether an incident is over: it is not active, was opened before the moment, and has no call
    /// that keeps it.
    pub fn is_over(&self, incident: &Incident) -> bool
        ensures { (plan : List Area) → result
            ≡ is_over self.now.since (room_of plan self.now.rows.now) incident.now }
    {
        let is_called = self.called.has(incident);
        is_done_before(incident, self.since) && !is_called
    }

    /// Whether a report is over: it is settled, and not the last of its vehicle.
    pub fn is_report_over(&self, report: &Report) -> bool
        ensures { (plan : List Area) → result
            ≡ is_report_over self.now.since (room_of plan self.now.rows.now) report.now }
    {
        let is_last = is_last(report, &self.rows.vehicles);
        is_settled(report, self.since) && !is_last
    }
}

// Whether an incident is not active, and was opened before a moment.
fn is_done_before(incident: &Incident, since: Moment) -> bool
    ensures { let i = incident.now in
        result ≡ (not (is_active i.state) && nat_lt i.opened since) }
{
    !incident.state.is_active() && incident.opened < since
}

// Whether a report needs nobody's attention, and was sent before a moment.
fn is_settled(report: &Report, since: Moment) -> bool
    ensures { result ≡ is_settled since report.now }
{
    report.at < since && (report.cleared || is_normal(report.outcome))
}

fn is_normal(outcome: Outcome) -> bool
    ensures { result ≡ is_normal outcome }
{
    matches!(outcome, Outcome::Normal)
}
