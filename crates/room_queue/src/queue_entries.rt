//! What makes an entry of the queue, a function a rank. Each asks for itself whether the division
//! owns the row, though a slice has no others, so that its contract holds of any row.
ghost use Rattle.std.specs.Prelude.{◌≡◌, ◌==◌, option_copied, if◌then◌else◌};
ghost use Rattle.room_model.specs.Moments.{age, scene_limit};
ghost use Rattle.room_model.specs.Queue.{exception, overdue, shift_over, late_turn, unanswered};
ghost use Rattle.room_model.specs.Queue.{unacknowledged_turn};
ghost use Rattle.room_model.specs.RoomSlices.{unplanned};
ghost use Rattle.room_queue.specs.QueueEntries.{turn_ahead, uncovered_seen, unserved_seen};

use crate::served_incidents::Served;
use room_alloc::cover::cover;
use room_place::plans::DivisionNumber;
use room_types::answers::QueueEntry;
use room_types::numbers::{Class, Moment};
use room_types::ranks::Rank;
use room_types::rows::{Row, Rows};
use room_types::slices::Slice;
use room_types::tables::{Incident, Loan, Offer, Point, Report, Turn, Vehicle};

/// 1: an active incident that nobody serves.
pub fn unserved(
    slice: &Slice,
    served: &Rows<Served>,
    incident: &Incident,
    at: Moment,
) -> Option<QueueEntry>
    ensures { result ≡ unserved_seen slice.now.division at served.now incident.now }
{
    let needs_eye = incident.owned_by(slice.division)
        && incident.state.is_active()
        && Rank::Unserved.is_past(age(at, incident.opened))
        && served.get(&incident.number).is_none();
    needs_eye.then_some(QueueEntry {
        rank: Rank::Unserved,
        since: incident.opened,
        number: incident.number.get(),
        callsign: None,
    })
}

/// 2: a mobilised vehicle whose crew has not acknowledged its order.
pub fn unacknowledged(slice: &Slice, vehicle: &Vehicle, at: Moment) -> Option<QueueEntry>
    ensures { result ≡ unacknowledged_turn at vehicle.now
        (turn_ahead slice.now.division slice.now.rows vehicle.now) }
{
    let turn = turn_ahead(slice, vehicle)?;
    let needs_eye = turn.acknowledged.is_none()
        && Rank::Unacknowledged.is_past(age(at, turn.ordered));
    needs_eye.then_some(QueueEntry {
        rank: Rank::Unacknowledged,
        since: turn.ordered,
        number: turn.incident.get(),
        callsign: Some(vehicle.callsign),
    })
}

/// 3: a vehicle that is on its way for longer than the incident's class allows. It is the class of
/// now, and the age of the incident, whenever the vehicle was sent.
#[tactic(auto, unfolding(room_model::specs::Queries::incident_of))]
pub fn late_for_scene(slice: &Slice, vehicle: &Vehicle, at: Moment) -> Option<QueueEntry>
    ensures { result ≡ late_turn slice.now.division at (unplanned slice.now.rows) vehicle.now
        (turn_ahead slice.now.division slice.now.rows vehicle.now) }
{
    let turn = turn_ahead(slice, vehicle)?;
    let incident = slice.rows.incidents.get(&(slice.division, turn.incident))?;
    let needs_eye = age(at, incident.opened) > scene_limit(incident.class);
    needs_eye.then_some(QueueEntry {
        rank: Rank::LateForScene,
        since: incident.opened,
        number: incident.number.get(),
        callsign: Some(vehicle.callsign),
    })
}

fn turn_ahead<'a>(slice: &'a Slice, vehicle: &Vehicle) -> Option<&'a Turn>
    ensures { option_copied result ≡ turn_ahead slice.now.division slice.now.rows vehicle.now }
{
    if vehicle.owned_by(slice.division) && vehicle.status.is_mobilised() {
        slice.rows.open_turn(vehicle)
    } else {
        None
    }
}

/// 4: a report out of turn that nobody has seen to.
pub fn exception(slice: &Slice, report: &Report) -> Option<QueueEntry>
    ensures { result ≡ exception slice.now.division report.now }
{
    let needs_eye = report.owned_by(slice.division) && report.is_exception();
    needs_eye.then_some(QueueEntry {
        rank: Rank::OutOfTurn,
        since: report.at,
        number: report.number.get(),
        callsign: Some(report.callsign),
    })
}

/// 5: a loan that is over, for its lender and its borrower.
pub fn overdue(slice: &Slice, loan: &Loan, at: Moment) -> Option<QueueEntry>
    ensures { result ≡ overdue slice.now.division at loan.now }
{
    let needs_eye = loan.owned_by(slice.division) && loan.until < at;
    let other = other_party(loan.lender, loan.borrower, slice.division);
    needs_eye.then_some(QueueEntry {
        rank: Rank::Overdue,
        since: loan.until,
        number: other.get(),
        callsign: Some(loan.callsign),
    })
}

/// 6: a vehicle that is on duty though its shift is over.
pub fn shift_over(slice: &Slice, vehicle: &Vehicle, at: Moment) -> Option<QueueEntry>
    ensures { result ≡ shift_over slice.now.division at vehicle.now }
{
    let needs_eye = vehicle.owned_by(slice.division)
        && !vehicle.status.is_off()
        && vehicle.shift_end <= at;
    needs_eye.then_some(QueueEntry {
        rank: Rank::ShiftOver,
        since: vehicle.shift_end,
        number: 0,
        callsign: Some(vehicle.callsign),
    })
}

/// 7: a standby point that fewer vehicles hold than it needs.
pub fn uncovered(slice: &Slice, point: &Point, at: Moment) -> Option<QueueEntry>
    ensures { result ≡ uncovered_seen slice.now.division at slice.now.rows point.now }
{
    let held = cover(slice, point.number, at)?;
    let needs_eye = point.owned_by(slice.division) && held < point.cover.get() as usize;
    needs_eye.then_some(QueueEntry {
        rank: Rank::Uncovered,
        since: Moment::of(0),
        number: point.number.get(),
        callsign: None,
    })
}

/// 8: an offer that nobody answers, for its lender and its borrower.
pub fn unanswered(slice: &Slice, offer: &Offer, at: Moment) -> Option<QueueEntry>
    ensures { result ≡ unanswered slice.now.division at offer.now }
{
    let needs_eye = offer.owned_by(slice.division)
        && Rank::Unanswered.is_past(age(at, offer.since));
    let other = other_party(offer.lender, offer.borrower, slice.division);
    needs_eye.then_some(QueueEntry {
        rank: Rank::Unanswered,
        since: offer.since,
        number: other.get(),
        callsign: Some(offer.callsign),
    })
}

// The division on the other side of a loan or an offer.
fn other_party(
    lender: DivisionNumber,
    borrower: DivisionNumber,
    division: DivisionNumber,
) -> DivisionNumber
    ensures { result ≡ (if lender == division then borrower else lender) }
{
    if lender == division { borrower } else { lender }
}

// How many seconds a moment is past another; 0 before it.
fn age(at: Moment, since: Moment) -> u32
    ensures { result ≡ age at since }
{
    at.get().saturating_sub(since.get())
}

// Within how many seconds a vehicle should be at the scene.
fn scene_limit(class: Class) -> u32
    ensures { result ≡ scene_limit class }
{
    match class.get() {
        1 => 480,
        2 => 840,
        _ => 3600,
    }
}
