//! The queue of a division: what needs an eye, by rank.
ghost use Rattle.std.specs.Prelude.{◌≡◌, ◌++◌, List, [], IfErr, IfOk, OnOk};
ghost use Rattle.std.specs.List.{cons_option};
ghost use Rattle.room_place.specs.declared.plans.Area.{Area};
ghost use Rattle.room_types.specs.declared.answers.Answer.TheVariants.{Queue};
ghost use Rattle.room_types.specs.declared.answers.QueueEntry.{QueueEntry};
ghost use Rattle.room_types.specs.declared.refusal_statuses.Refusal.TheVariants.{Memory};
ghost use Rattle.room_model.specs.Decisions.{Decides};
ghost use Rattle.room_model.specs.Queue.{IsQueueOf, entries, show_queue};
ghost use Rattle.room_model.specs.RoomSlices.{room_of};
ghost use Rattle.room_queue.specs.QueueEntries.{with_held, with_sent};
ghost use Rattle.room_queue.specs.ServedIncidents.{AreServed};

use crate::queue_entries;
use crate::served_incidents::{Served, gather};
use room_types::answers::{Answer, Listed, QueueEntry};
use room_types::decisions::Decision;
use room_types::numbers::Moment;
use room_types::refusal_statuses::Refusal;
use room_types::rows::Rows;
use room_types::slices::Slice;
use std::alloc::{AllocError, Global};

/// Shows what needs an eye in the division: all of it, by rank, since, number and callsign, each
/// once. The one refusal is `Memory`.
#[tactic(auto, unfolding(room_model::specs::Queue::show_queue))]
pub fn queue(alloc: Global, slice: &Slice, at: Moment) -> Result<Decision, Refusal>
    ensures decides { (plan : List Area) → Decides
        (show_queue slice.now.division at (room_of plan slice.now.rows)) result }
    // Strictly in order, and exactly the entries that hold.
    ensures entries { IfOk result (λ x. (plan : List Area) (queue : List QueueEntry)
        → x.answer ≡ Queue queue
        → IsQueueOf (entries slice.now.division at (room_of plan slice.now.rows)) queue) }
{
    let queue = ordered_entries(alloc, slice, at)?;
    Ok(Decision::show(Answer::Queue(queue)))
}

fn ordered_entries(alloc: Global, slice: &Slice, at: Moment) -> Result<Listed<QueueEntry>, Refusal>
    ensures entries { IfOk result (λ queue. (plan : List Area)
        → IsQueueOf (entries slice.now.division at (room_of plan slice.now.rows)) queue) }
    ensures memory { IfErr result (λ refusal. refusal ≡ Memory) }
{
    let served = gather(alloc, &slice.rows.turns, slice.division)?;
    let mut entries = seen(alloc, slice, &served, at)?;
    sort(&mut entries);
    listed(alloc, &entries)
}

// The entries rank by rank, in one walk each.
fn seen(
    alloc: Global,
    slice: &Slice,
    served: &Rows<Served>,
    at: Moment,
) -> Result<Vec<QueueEntry>, AllocError>
    requires { AreServed slice.now.division slice.now.rows.turns served.now }
    ensures { IfOk result (λ seen. (plan : List Area)
        → seen.items ≡ entries slice.now.division at (room_of plan slice.now.rows)) }
{
    // In key order, so that a vehicle's open turn is that of its last order.
    let _turns = slice.rows.turns.as_slice();
    let _vehicles = slice.rows.vehicles.as_slice();
    let _points = slice.rows.points.as_slice();
    let mut seen = Vec::new(alloc);
    push_sent(&mut seen, slice, served, at)?;
    push_held(&mut seen, slice, at)?;
    Ok(seen)
}

// Ranks 1 to 4: of incidents, of the orders for them, and of reports.
fn push_sent(
    seen: &mut Vec<QueueEntry>,
    slice: &Slice,
    served: &Rows<Served>,
    at: Moment,
) -> Result<(), AllocError>
    ensures { OnOk result
        (seen.new.items ≡ with_sent slice.now.division at served.now slice.now.rows
        seen.old.items) }
{
    let vehicles = slice.rows.vehicles.as_slice();
    for incident in slice.rows.incidents.as_slice() {
        push_entry(seen, queue_entries::unserved(slice, served, incident, at))?;
    }
    for vehicle in vehicles {
        push_entry(seen, queue_entries::unacknowledged(slice, vehicle, at))?;
    }
    for vehicle in vehicles {
        push_entry(seen, queue_entries::late_for_scene(slice, vehicle, at))?;
    }
    for report in slice.rows.reports.as_slice() {
        push_entry(seen, queue_entries::exception(slice, report))?;
    }
    Ok(())
}

// Ranks 5 to 8: of loans, shifts, points and offers.
fn push_held(seen: &mut Vec<QueueEntry>, slice: &Slice, at: Moment) -> Result<(), AllocError>
    ensures { OnOk result
        (seen.new.items ≡ with_held slice.now.division at slice.now.rows seen.old.items) }
{
    for loan in slice.rows.loans.as_slice() {
        push_entry(seen, queue_entries::overdue(slice, loan, at))?;
    }
    for vehicle in slice.rows.vehicles.as_slice() {
        push_entry(seen, queue_entries::shift_over(slice, vehicle, at))?;
    }
    for point in slice.rows.points.as_slice() {
        push_entry(seen, queue_entries::uncovered(slice, point, at))?;
    }
    for offer in slice.rows.offers.as_slice() {
        push_entry(seen, queue_entries::unanswered(slice, offer, at))?;
    }
    Ok(())
}

// Puts an entry at the end, where there is one.
fn push_entry<E: Copy>(seen: &mut Vec<E>, entry: Option<E>) -> Result<(), AllocError>
    ensures { OnOk result (seen.new.items ≡ seen.old.items ++ cons_option entry []) }
{
    if let Some(entry) = entry {
        seen.push(entry)?;
    }
    Ok(())
}

// Puts the entries in order, those alike once.
fn sort(entries: &mut Vec<QueueEntry>)
    ensures { IsQueueOf entries.old.items entries.new.items }
{
    entries.sort_unstable();
    entries.dedup();
}

fn listed(alloc: Global, entries: &[QueueEntry]) -> Result<Listed<QueueEntry>, Refusal>
    ensures ok { IfOk result (λ listed. listed ≡ entries.now) }
    ensures memory { IfErr result (λ refusal. refusal ≡ Memory) }
{
    let mut listed = Listed::new(alloc);
    for entry in entries {
        listed.push(*entry)?;
    }
    Ok(listed)
}
