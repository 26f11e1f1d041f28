//! What a desk asks, decided on its division's rows.
ghost use Rattle.std.specs.Prelude.{◌≡◌};
ghost use Rattle.room_model.specs.Room.{IsInOrder, Room};
ghost use Rattle.room_model.specs.Shares.{own};
ghost use Rattle.room_model.specs.RoomSlices.{room_of};
ghost use Rattle.room_model.specs.Step.{DecidesAsked, single_asks};
ghost use Rattle.room_model.specs.RoomAgreements.{IsWellFormed};
ghost use Rattle.room_core.specs.DecisionRows.{AreRead};

use room_alloc::desk_views::{loans, offers, points, vehicles};
use room_alloc::held_shifts::{off_duty, on_duty};
use room_alloc::lending::{LoanTerms, accept, decline, give_back, lend, recall, withdraw};
use room_alloc::orders::{mobilise, stand_down};
use room_alloc::posts::{post, set_point};
use room_alloc::proposals::propose;
use room_incident::class_times::day_class_times;
use room_incident::closed_incidents::closed;
use room_incident::incident_closing::close;
use room_incident::incident_history::incident;
use room_incident::incident_list::{day_times, incidents};
use room_incident::incident_merges::merge;
use room_incident::incident_needs::change_needs;
use room_place::plans::Plan;
use room_queue::queues::queue;
use room_queue::report_clearing::clear;
use room_queue::vehicle_reports::reports;
use room_types::asks::Ask;
use room_types::decisions::Decision;
use room_types::numbers::Moment;
use room_types::refusal_statuses::Refusal;
use room_types::slices::Slice;
use std::alloc::Global;

/// What a division's desk asks in one step. In every well-formed room of this plan the decision is
/// the room's, where the slice's rows are those that the request reads, and where they are the
/// division's whole share. A request that is for no desk is refused as `WrongRole`, and so are
/// moves, of which `decide_move` decides each. Only a list and a merge may lack memory.
pub fn decide_desk(
    alloc: Global,
    plan: &Plan,
    slice: &Slice,
    ask: &Ask,
    at: Moment,
) -> Result<Decision, Refusal>
    ensures decides { (r : Room) → IsWellFormed r → r.plan ≡ plan.now.areas
        → AreRead slice.now.division ask.now at (room_of r.plan slice.now.rows) r
        → DecidesAsked ask.now (single_asks slice.now.division ask.now at r) result }
    // In every other room where the division has the same rows, it is that room's too.
    ensures apart { (r other : Room) → IsWellFormed r → r.plan ≡ plan.now.areas
        → AreRead slice.now.division ask.now at (room_of r.plan slice.now.rows) r
        → IsInOrder other → own slice.now.division r ≡ own slice.now.division other
        → DecidesAsked ask.now (single_asks slice.now.division ask.now at other) result }
{
    decide(alloc, plan, slice, ask, at)
}

fn decide(
    alloc: Global,
    plan: &Plan,
    slice: &Slice,
    ask: &Ask,
    at: Moment,
) -> Result<Decision, Refusal>
    ensures { DecidesAsked ask.now (single_asks slice.now.division ask.now at
        (room_of plan.now.areas slice.now.rows)) result }
{
    match ask {
        Ask::Incidents => incidents(alloc, slice),
        Ask::Incident(number) => incident(alloc, slice, *number),
        Ask::Propose(number) => propose(alloc, slice, *number, at),
        Ask::Mobilise(number, callsign) => mobilise(slice, *number, callsign, at),
        Ask::Needs(number, needs) => change_needs(slice, *number, *needs),
        Ask::Merge(from, into) => merge(alloc, slice, *from, *into),
        Ask::Close(number) => close(slice, *number),
        Ask::Vehicles => vehicles(alloc, slice),
        Ask::StandDown(callsign) => stand_down(slice, callsign, at),
        Ask::Standby(callsign, point) => post(slice, callsign, *point, at),
        Ask::Duty(callsign, place, until) => on_duty(slice, callsign, place, *until, at),
        Ask::Off(callsign) => off_duty(slice, callsign),
        Ask::Lend(callsign, to, until) => {
            let terms = LoanTerms {
                borrower: *to,
                until: *until,
            };
            lend(plan, slice, callsign, terms, at)
        }
        Ask::Withdraw(callsign) => withdraw(slice, callsign),
        Ask::Decline(callsign) => decline(slice, callsign),
        Ask::Accept(callsign) => accept(slice, callsign, at),
        Ask::Recall(callsign) => recall(slice, callsign),
        Ask::GiveBack(callsign) => give_back(slice, callsign),
        Ask::Reports(callsign) => reports(alloc, slice, callsign),
        Ask::Queue => queue(alloc, slice, at),
        Ask::Clear(callsign, number) => clear(slice, callsign, *number),
        Ask::Points => points(alloc, slice, at),
        Ask::SetPoint(number, place, cover) => Ok(set_point(slice, *number, place, *cover)),
        Ask::Loans => loans(alloc, slice),
        Ask::Offers => offers(alloc, slice),
        Ask::Times(from, to) => day_times(alloc, slice, *from, *to),
        Ask::ClassTimes(from, to) => Ok(day_class_times(slice, *from, *to)),
        Ask::Closed(from, to, search) => closed(alloc, slice, *from, *to, search),
        Ask::Call(_) | Ask::Moves(_) | Ask::Order | Ask::Job | Ask::Report(_) | Ask::Last => {
            Err(Refusal::WrongRole)
        }
    }
}
