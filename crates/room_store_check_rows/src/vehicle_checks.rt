//! Whether a vehicle agrees with the rows beside it: its loan, its offer, its assignment, the turn
//! of its last order, its last report and its post; and whether these are of a vehicle.
ghost use Rattle.std.specs.Prelude.{◌≡◌, option_copied};
ghost use Rattle.room_types.specs.Codes.{is_offered};
ghost use Rattle.room_store_check_rows.specs.FirstFaults.{assignment_fault, loan_fault};
ghost use Rattle.room_store_check_rows.specs.FirstFaults.{offer_fault, vehicle_fault};
ghost use Rattle.room_store_check_rows.specs.RowTests.{has_last_report, has_open_turn, has_post};
ghost use Rattle.room_store_check_rows.specs.RowTests.{has_vehicle, is_open};

use crate::disagreements::{Disagreement, VehicleFault};
use crate::first_disagreement::{Judged, unless};
use crate::room_checks::RoomRows;
use room_place::plans::Plan;
use room_types::callsign::Callsign;
use room_types::codes::Status;
use room_types::numbers::Number;
use room_types::tables::{Assignment, Loan, Offer, Turn, Vehicle};

impl Judged for Loan {
    ghost use Rattle.room_store_check_rows.specs.FirstFaults.{loan_disagreement};

    ghost disagreement = { λ plan s x. loan_disagreement s x };

    fn disagreement(&self, _: &Plan, rows: &RoomRows) -> Option<Disagreement> {
        unless(
            has_vehicle(rows, &self.callsign),
            Disagreement::Loan(self.callsign),
        )
    }
}

impl Judged for Offer {
    ghost use Rattle.room_store_check_rows.specs.FirstFaults.{offer_disagreement};

    ghost disagreement = { λ plan s x. offer_disagreement s x };

    fn disagreement(&self, _: &Plan, rows: &RoomRows) -> Option<Disagreement> {
        unless(
            has_vehicle(rows, &self.callsign),
            Disagreement::Offer(self.callsign),
        )
    }
}

impl Judged for Assignment {
    ghost use Rattle.room_store_check_rows.specs.FirstFaults.{assignment_disagreement};

    ghost disagreement = { λ plan s x. assignment_disagreement s x };

    fn disagreement(&self, _: &Plan, rows: &RoomRows) -> Option<Disagreement> {
        unless(
            has_vehicle(rows, &self.callsign),
            Disagreement::Assignment(self.callsign),
        )
    }
}

pub(crate) fn has_vehicle(rows: &RoomRows, callsign: &Callsign) -> bool
    ensures { result ≡ has_vehicle rows.now callsign.now }
{
    rows.vehicles.get(callsign).is_some()
}

impl Judged for Vehicle {
    ghost use Rattle.room_store_check_rows.specs.FirstFaults.{vehicle_disagreement};

    ghost disagreement = { vehicle_disagreement };

    fn disagreement(&self, plan: &Plan, rows: &RoomRows) -> Option<Disagreement> {
        match vehicle_fault(plan, rows, self) {
            Some(fault) => Some(Disagreement::Vehicle(self.callsign, self.status, fault)),
            None => None,
        }
    }
}

fn vehicle_fault(plan: &Plan, rows: &RoomRows, vehicle: &Vehicle) -> Option<VehicleFault>
    ensures { result ≡ vehicle_fault plan.now.areas rows.now vehicle.now }
{
    let callsign = &vehicle.callsign;
    unless(plan.has(vehicle.home), VehicleFault::Home)
        .or(unless(plan.has(vehicle.holder), VehicleFault::Holder))
        .or(loan_fault(vehicle, rows.loans.get(callsign)))
        .or(offer_fault(plan, vehicle, rows.offers.get(callsign)))
        .or(assignment_fault(vehicle, rows.assignments.get(callsign)))
        .or(unless(has_open_turn(rows, vehicle), VehicleFault::NoTurn))
        .or(unless(has_last_report(rows, vehicle), VehicleFault::NoReport))
        .or(unless(has_post(rows, vehicle), VehicleFault::Post))
}

fn loan_fault(vehicle: &Vehicle, loan: Option<&Loan>) -> Option<VehicleFault>
    ensures { result ≡ loan_fault vehicle.now (option_copied loan.entry) }
{
    let at_home = vehicle.holder == vehicle.home;
    match loan {
        None => unless(at_home, VehicleFault::NoLoan),
        Some(loan) => unless(
            loan.lender == vehicle.home && loan.borrower == vehicle.holder && !at_home,
            VehicleFault::Loan,
        ),
    }
}

fn offer_fault(plan: &Plan, vehicle: &Vehicle, offer: Option<&Offer>) -> Option<VehicleFault>
    ensures { result ≡ offer_fault plan.now.areas vehicle.now (option_copied offer.entry) }
{
    let offered = is_offered(vehicle.status);
    match offer {
        None => unless(!offered, VehicleFault::NoOffer),
        Some(offer) => unless(
            offered
                && offer.lender == vehicle.holder
                && offer.lender == vehicle.home
                && offer.borrower != offer.lender
                && plan.has(offer.borrower),
            VehicleFault::Offer,
        ),
    }
}

fn is_offered(status: Status) -> bool
    ensures { result ≡ is_offered status }
{
    matches!(status, Status::Offered)
}

fn assignment_fault(vehicle: &Vehicle, assignment: Option<&Assignment>) -> Option<VehicleFault>
    ensures { result ≡ assignment_fault vehicle.now (option_copied assignment.entry) }
{
    let busy = vehicle.status.is_busy();
    match assignment {
        None => unless(!busy, VehicleFault::NoAssignment),
        Some(assignment) => unless(
            busy && assignment.division == vehicle.holder
                && assignment.order.get() == vehicle.last_order.get(),
            VehicleFault::Assignment,
        ),
    }
}

fn has_open_turn(rows: &RoomRows, vehicle: &Vehicle) -> bool
    ensures { result ≡ has_open_turn rows.now vehicle.now }
{
    if !vehicle.status.is_busy() {
        return true;
    }
    match Number::new(vehicle.last_order.get()) {
        Some(order) => is_open(rows.turns.get(&(vehicle.callsign, order))),
        None => false,
    }
}

fn is_open(turn: Option<&Turn>) -> bool
    ensures { result ≡ is_open (option_copied turn.entry) }
{
    match turn {
        Some(turn) => turn.ended.is_none(),
        None => false,
    }
}

fn has_last_report(rows: &RoomRows, vehicle: &Vehicle) -> bool
    ensures { result ≡ has_last_report rows.now vehicle.now }
{
    match Number::new(vehicle.last_report.get()) {
        Some(number) => rows.reports.get(&(vehicle.callsign, number)).is_some(),
        None => true,
    }
}

fn has_post(rows: &RoomRows, vehicle: &Vehicle) -> bool
    ensures { result ≡ has_post rows.now vehicle.now vehicle.now.post }
{
    match vehicle.post {
        Some(point) => {
            vehicle.status.is_free() && rows.points.get(&(vehicle.holder, point)).is_some()
        }
        None => true,
    }
}
