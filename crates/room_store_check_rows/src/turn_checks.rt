//! Whether a turn and a report agree with their vehicle, and a turn with the vehicle's assignment
//! and its incident.
ghost use Rattle.std.specs.Prelude.{◌≡◌, option_copied};
ghost use Rattle.room_store_check_rows.specs.FirstFaults.{open_fault, order_fault, report_fault};
ghost use Rattle.room_store_check_rows.specs.FirstFaults.{turn_fault};
ghost use Rattle.room_store_check_rows.specs.RowTests.{is_as_assigned, is_numbered, is_over};

use crate::disagreements::{Disagreement, ReportFault, TurnFault};
use crate::first_disagreement::{Judged, unless};
use crate::room_checks::RoomRows;
use room_place::plans::Plan;
use room_types::tables::{Assignment, Report, Turn, Vehicle};

impl Judged for Turn {
    ghost use Rattle.room_store_check_rows.specs.FirstFaults.{turn_disagreement};

    ghost disagreement = { turn_disagreement };

    fn disagreement(&self, plan: &Plan, rows: &RoomRows) -> Option<Disagreement> {
        match turn_fault(plan, rows, self) {
            Some(fault) => Some(Disagreement::Turn(self.callsign, self.order, fault)),
            None => None,
        }
    }
}

fn turn_fault(plan: &Plan, rows: &RoomRows, turn: &Turn) -> Option<TurnFault>
    ensures { result ≡ turn_fault plan.now.areas rows.now turn.now }
{
    let assignment = rows.assignments.get(&turn.callsign);
    unless(plan.has(turn.division), TurnFault::Division)
        .or(order_fault(turn, rows.vehicles.get(&turn.callsign)))
        .or(unless(is_as_assigned(turn, assignment), TurnFault::Incident))
        .or(unless(is_over(rows, turn), TurnFault::NotActive))
}

fn order_fault(turn: &Turn, vehicle: Option<&Vehicle>) -> Option<TurnFault>
    ensures { result ≡ order_fault turn.now (option_copied vehicle.entry) }
{
    match vehicle {
        Some(vehicle) => {
            let given = turn.order.get() <= vehicle.last_order.get();
            unless(given, TurnFault::Order).or(open_fault(vehicle, turn))
        }
        None => Some(TurnFault::Order),
    }
}

fn open_fault(vehicle: &Vehicle, turn: &Turn) -> Option<TurnFault>
    ensures { result ≡ open_fault vehicle.now turn.now turn.now.ended }
{
    let is_last = turn.order.get() == vehicle.last_order.get();
    let busy = vehicle.status.is_busy();
    match turn.ended {
        None => unless(
            is_last && turn.division == vehicle.holder && busy,
            TurnFault::Open,
        ),
        Some(_) => unless(!is_last || !busy, TurnFault::Ended),
    }
}

fn is_as_assigned(turn: &Turn, assignment: Option<&Assignment>) -> bool
    ensures { result ≡ is_as_assigned turn.now (option_copied assignment.entry) }
{
    match assignment {
        Some(assignment) => {
            turn.order != assignment.order || turn.incident == assignment.incident
        }
        None => true,
    }
}

fn is_over(rows: &RoomRows, turn: &Turn) -> bool
    ensures { result ≡ is_over rows.now turn.now }
{
    if turn.ended.is_some() {
        return true;
    }
    let incident = rows.incidents.get(&(turn.division, turn.incident));
    incident.is_some_and(|incident| incident.state.is_active())
}

impl Judged for Report {
    ghost use Rattle.room_store_check_rows.specs.FirstFaults.{report_disagreement};

    ghost disagreement = { report_disagreement };

    fn disagreement(&self, plan: &Plan, rows: &RoomRows) -> Option<Disagreement> {
        match report_fault(plan, rows, self) {
            Some(fault) => Some(Disagreement::Report(self.callsign, self.number, fault)),
            None => None,
        }
    }
}

fn report_fault(plan: &Plan, rows: &RoomRows, report: &Report) -> Option<ReportFault>
    ensures { result ≡ report_fault plan.now.areas rows.now report.now }
{
    let numbered = is_numbered(report, rows.vehicles.get(&report.callsign));
    unless(plan.has(report.division), ReportFault::Division).or(unless(
        numbered,
        ReportFault::Number,
    ))
}

fn is_numbered(report: &Report, vehicle: Option<&Vehicle>) -> bool
    ensures { result ≡ is_numbered report.now (option_copied vehicle.entry) }
{
    match vehicle {
        Some(vehicle) => report.number.get() <= vehicle.last_report.get(),
        None => false,
    }
}
