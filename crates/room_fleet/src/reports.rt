//! What a crew's report does to its vehicle's rows.
ghost use Rattle.std.specs.Option.{option_to_list};
ghost use Rattle.std.specs.Prelude.{◌≡◌, ◌++◌, ◌∷◌, ◌&&◌, ◌+◌, ◌<◌, ◌≤◌, ℕ, [], None, Ok, Some};
ghost use Rattle.std.specs.Prelude.{false, is_none, is_some, length, max, option_copied};
ghost use Rattle.std.specs.Prelude.{option_map, true};
ghost use Rattle.room_types.specs.Codes.{acts};
ghost use Rattle.room_types.specs.declared.answers.Answer.TheVariants as answer;
ghost use Rattle.room_types.specs.declared.asks.Press.{Press};
ghost use Rattle.room_types.specs.declared.changes.Change.TheVariants.{PutReport, PutTurn};
ghost use Rattle.room_types.specs.declared.changes.Change.TheVariants.{PutVehicle};
ghost use Rattle.room_types.specs.declared.crews.CrewRows.{CrewRows};
ghost use Rattle.room_model.specs.Moments.{first_of};
ghost use Rattle.room_model.specs.Queries.{kept_report};
ghost use Rattle.room_model.specs.Reports.{back_changes, drop_changes, ends_turn, is_due};
ghost use Rattle.room_model.specs.Reports.{outcome_of, report_held, report_in, report_row};
ghost use Rattle.room_model.specs.Reports.{take_report, turn_after, with_report};
ghost use Rattle.room_model.specs.Room.{Room};
ghost use Rattle.room_model.specs.RoomSlices.{AreCrewRows};
ghost use Rattle.room_model.specs.RoomAgreements.{IsWellFormed};
ghost use Rattle.room_fleet.specs.ReportedRows.{AreHolders, IsOnlyKept, TurnKeepsMoments, acted};
ghost use Rattle.room_fleet.specs.ReportedRows.{only_kept, reported};

use crate::buttons::{acts, ends_turn, is_home, names_order, press as outcome_at, status_after};
use room_types::answers::Answer;
use room_types::asks::Press;
use room_types::changes::{Change, Changes, FewChanges};
use room_types::codes::{Button, Outcome, Status};
use room_types::crews::{CrewRows, CrewSlice};
use room_types::decisions::Decision;
use room_types::numbers::{LastNumber, Moment};
use room_types::tables::{Loan, Report, Turn, Vehicle};

/// A report whose number the room has not kept (the caller sees to that): its row and those that it
/// changes are put, and its crew is answered what it came to. Nothing is refused.
pub fn take_report(slice: &CrewSlice, press: &Press, at: Moment) -> Decision
    // In any room where the holder has these rows.
    ensures holder { (r : Room) → AreHolders r slice.now.rows
        → report_in slice.now.rows.vehicle.holder slice.now.rows.vehicle.callsign press.now at r
        ≡ Ok result }
    // In a well-formed room that has these rows of the vehicle, and not the report's number.
    ensures crew { (r : Room) → IsWellFormed r
        → AreCrewRows slice.now.rows.vehicle.callsign r slice.now.rows
        → kept_report slice.now.rows.vehicle.callsign press.now.number r ≡ None
        → take_report slice.now.rows.vehicle.callsign press.now at r ≡ Ok result }
{
    let after = report(slice, press, at);
    put(&slice.rows, &after)
}

// From the rows before a report to those after it.
fn put(before: &CrewRows, after: &Reported) -> Decision
    // Whatever the report was.
    ensures { (press : Press) (at : ℕ) → after.now ≡ reported before.now press at
        → report_held (Some before.now.vehicle) before.now.turn before.now.loan press at
        ≡ Ok result }
{
    if acts(after.report.outcome) {
        put_acted(before, after)
    } else {
        put_kept(after)
    }
}

fn put_kept(after: &Reported) -> Decision
    ensures { (before : CrewRows) (press : Press) (at : ℕ)
        → acts after.now.report.outcome ≡ false → after.now ≡ reported before press at
        → report_held (Some before.vehicle) before.turn before.loan press at ≡ Ok result }
{
    let kept = Change::PutReport(after.report);
    let vehicle = Change::PutVehicle(after.vehicle);
    Decision::with_changes(answer_of(&after.report), [kept, vehicle])
}

fn put_acted(before: &CrewRows, after: &Reported) -> Decision
    ensures { (press : Press) (at : ℕ)
        → acts after.now.report.outcome ≡ true → after.now ≡ reported before.now press at
        → report_held (Some before.now.vehicle) before.now.turn before.now.loan press at
        ≡ Ok result }
{
    Decision {
        changes: Changes::few(changes_acted(before, after)),
        answer: answer_of(&after.report),
    }
}

// The vehicle's row comes last.
fn changes_acted(before: &CrewRows, after: &Reported) -> FewChanges
    ensures { result ≡ PutReport after.now.report
        ∷ option_to_list (option_map PutTurn after.now.turn)
        ++ (drop_changes after.now.vehicle.callsign (ends_turn after.now.report.button)
        ++ (back_changes after.now.vehicle.callsign
        (is_some before.now.loan && is_none after.now.loan)
        ++ PutVehicle after.now.vehicle ∷ [])) }
{
    let vehicle = &after.vehicle;
    let goes_back = before.loan.is_some() && after.loan.is_none();
    let mut changes = FewChanges::of([Change::PutReport(after.report)]);
    put_turn(&mut changes, after.turn.as_ref());
    drop_assignment(&mut changes, vehicle, ends_turn(after.report.button));
    drop_loan(&mut changes, vehicle, goes_back);
    changes.add(&[Change::PutVehicle(*vehicle)]);
    changes
}

fn put_turn(changes: &mut FewChanges, turn: Option<&Turn>)
    requires { length changes.old < 5 }
    ensures items { changes.new
        ≡ changes.old ++ option_to_list (option_map PutTurn (option_copied turn.entry)) }
    ensures few { length changes.new ≤ length changes.old + 1 }
{
    if let Some(turn) = turn {
        changes.add(&[Change::PutTurn(*turn)]);
    }
}

fn drop_assignment(changes: &mut FewChanges, vehicle: &Vehicle, ends: bool)
    requires { length changes.old < 5 }
    ensures items { changes.new ≡ changes.old ++ drop_changes vehicle.now.callsign ends }
    ensures few { length changes.new ≤ length changes.old + 1 }
{
    if ends {
        changes.add(&[Change::DropAssignment(vehicle.callsign)]);
    }
}

fn drop_loan(changes: &mut FewChanges, vehicle: &Vehicle, goes_back: bool)
    requires { length changes.old < 5 }
    ensures items { changes.new
        ≡ changes.old ++ back_changes vehicle.now.callsign goes_back }
    ensures few { length changes.new ≤ length changes.old + 1 }
{
    if goes_back {
        changes.add(&[Change::DropLoan(vehicle.callsign)]);
    }
}

fn answer_of(kept: &Report) -> Answer
    ensures { result ≡ answer.Reported kept.now.number kept.now.outcome kept.now.status }
{
    Answer::Reported(kept.number, kept.outcome, kept.status)
}

/// A vehicle's rows after a report.
#[derive(Clone, Copy)]
pub struct Reported {
    pub vehicle: Vehicle,
    /// The turn that was open, as ended where the report ended it.
    pub turn: Option<Turn>,
    /// None where there was none, and where the vehicle went back to its lender.
    pub loan: Option<Loan>,
    /// What is kept of the report itself, with its outcome and the status in its answer.
    pub report: Report,
}

/// What a report does whose number the vehicle did not send before (the caller sees to that).
///
/// A number below the greatest is late. Else a button from Mobile to Return of another order than
/// the last is stale. Else the outcome is the button's at the vehicle's status. A report that is
/// late, stale or wrong is only kept. Any other sets the place, the status and the turn's moment.
/// Return and Home end the turn, and Home gives a vehicle back to its lender where its loan is
/// recalled or over.
#[tactic(auto, using(crate::proofs::MomentLaws::turn_keeps, crate::proofs::MomentLaws::same_turn_keeps))]
pub fn report(slice: &CrewSlice, press: &Press, at: Moment) -> Reported
    ensures rows { result ≡ reported slice.now.rows press.now at }
    ensures status_stays { IsOnlyKept result
        → result.vehicle.status ≡ slice.now.rows.vehicle.status }
    ensures place_stays { IsOnlyKept result → result.vehicle.place ≡ slice.now.rows.vehicle.place }
    ensures turn_stays { IsOnlyKept result → result.turn ≡ slice.now.rows.turn }
    ensures moments_stay { TurnKeepsMoments slice.now.rows.turn result.turn }
    ensures owner { result.report.division ≡ slice.now.rows.vehicle.holder }
    ensures greatest { result.vehicle.last_report ≡ max slice.now.rows.vehicle.last_report
        press.now.number }
{
    let rows = &slice.rows;
    let outcome = outcome_of(&rows.vehicle, rows.turn.as_ref(), press);
    if acts(outcome) {
        act(rows, press, at, outcome)
    } else {
        keep_only(rows, press, at, outcome)
    }
}

fn act(rows: &CrewRows, press: &Press, at: Moment, outcome: Outcome) -> Reported
    ensures { result ≡ acted rows.now press.now at outcome }
{
    let status = status_after(rows.vehicle.status, press.button);
    let moved = Vehicle {
        status,
        place: press.place,
        ..with_report(&rows.vehicle, press)
    };
    let at_home = is_home(press.button);
    let (vehicle, loan) = match rows.loan {
        Some(loan) if at_home && is_due(&loan, at) => (given_back(moved, &loan), None),
        loan => (moved, loan),
    };
    Reported {
        vehicle,
        turn: rows.turn.map(|turn| turn_after(turn, press.button, at)),
        loan,
        report: report_row(&rows.vehicle, press, at, outcome, status),
    }
}

// Of a report that does not act, its row is kept, and the greatest number.
fn keep_only(rows: &CrewRows, press: &Press, at: Moment, outcome: Outcome) -> Reported
    ensures { result ≡ only_kept rows.now press.now at outcome }
{
    Reported {
        vehicle: with_report(&rows.vehicle, press),
        turn: rows.turn,
        loan: rows.loan,
        report: report_row(&rows.vehicle, press, at, outcome, rows.vehicle.status),
    }
}

fn outcome_of(vehicle: &Vehicle, turn: Option<&Turn>, press: &Press) -> Outcome
    ensures { result ≡ outcome_of vehicle.now (option_copied turn.entry) press.now }
{
    if press.number.get() < vehicle.last_report.get() {
        return Outcome::Late;
    }
    if names_order(press.button) && press.order != vehicle.last_order {
        return Outcome::Stale;
    }
    let acknowledged = turn.is_some_and(|turn| turn.acknowledged.is_some());
    outcome_at(vehicle.status, press.button, acknowledged)
}

// A moment that is set stays.
fn turn_after(turn: Turn, button: Button, at: Moment) -> Turn
    ensures { result ≡ turn_after button at turn }
{
    let mut turn = turn;
    match button {
        Button::Position => {}
        Button::Mobile => turn.acknowledged = first_of(turn.acknowledged, at),
        Button::Scene => turn.scene = first_of(turn.scene, at),
        Button::Leave => turn.left = first_of(turn.left, at),
        Button::Hospital => turn.hospital = first_of(turn.hospital, at),
        Button::Return | Button::Home => turn.ended = Some(at),
    }
    turn
}

fn first_of(moment: Option<Moment>, at: Moment) -> Option<Moment>
    ensures { result ≡ first_of moment at }
{
    moment.or(Some(at))
}

// A loan ends only after its last second.
fn is_due(loan: &Loan, at: Moment) -> bool
    ensures { result ≡ is_due at (Some loan.now) }
{
    loan.recalled || loan.until < at
}

fn given_back(vehicle: Vehicle, loan: &Loan) -> Vehicle
    ensures { result ≡ record vehicle { holder = loan.now.lender; post = None } }
{
    Vehicle {
        holder: loan.lender,
        post: None,
        ..vehicle
    }
}

// Late or not, a report counts for the greatest number.
fn with_report(vehicle: &Vehicle, press: &Press) -> Vehicle
    ensures { result ≡ with_report vehicle.now press.now }
{
    let greatest = vehicle.last_report.get().max(press.number.get());
    Vehicle {
        last_report: LastNumber::of(greatest),
        ..*vehicle
    }
}

fn report_row(
    vehicle: &Vehicle,
    press: &Press,
    at: Moment,
    outcome: Outcome,
    status: Status,
) -> Report
    ensures { result ≡ report_row vehicle.now press.now at outcome status }
{
    Report {
        callsign: vehicle.callsign,
        number: press.number,
        button: press.button,
        order: press.order,
        place: press.place,
        at,
        division: vehicle.holder,
        outcome,
        status,
        cleared: false,
    }
}
