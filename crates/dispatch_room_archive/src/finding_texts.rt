//! What `check` finds wrong with a room's file, in words. No token is shown.
ghost use Rattle.std.specs.Prelude.{◌≡◌, Some};
ghost use Rattle.std.specs.Fmt.{WritesOnOk};
ghost use Rattle.dispatch_room_archive.specs.FindingTexts.{
  call_text,
  disagreement_text,
  incident_text,
  of_division,
  of_none,
  of_vehicle,
  report_text,
  terminal_text,
  turn_text,
  vehicle_text,
  wrong_text,
};

use room_place::plans::DivisionNumber;
use room_store_check_rows::disagreements::{
    CallFault, Disagreement, IncidentFault, ReportFault, TerminalFault, TurnFault, VehicleFault,
};
use room_store_file::examined_file::Wrong;
use room_types::callsign::Callsign;
use room_types::numbers::Number;
use std::fmt;

/// What is wrong with a file, as it is printed.
#[derive(Clone, Copy)]
pub struct WrongText {
    pub wrong: Wrong,
}

impl fmt::Display for WrongText {
    ghost output = { λ shown. Some (wrong_text shown.wrong) };

    fn fmt<W: fmt::Write>(&self, f: &mut fmt::Formatter<W>) -> fmt::Result {
        match self.wrong {
            Wrong::OldRoom => f.write_str("version 1: migrate it"),
            Wrong::Tables => f.write_str("its tables and indexes are not those of a room"),
            Wrong::NoPlan => {
                f.write_str("its areas and its zone make no plan, or two rows have one number")
            }
            Wrong::Rows(disagreement) => {
                let shown = DisagreementText { disagreement };
                write!(f, "{shown}")
            }
            Wrong::Terminals(fault) => {
                let shown = TerminalFaultText { fault };
                write!(f, "{shown}")
            }
            Wrong::Memory => f.write_str("memory was refused"),
            Wrong::Storage => {
                f.write_str("a row is not of its table, or the file can't be read")
            }
        }
    }
}

/// What the rows disagree in.
#[derive(Clone, Copy)]
struct DisagreementText {
    disagreement: Disagreement,
}

impl fmt::Display for DisagreementText {
    ghost output = { λ shown. Some (disagreement_text shown.disagreement) };

    fn fmt<W: fmt::Write>(&self, f: &mut fmt::Formatter<W>) -> fmt::Result {
        match self.disagreement {
            Disagreement::NoDivision(number) => {
                write!(f, "division {number} of the plan has no row")
            }
            Disagreement::Division(number) => {
                let number = number.get();
                write!(f, "division {number} has a row and is not in the plan")
            }
            Disagreement::Point(division, number) => {
                let fault = "is in no division of the plan";
                write_of_division(f, "point", number.get(), division, fault)
            }
            Disagreement::Vehicle(callsign, status, fault) => {
                let (name, number, what) = (
                    callsign.as_str(),
                    status.number(),
                    vehicle_text(fault),
                );
                write!(f, "vehicle {name} is at status {number} and {what}")
            }
            Disagreement::Loan(callsign) => write_of_none(f, "a loan", callsign),
            Disagreement::Offer(callsign) => write_of_none(f, "an offer", callsign),
            Disagreement::Assignment(callsign) => write_of_none(f, "an assignment", callsign),
            Disagreement::Turn(callsign, order, fault) => {
                write_of_vehicle(f, "turn", order, callsign, turn_text(fault))
            }
            Disagreement::Report(callsign, number, fault) => {
                write_of_vehicle(f, "report", number, callsign, report_text(fault))
            }
            Disagreement::Call(position, serial, fault) => {
                let (position, number, what) = (position.get(), serial.get(), call_text(fault));
                write!(f, "call {number} of position {position} is of {what}")
            }
            Disagreement::Incident(division, number, fault) => {
                write_of_division(f, "incident", number.get(), division, incident_text(fault))
            }
        }
    }
}

fn write_of_division<W: fmt::Write>(
    f: &mut fmt::Formatter<W>,
    what: &str,
    number: u32,
    division: DivisionNumber,
    fault: &str,
) -> fmt::Result
    ensures { WritesOnOk W.write_str_gives f.old result
        (of_division what.now number division fault.now) f.new }
{
    let division = division.get();
    write!(f, "{what} {number} of division {division} {fault}")
}

fn write_of_vehicle<W: fmt::Write>(
    f: &mut fmt::Formatter<W>,
    what: &str,
    number: Number,
    callsign: Callsign,
    fault: &str,
) -> fmt::Result
    ensures { WritesOnOk W.write_str_gives f.old result
        (of_vehicle what.now number callsign fault.now) f.new }
{
    let (number, name) = (number.get(), callsign.as_str());
    write!(f, "{what} {number} of vehicle {name} {fault}")
}

fn write_of_none<W: fmt::Write>(
    f: &mut fmt::Formatter<W>,
    what: &str,
    callsign: Callsign,
) -> fmt::Result
    ensures { WritesOnOk W.write_str_gives f.old result
        (of_none what.now callsign) f.new }
{
    write!(f, "{what} is of no vehicle: {}", callsign.as_str())
}

fn vehicle_text(fault: VehicleFault) -> &'static str
    ensures { result.now ≡ vehicle_text fault }
{
    match fault {
        VehicleFault::Home => "is at home in no division of the plan",
        VehicleFault::Holder => "is held by no division of the plan",
        VehicleFault::NoLoan => "is away from home without a loan",
        VehicleFault::Loan => "has a loan that is not from its home to its holder",
        VehicleFault::NoOffer => "has no offer",
        VehicleFault::Offer => {
            "has an offer, which needs status 7, its home as lender, and another division"
        }
        VehicleFault::NoAssignment => "has no assignment",
        VehicleFault::Assignment => {
            "has an assignment, which needs status 2 to 5, its holder and its last order"
        }
        VehicleFault::NoTurn => "has no open turn of its last order",
        VehicleFault::NoReport => "has no report of its last number",
        VehicleFault::Post => { "has a post, which needs status 1 or 6 and a point of its holder" }
    }
}

fn turn_text(fault: TurnFault) -> &'static str
    ensures { result.now ≡ turn_text fault }
{
    match fault {
        TurnFault::Division => "is of no division of the plan",
        TurnFault::Order => "is of an order that no vehicle was given",
        TurnFault::Open => {
            "is open, which needs its vehicle at status 2 to 5 on that order for that division"
        }
        TurnFault::Ended => "is ended, and its vehicle is at status 2 to 5 on that order",
        TurnFault::Incident => "is for another incident than the vehicle's assignment",
        TurnFault::NotActive => "is open and its incident is not active",
    }
}

fn report_text(fault: ReportFault) -> &'static str
    ensures { result.now ≡ report_text fault }
{
    match fault {
        ReportFault::Division => "is of no division of the plan",
        ReportFault::Number => "has a number above the last of its vehicle",
    }
}

fn call_text(fault: CallFault) -> &'static str
    ensures { result.now ≡ call_text fault }
{
    match fault {
        CallFault::NoIncident => "no incident",
        CallFault::Merged => "an incident that is merged",
        CallFault::Early => "an incident that was opened later",
    }
}

fn incident_text(fault: IncidentFault) -> &'static str
    ensures { result.now ≡ incident_text fault }
{
    match fault {
        IncidentFault::Number => "has a number that its division did not give",
        IncidentFault::NoCall => "has no call of the moment at which it was opened",
    }
}

/// What is wrong with the terminals.
#[derive(Clone, Copy)]
struct TerminalFaultText {
    fault: TerminalFault,
}

impl fmt::Display for TerminalFaultText {
    ghost output = { λ shown. Some (terminal_text shown.fault) };

    fn fmt<W: fmt::Write>(&self, f: &mut fmt::Formatter<W>) -> fmt::Result {
        match self.fault {
            TerminalFault::Token => f.write_str("two terminals have one token"),
            TerminalFault::TwoCrews(callsign) => {
                write!(f, "vehicle {} has two crews' terminals", callsign.as_str())
            }
            TerminalFault::NoCrew(callsign) => {
                write!(f, "vehicle {} has no crew's terminal", callsign.as_str())
            }
            TerminalFault::Crew(callsign) => {
                write!(
                    f,
                    "a crew's terminal is of no vehicle: {}",
                    callsign.as_str()
                )
            }
            TerminalFault::Desk(division) => {
                write!(
                    f,
                    "a desk's terminal is of division {}, not in the plan",
                    division.get()
                )
            }
        }
    }
}
