//! The reports that are asked for beside a board: of which vehicles, what is told of them, and to
//! which entry of the queue each belongs.
ghost use Rattle.std.specs.Prelude.{◌≡◌, ◌++◌, List, IfOk, OnOk, map};
ghost use Rattle.std.specs.List.{list_any};
ghost use Rattle.room_types.specs.Keys.{same_callsign};
ghost use Rattle.dispatch_room_board.specs.ToldReports.{AreTold, AreVehiclesHeard, exception_of};
ghost use Rattle.dispatch_room_board.specs.ToldReports.{is_report, report_of, told_by, told_of};
ghost use Rattle.dispatch_room_board.specs.ToldReports.{vehicle_out_of_turn, vehicles_in};
ghost use Rattle.dispatch_room_board.specs.ToldReports.{with_report, with_vehicle};
ghost use Rattle.dispatch_room_board.specs.declared.told_reports.ToldReport.{ToldReport as Told};

use crate::answer_contents::{Found, next_in};
use crate::queue_columns::QueueLine;
use crate::report_lines::{ReportLine, VehicleReports};
use room_types::answers::{Listed, QueueEntry};
use room_types::callsign::Callsign;
use room_types::ranks::Rank;
use std::alloc::{AllocError, Global};

/// Of how many vehicles the reports are asked for at most.
pub const MOST_VEHICLES: usize = 8;

/// A report of a vehicle.
#[derive(Clone, Copy)]
pub struct ToldReport {
    pub callsign: Callsign,
    pub report: ReportLine,
}

/// The vehicles with a report out of turn in the queue that was heard first, each once; none where
/// no queue was heard.
pub fn vehicles_heard(alloc: Global, heard: &[u8]) -> Result<Listed<Callsign>, AllocError>
    ensures { IfOk result (AreVehiclesHeard heard.now) }
{
    let (found, _rest) = next_in::<Listed<QueueLine>>(alloc, heard)?;
    match found {
        Ok((lines, _)) => vehicles_in(alloc, lines.as_slice()),
        Err(_) => Ok(Listed::new(alloc)),
    }
}

/// The vehicles with a report out of turn in these lines, each once, in their order.
pub fn vehicles_in(alloc: Global, lines: &[QueueLine]) -> Result<Listed<Callsign>, AllocError>
    ensures { IfOk result (λ vehicles. vehicles ≡ vehicles_in lines.now) }
{
    let mut vehicles = Listed::new(alloc);
    for line in lines {
        put_vehicle(&mut vehicles, &line.entry)?;
    }
    Ok(vehicles)
}

// Adds the vehicle of an entry that is for a report out of turn, unless it is there, or there are
// enough.
fn put_vehicle(vehicles: &mut Listed<Callsign>, entry: &QueueEntry) -> Result<(), AllocError>
    ensures { OnOk result (vehicles.new ≡
        with_vehicle vehicles.old (vehicle_out_of_turn entry.now)) }
{
    let Some(callsign) = vehicle_out_of_turn(entry) else {
        return Ok(());
    };
    if vehicles.len() >= MOST_VEHICLES || has(vehicles.as_slice(), &callsign) {
        return Ok(());
    }
    vehicles.push(callsign)
}

// The vehicle of an entry, where it is for a report out of turn.
fn vehicle_out_of_turn(entry: &QueueEntry) -> Option<Callsign>
    ensures { result ≡ vehicle_out_of_turn entry.now }
{
    match entry.rank {
        Rank::OutOfTurn => entry.callsign,
        _ => None,
    }
}

fn has(vehicles: &[Callsign], callsign: &Callsign) -> bool
    ensures { result ≡ list_any (same_callsign callsign.now) vehicles.now }
{
    vehicles.iter().any(|vehicle| callsign == vehicle)
}

/// The reports of these vehicles that are told, by one answer after another.
pub fn reports_told(
    alloc: Global,
    told: &[u8],
    vehicles: &[Callsign],
) -> Result<Listed<ToldReport>, AllocError>
    ensures { IfOk result (AreTold vehicles.now told.now) }
{
    let mut reports = Listed::new(alloc);
    put_told(alloc, &mut reports, told, vehicles)?;
    Ok(reports)
}

// Adds the reports of these vehicles that are told.
fn put_told(
    alloc: Global,
    reports: &mut Listed<ToldReport>,
    told: &[u8],
    vehicles: &[Callsign],
) -> Result<(), AllocError>
    ensures { OnOk result ((more : List Told) × AreTold vehicles.now told.now more
        × (reports.new ≡ reports.old ++ more)) }
{
    let Some((vehicle, others)) = vehicles.split_first() else {
        return Ok(());
    };
    let (found, rest) = next_in::<VehicleReports>(alloc, told)?;
    put_found(reports, vehicle, &found)?;
    put_told(alloc, reports, rest, others)
}

// Adds the reports of a vehicle that an answer gives.
fn put_found(
    reports: &mut Listed<ToldReport>,
    callsign: &Callsign,
    found: &Found<VehicleReports>,
) -> Result<(), AllocError>
    ensures { OnOk result (reports.new ≡ reports.old ++ told_of callsign.now found.now) }
{
    match found {
        Ok((given, _)) => put_given(reports, callsign, given.reports.as_slice()),
        Err(_) => Ok(()),
    }
}

fn put_given(
    reports: &mut Listed<ToldReport>,
    callsign: &Callsign,
    given: &[ReportLine],
) -> Result<(), AllocError>
    ensures { OnOk result (reports.new ≡ reports.old ++ map (told_by callsign.now) given.now) }
{
    for report in given {
        reports.push(ToldReport {
            callsign: *callsign,
            report: *report,
        })?;
    }
    Ok(())
}

/// The lines, each of an exception with its report, where that is told.
pub fn with_reports(
    alloc: Global,
    lines: &[QueueLine],
    reports: &[ToldReport],
) -> Result<Listed<QueueLine>, AllocError>
    ensures { IfOk result (λ shown. shown ≡ map (with_report reports.now) lines.now) }
{
    let mut shown = Listed::new(alloc);
    for line in lines {
        shown.push(with_report(line, reports))?;
    }
    Ok(shown)
}

fn with_report(line: &QueueLine, reports: &[ToldReport]) -> QueueLine
    ensures { result ≡ with_report reports.now line.now }
{
    let entry = line.entry;
    let report = exception_of(&entry, reports);
    QueueLine { entry, report }
}

// The report out of turn that an entry is for, where it is told.
fn exception_of(entry: &QueueEntry, reports: &[ToldReport]) -> Option<ReportLine>
    ensures { result ≡
        exception_of (vehicle_out_of_turn entry.now) entry.now.number reports.now }
{
    match vehicle_out_of_turn(entry) {
        Some(callsign) => report_of(&callsign, entry.number, reports),
        None => None,
    }
}

// The vehicle's report of a number.
fn report_of(callsign: &Callsign, number: u32, reports: &[ToldReport]) -> Option<ReportLine>
    ensures { result ≡ report_of callsign.now number reports.now }
{
    for told in reports {
        if is_report(callsign, number, told) {
            return Some(told.report);
        }
    }
    None
}

fn is_report(callsign: &Callsign, number: u32, told: &ToldReport) -> bool
    ensures { result ≡ is_report callsign.now number told.now }
{
    told.callsign == *callsign && told.report.number.get() == number
}
