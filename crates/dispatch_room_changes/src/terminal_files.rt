//! The terminals that a plan's or a fleet's file gives.
ghost use Rattle.std.specs.List.{list_any};
ghost use Rattle.std.specs.Prelude.{◌≡◌, filter_map, IfErr, IfOk};
ghost use Rattle.dispatch_room_changes.specs.TerminalFiles.{AreCrewsOf, AreGiven, AreOfPlan};
ghost use Rattle.dispatch_room_changes.specs.TerminalFiles.{GiveNone, GivesNoPlan, GivesNone};
ghost use Rattle.dispatch_room_changes.specs.TerminalFiles.{begins_as_fleet, crew_of, is_bad};

use crate::init::plan_in;
use dispatch_room_csv::fleet_file::{FleetFileFault, FleetLine, read_fleet};
use dispatch_room_csv::fleet_file_faults::{explain_bad, explain_fleet};
use dispatch_room_csv::plan_file::PlanFile;
use dispatch_room_csv::sheets::Sheet;
use dispatch_room_exit::exit_status::Failure;
use room_types::asks::Who;
use room_types::fleet::Terminal;
use std::alloc::{AllocError, Global};

// How a fleet's file begins.
const FLEET: &[u8] = b"callsign";

/// The desks and positions of a plan, or the crews of a fleet without bad rows, in the order of the
/// file. Explains why if it gives none.
pub fn terminals_in(sheet: Sheet<'_>) -> Result<Vec<Terminal>, Failure>
    ensures given { IfOk result (λ listed. AreGiven sheet.entry.text.now listed.items) }
    ensures none { IfErr result (GivesNone sheet.entry.text.now) }
{
    match read_fleet(sheet.alloc, sheet.text) {
        Ok(lines) => crews_in(sheet, lines.as_slice()),
        Err(FleetFileFault::Memory) => Err(Failure::Memory),
        Err(FleetFileFault::Input) => {
            if begins_as_fleet(sheet.text) {
                explain_fleet(sheet, FleetFileFault::Input);
                return Err(Failure::Input);
            }
            planned_in(sheet)
        }
    }
}

// Whether a text begins as that of a fleet does.
fn begins_as_fleet(text: &[u8]) -> bool
    ensures { result ≡ begins_as_fleet text.now }
{
    text.starts_with(FLEET)
}

// The desks and positions of a plan.
fn planned_in(sheet: Sheet<'_>) -> Result<Vec<Terminal>, Failure>
    ensures given { IfOk result (λ listed. AreOfPlan sheet.entry.text.now listed.items) }
    ensures none { IfErr result (GivesNoPlan sheet.entry.text.now) }
{
    let file = plan_in(sheet)?;
    let PlanFile {
        plan: _plan,
        terminals,
    } = file;
    Ok(terminals)
}

// The crews of a fleet of which no row is bad.
fn crews_in(sheet: Sheet<'_>, lines: &[FleetLine]) -> Result<Vec<Terminal>, Failure>
    ensures crews { IfOk result (λ crews. AreCrewsOf lines.now crews.items) }
    ensures none { IfErr result (GiveNone lines.now) }
{
    if has_bad(lines) {
        explain_each_bad(sheet, lines);
        return Err(Failure::Input);
    }
    match crews_of(sheet.alloc, lines) {
        Ok(crews) => Ok(crews),
        Err(_) => Err(Failure::Memory),
    }
}

fn has_bad(lines: &[FleetLine]) -> bool
    ensures { result ≡ list_any is_bad lines.now }
{
    lines.iter().any(|line| is_bad(line))
}

fn is_bad(line: &FleetLine) -> bool
    ensures { result ≡ is_bad line.now }
{
    matches!(line, FleetLine::Bad)
}

fn explain_each_bad(sheet: Sheet<'_>, lines: &[FleetLine]) {
    let Some(rows) = sheet.rows() else {
        return;
    };
    for (at, line) in lines.iter().enumerate() {
        if is_bad(line) {
            explain_bad(&rows, at);
        }
    }
}

// The crew's terminal of each good row.
fn crews_of(alloc: Global, lines: &[FleetLine]) -> Result<Vec<Terminal>, AllocError>
    ensures { IfOk result (λ crews. crews.items ≡ filter_map crew_of lines.now) }
{
    lines.iter().filter_map(crew_of).collect(alloc)
}

fn crew_of(line: &FleetLine) -> Option<Terminal>
    ensures { result ≡ crew_of line.now }
{
    match line {
        FleetLine::Row(row) => Some(Terminal {
            token: row.token,
            who: Who::Crew(row.callsign),
        }),
        FleetLine::Bad => None,
    }
}
