//! `import`: the rows of a fleet are enrolled in a room.
ghost use Rattle.std.specs.Prelude.{IfErr, IfOk};
ghost use Rattle.dispatch_room_csv.specs.FleetFile.{IsFleetText};
ghost use Rattle.dispatch_room_changes.specs.TerminalFiles.{GivesNoFleet};
ghost use Rattle.dispatch_room_changes.specs.ChangeSteps.{IsImport, IsImportOf};
ghost use Rattle.dispatch_room_disk.specs.CommandSteps.{at};
ghost use Rattle.dispatch_room_disk.specs.SystemFiles.{system};

use dispatch_room_csv::fleet_file::{FleetLine, read_fleet};
use dispatch_room_csv::fleet_file_faults::explain_fleet;
use dispatch_room_csv::sheets::Sheet;
use dispatch_room_disk::room_files::RoomFile;
use dispatch_room_exit::exit_status::{Done, Failure};
use dispatch_room_exit::failure_causes::Explainer;
use dispatch_room_tasks::enrolment::enrol_in;
use dispatch_room_tcp::hosts::Machine;
use std::io::Write;

/// Enrols the good rows of a fleet in order, and reports what became of each row. If a row is bad
/// or refused, the other rows are enrolled nevertheless.
pub fn import<M: Machine, O: Write>(
    explainer: Explainer<'_>,
    machine: &mut M,
    file: &str,
    fleet: &str,
    out: &mut O,
) -> Result<Done, Failure>
    ensures { IsImport system file.now fleet.now (at (O.contents out.old) (M.done machine.old))
        (at (O.contents out.new) (M.done machine.new)) result }
{
    let text = machine.read_text(fleet)?;
    let sheet = Sheet::new(machine.alloc(), explainer, fleet, text.as_slice());
    import_rows(machine, file, sheet, out)
}

// Enrols the good rows of the fleet that a text gives.
fn import_rows<M: Machine, O: Write>(
    machine: &mut M,
    file: &str,
    sheet: Sheet<'_>,
    out: &mut O,
) -> Result<Done, Failure>
    ensures { IsImportOf system file.now sheet.entry.text.now
        (at (O.contents out.old) (M.done machine.old))
        (at (O.contents out.new) (M.done machine.new)) result }
{
    let lines = lines_in(sheet)?;
    let conn = machine.open(RoomFile::Kept(file))?;
    let enrolled = enrol_in(machine.alloc(), conn, sheet, lines.as_slice(), out);
    machine.close(RoomFile::Kept(file), enrolled)
}

/// The rows of a fleet's file. Explains why if it is no such file.
pub fn lines_in(sheet: Sheet<'_>) -> Result<Vec<FleetLine>, Failure>
    ensures fleet { IfOk result (λ lines. IsFleetText sheet.entry.text.now lines.items) }
    ensures none { IfErr result (GivesNoFleet sheet.entry.text.now) }
{
    match read_fleet(sheet.alloc, sheet.text) {
        Ok(lines) => Ok(lines),
        Err(fault) => {
            explain_fleet(sheet, fault);
            Err(Failure::from(fault))
        }
    }
}
