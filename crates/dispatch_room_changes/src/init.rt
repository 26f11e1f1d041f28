//! `init`: a room is created in a file, by a plan.
ghost use Rattle.std.specs.Prelude.{IfErr, IfOk};
ghost use Rattle.dispatch_room_csv.specs.PlanFile.{IsPlanText};
ghost use Rattle.dispatch_room_changes.specs.TerminalFiles.{GivesNoPlan};
ghost use Rattle.dispatch_room_changes.specs.ChangeSteps.{IsInit, IsInitOf};
ghost use Rattle.dispatch_room_disk.specs.CommandSteps.{at};
ghost use Rattle.dispatch_room_disk.specs.SystemFiles.{system};

use dispatch_room_csv::plan_file::{PlanFile, read_plan};
use dispatch_room_csv::plan_file_faults::explain_plan;
use dispatch_room_csv::sheets::Sheet;
use dispatch_room_disk::room_files::RoomFile;
use dispatch_room_exit::exit_status::{Done, Failure};
use dispatch_room_exit::failure_causes::Explainer;
use dispatch_room_tasks::creation::create_in;
use dispatch_room_tcp::hosts::Machine;
use std::io::Write;

/// Creates the room of a plan in a file that is new or empty, and prints what the room has. That is
/// printed even if the file can't be closed afterwards. A file that is made is private to its
/// owner.
pub fn init<M: Machine, O: Write>(
    explainer: Explainer<'_>,
    machine: &mut M,
    file: &str,
    plan: &str,
    out: &mut O,
) -> Result<Done, Failure>
    ensures { IsInit system file.now plan.now (at (O.contents out.old) (M.done machine.old))
        (at (O.contents out.new) (M.done machine.new)) result }
{
    let text = machine.read_text(plan)?;
    let sheet = Sheet::new(machine.alloc(), explainer, plan, text.as_slice());
    init_by(machine, file, sheet, out)
}

// Creates the room of the plan that a text gives.
fn init_by<M: Machine, O: Write>(
    machine: &mut M,
    file: &str,
    sheet: Sheet<'_>,
    out: &mut O,
) -> Result<Done, Failure>
    ensures { IsInitOf system file.now sheet.entry.text.now
        (at (O.contents out.old) (M.done machine.old))
        (at (O.contents out.new) (M.done machine.new)) result }
{
    let plan = plan_in(sheet)?;
    let conn = machine.open(RoomFile::New(file))?;
    let created = create_in(machine.alloc(), conn, &plan, out);
    machine.close(RoomFile::New(file), created)
}

/// The plan that a file gives. Explains why if it gives none.
pub fn plan_in(sheet: Sheet<'_>) -> Result<PlanFile, Failure>
    ensures plan { IfOk result (IsPlanText sheet.entry.text.now) }
    ensures none { IfErr result (GivesNoPlan sheet.entry.text.now) }
{
    match read_plan(sheet.alloc, sheet.text) {
        Ok(plan) => Ok(plan),
        Err(fault) => {
            explain_plan(sheet, fault);
            Err(Failure::from(fault))
        }
    }
}
