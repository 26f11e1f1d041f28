//! `replan`: a room gets another plan.
ghost use Rattle.std.specs.Prelude.{IfErr, IfOk};
ghost use Rattle.dispatch_room_csv.specs.PlanFile.{IsPlanText};
ghost use Rattle.dispatch_room_changes.specs.ChangeSteps.{IsReplan, IsReplanOf, IsReplanned};
ghost use Rattle.dispatch_room_disk.specs.CommandSteps.{at};
ghost use Rattle.dispatch_room_disk.specs.SystemFiles.{system};

use crate::init::plan_in;
use crate::kept_changes::{ChangedFile, make_in_file};
use dispatch_room_csv::plan_file::PlanFile;
use dispatch_room_csv::sheets::Sheet;
use dispatch_room_disk::outputs::print;
use dispatch_room_exit::exit_status::{Done, Failure};
use dispatch_room_exit::failure_causes::Explainer;
use dispatch_room_lists::room_changes::RoomChange;
use dispatch_room_tcp::hosts::Machine;
use std::io::Write;

/// Gives a room the plan of a file and the terminals in it, and prints `replanned`.
pub fn replan<M: Machine, O: Write>(
    explainer: Explainer<'_>,
    machine: &mut M,
    place: ChangedFile<'_>,
    plan: &str,
    out: &mut O,
) -> Result<Done, Failure>
    ensures { IsReplan system M.File.Write.contents M.File.lasting place.entry plan.now
        (at (O.contents out.old) (M.done machine.old))
        (at (O.contents out.new) (M.done machine.new)) result }
{
    let text = machine.read_text(plan)?;
    let sheet = Sheet::new(machine.alloc(), explainer, plan, text.as_slice());
    replan_text(explainer, machine, place, sheet, out)
}

// Gives a room the plan of a file's text.
fn replan_text<M: Machine, O: Write>(
    explainer: Explainer<'_>,
    machine: &mut M,
    place: ChangedFile<'_>,
    sheet: Sheet<'_>,
    out: &mut O,
) -> Result<Done, Failure>
    ensures { IsReplanOf system M.File.Write.contents M.File.lasting place.entry sheet.entry.text.now
        (at (O.contents out.old) (M.done machine.old))
        (at (O.contents out.new) (M.done machine.new)) result }
{
    let plan = plan_in(sheet)?;
    replan_by(explainer, machine, place, plan, sheet.text, out)
}

// Gives a room this plan, which has this text.
fn replan_by<M: Machine, O: Write>(
    explainer: Explainer<'_>,
    machine: &mut M,
    place: ChangedFile<'_>,
    plan: PlanFile,
    text: &[u8],
    out: &mut O,
) -> Result<Done, Failure>
    requires text { IsPlanText text.now plan }
    ensures { IsReplanned system M.File.Write.contents M.File.lasting place.entry text.now plan
        (at (O.contents out.old) (M.done machine.old))
        (at (O.contents out.new) (M.done machine.new)) result }
{
    let change = RoomChange::Plan(plan);
    make_in_file(explainer, machine, place, &change, text)?;
    print(b"replanned\n", out)
}
