//! `times`: the report of a division's day.
ghost use Rattle.dispatch_room_commands.specs.TaskSteps.{IsTimes};
ghost use Rattle.dispatch_room_disk.specs.CommandSteps.{at};
ghost use Rattle.dispatch_room_disk.specs.SystemFiles.{system};

use dispatch_room_archive::times_report::report_in;
use dispatch_room_disk::outputs::print;
use dispatch_room_disk::room_files::RoomFile;
use dispatch_room_exit::exit_status::{Done, Failure};
use dispatch_room_tcp::hosts::Machine;
use room_place::plans::DivisionNumber;
use std::io::Write;

/// Writes the activation times of a division's day as CSV.
pub fn times<M: Machine, O: Write>(
    machine: &mut M,
    file: &str,
    division: DivisionNumber,
    day: &str,
    out: &mut O,
) -> Result<Done, Failure>
    ensures { IsTimes system file.now division day.now (at (O.contents out.old) (M.done machine.old))
        (at (O.contents out.new) (M.done machine.new)) result }
{
    let conn = machine.open(RoomFile::Kept(file))?;
    let reported = report_in(machine.alloc(), conn, division, day);
    let report = machine.close(RoomFile::Kept(file), reported)?;
    print(report.as_slice(), out)
}
