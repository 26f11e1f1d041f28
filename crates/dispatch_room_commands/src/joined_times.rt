//! `times --and`: the report of a division's day over two rooms.
ghost use Rattle.dispatch_room_commands.specs.TaskSteps.{FindsDayOf, IsJoinedTimes, JoinsDayOf};
ghost use Rattle.dispatch_room_disk.specs.CommandSteps.{Quietly, at};
ghost use Rattle.dispatch_room_disk.specs.SystemFiles.{system};

use dispatch_room_archive::division_days::DivisionDay;
use dispatch_room_archive::joined_reports::{day_in, joined_report_in};
use dispatch_room_disk::outputs::print;
use dispatch_room_disk::room_files::RoomFile;
use dispatch_room_exit::exit_status::{Done, Failure};
use dispatch_room_tcp::hosts::Machine;
use room_place::plans::DivisionNumber;
use std::io::Write;

/// Writes the activation times of a division's day as CSV, by the room of a file and by the older
/// one that it was made of. No row of either is written.
pub fn joined_times<M: Machine, O: Write>(
    machine: &mut M,
    file: &str,
    older: &str,
    division: DivisionNumber,
    day: &str,
    out: &mut O,
) -> Result<Done, Failure>
    ensures { IsJoinedTimes system file.now older.now division day.now
        (at (O.contents out.old) (M.done machine.old))
        (at (O.contents out.new) (M.done machine.new)) result }
{
    let newer = find_day(machine, file, division, day)?;
    let report = join_day(machine, older, &newer)?;
    print(report.as_slice(), out)
}

// The day in the newer room.
fn find_day<M: Machine>(
    machine: &mut M,
    file: &str,
    division: DivisionNumber,
    day: &str,
) -> Result<DivisionDay, Failure>
    ensures { Quietly (FindsDayOf system file.now division day.now) (M.done machine.old)
        (M.done machine.new) result }
{
    let conn = machine.open(RoomFile::Kept(file))?;
    let found = day_in(machine.alloc(), conn, division, day);
    machine.close(RoomFile::Kept(file), found)
}

// Its report with the older room.
fn join_day<M: Machine>(
    machine: &mut M,
    older: &str,
    newer: &DivisionDay,
) -> Result<Vec<u8>, Failure>
    ensures { Quietly (JoinsDayOf system older.now newer.now) (M.done machine.old) (M.done machine.new)
        result }
{
    let conn = machine.open(RoomFile::Kept(older))?;
    let joined = joined_report_in(machine.alloc(), conn, newer);
    machine.close(RoomFile::Kept(older), joined)
}
