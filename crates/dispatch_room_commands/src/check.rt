//! `check`: how much a room has, or the first thing that is wrong with its file.
ghost use Rattle.dispatch_room_commands.specs.TaskSteps.{IsCheck};
ghost use Rattle.dispatch_room_disk.specs.CommandSteps.{at};
ghost use Rattle.dispatch_room_disk.specs.SystemFiles.{system};

use dispatch_room_archive::examination::check_in;
use dispatch_room_disk::room_files::RoomFile;
use dispatch_room_exit::exit_status::{Done, Failure};
use dispatch_room_tcp::hosts::Machine;
use std::io::Write;

/// Prints how much the room of a file has, or the first thing that is wrong with the file. No row
/// is written.
pub fn check<M: Machine, O: Write>(
    machine: &mut M,
    file: &str,
    out: &mut O,
) -> Result<Done, Failure>
    ensures { IsCheck system file.now (at (O.contents out.old) (M.done machine.old))
        (at (O.contents out.new) (M.done machine.new)) result }
{
    let conn = machine.open(RoomFile::Kept(file))?;
    let looked = check_in(machine.alloc(), conn, out);
    machine.close(RoomFile::Kept(file), Ok(looked))
}
