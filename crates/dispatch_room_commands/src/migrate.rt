//! `migrate`: a room of the first version is moved to this one.
ghost use Rattle.dispatch_room_commands.specs.TaskSteps.{IsMigrate};
ghost use Rattle.dispatch_room_disk.specs.CommandSteps.{at};
ghost use Rattle.dispatch_room_disk.specs.SystemFiles.{system};

use dispatch_room_disk::outputs::print;
use dispatch_room_disk::room_files::RoomFile;
use dispatch_room_exit::exit_status::{Done, Failure};
use dispatch_room_tasks::migration::migrate_in;
use dispatch_room_tcp::hosts::Machine;
use std::io::Write;

/// Moves the room of a file from the first version to this one, and reports that it did.
pub fn migrate<M: Machine, O: Write>(
    machine: &mut M,
    file: &str,
    out: &mut O,
) -> Result<Done, Failure>
    ensures { IsMigrate system file.now (at (O.contents out.old) (M.done machine.old))
        (at (O.contents out.new) (M.done machine.new)) result }
{
    let conn = machine.open(RoomFile::Old(file))?;
    let moved = migrate_in(machine.alloc(), conn);
    machine.close(RoomFile::Old(file), moved)?;
    print(b"migrated\n", out)
}
