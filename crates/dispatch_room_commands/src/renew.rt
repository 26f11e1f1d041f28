//! `renew`: a new room is made of what another one leaves to it.
ghost use Rattle.dispatch_room_commands.specs.TaskSteps.{IsRenew, LeavesRowsOf};
ghost use Rattle.dispatch_room_commands.specs.RoomTasks.{Begins};
ghost use Rattle.dispatch_room_disk.specs.CommandSteps.{Quietly, at};
ghost use Rattle.dispatch_room_disk.specs.RoomFiles.{fresh};
ghost use Rattle.dispatch_room_tcp.specs.Hosts.{Works};
ghost use Rattle.dispatch_room_disk.specs.SystemFiles.{system};

use dispatch_room_archive::renewal::{Successor, begin_in, left_in};
use dispatch_room_disk::room_files::RoomFile;
use dispatch_room_exit::exit_status::{Done, Failure};
use dispatch_room_tcp::hosts::Machine;
use std::io::Write;

/// Makes a room in a file that is new or empty, of what the room of another file leaves since a
/// day, and prints how many incidents, calls, turns and reports it has. No row of the other file is
/// written.
pub fn renew<M: Machine, O: Write>(
    machine: &mut M,
    file: &str,
    successor: &str,
    since: &str,
    out: &mut O,
) -> Result<Done, Failure>
    ensures { IsRenew system file.now successor.now since.now
        (at (O.contents out.old) (M.done machine.old))
        (at (O.contents out.new) (M.done machine.new)) result }
{
    let left = find_left(machine, file, since)?;
    begin(machine, successor, &left, out)
}

// What a room leaves.
fn find_left<M: Machine>(machine: &mut M, file: &str, since: &str) -> Result<Successor, Failure>
    ensures { Quietly (LeavesRowsOf system file.now since.now) (M.done machine.old) (M.done machine.new)
        result }
{
    let conn = machine.open(RoomFile::Kept(file))?;
    let left = left_in(machine.alloc(), conn, since);
    machine.close(RoomFile::Kept(file), left)
}

// Makes a room of it.
fn begin<M: Machine, O: Write>(
    machine: &mut M,
    successor: &str,
    left: &Successor,
    out: &mut O,
) -> Result<Done, Failure>
    ensures { Works system (fresh successor.now) (Begins left.now)
        (at (O.contents out.old) (M.done machine.old))
        (at (O.contents out.new) (M.done machine.new)) result }
{
    let conn = machine.open(RoomFile::New(successor))?;
    let begun = begin_in(conn, left, out);
    machine.close(RoomFile::New(successor), begun)
}
