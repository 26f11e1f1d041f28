//! `digest`: the digest of the room of a file, by which the room can be recognized.
ghost use Rattle.std.specs.Prelude.{◌≡◌, false};
ghost use Rattle.dispatch_room_commands.specs.TaskSteps.{IsDigest};
ghost use Rattle.dispatch_room_commands.specs.RoomTasks.{Digests};
ghost use Rattle.dispatch_room_disk.specs.CommandSteps.{at};
ghost use Rattle.dispatch_room_disk.specs.SystemFiles.{system};

use dispatch_room_disk::room_files::RoomFile;
use dispatch_room_exit::exit_status::{Done, Failure};
use dispatch_room_lists::digest_lines::print_digest;
use dispatch_room_tasks::opened_room::{TaskResult, open_room};
use dispatch_room_tcp::hosts::Machine;
use sqlite::{Alter, Connection};
use std::alloc::Global;
use std::io::Write;

/// Prints the digest of the room of a file, which stays as it is.
pub fn digest<M: Machine, O: Write>(
    machine: &mut M,
    file: &str,
    out: &mut O,
) -> Result<Done, Failure>
    ensures { IsDigest system file.now (at (O.contents out.old) (M.done machine.old))
        (at (O.contents out.new) (M.done machine.new)) result }
{
    let conn = machine.open(RoomFile::Kept(file))?;
    let printed = digest_in(machine.alloc(), conn, out);
    machine.close(RoomFile::Kept(file), printed)
}

// The same of a room in any storage.
fn digest_in<S: Alter + Drop, O: Write>(
    alloc: Global,
    conn: Connection<S>,
    out: &mut O,
) -> TaskResult<Done, S>
    requires outside { conn.in_transaction ≡ false }
    ensures { Digests S S.Store conn (O.contents out.old) (O.contents out.new) result }
{
    let (mut room, _zone) = open_room(alloc, conn)?;
    let done = print_digest(&mut room, out);
    Ok((done, room.close()))
}
