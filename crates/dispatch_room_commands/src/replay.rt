//! `replay`: what a list says is done to the room of a file.
ghost use Rattle.dispatch_room_commands.specs.TaskSteps.{IsReplay};
ghost use Rattle.dispatch_room_disk.specs.CommandSteps.{at};
ghost use Rattle.dispatch_room_disk.specs.SystemFiles.{system};

use dispatch_room_cli::tasks::Replay;
use dispatch_room_disk::room_files::RoomFile;
use dispatch_room_exit::exit_status::{Done, Failure};
use dispatch_room_exit::failure_causes::Explainer;
use dispatch_room_lists::replayed_lists::replay_from;
use dispatch_room_lists::replayed_segments::ReplayCourse;
use dispatch_room_tcp::hosts::Machine;
use std::io::Write;

/// Replays a list from standard input to the room of a file. Prints how many messages that were,
/// and the room's digest if `replay.digest` asks for it; or writes the answer to each message as
/// soon as it is given.
pub fn replay<M: Machine, O: Write, E: Write>(
    explainer: Explainer<'_>,
    machine: &mut M,
    file: &str,
    replay: &Replay,
    out: &mut O,
    err: &mut E,
) -> Result<Done, Failure>
    ensures { IsReplay system file.now replay.now (at (O.contents out.old) (M.done machine.old))
        (at (O.contents out.new) (M.done machine.new)) result }
{
    let input = machine.input();
    let conn = machine.open(RoomFile::Kept(file))?;
    let course = ReplayCourse {
        alloc: machine.alloc(),
        explainer: explainer,
        replay,
    };
    let played = replay_from(&course, conn, input, out, err);
    machine.close(RoomFile::Kept(file), played)
}
