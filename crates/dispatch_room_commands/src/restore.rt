//! `restore`: a copy of a room is put in the place of a file.
ghost use Rattle.dispatch_room_commands.specs.TaskSteps.{IsRestore, PutsInPlace};
ghost use Rattle.dispatch_room_disk.specs.CommandSteps.{Quietly, at};
ghost use Rattle.dispatch_room_disk.specs.SystemFiles.{system};

use crate::check::check;
use dispatch_room_disk::aside_names::{Found, print_found};
use dispatch_room_disk::restored_files::put_in_place;
use dispatch_room_exit::exit_status::{Done, Failure};
use dispatch_room_exit::failure_causes::Explainer;
use dispatch_room_tcp::hosts::Machine;
use std::io::Write;

/// Puts a copy in the place of a file, where the copy is a well-formed room, of which it reports
/// how much it has, and under which name another room was set aside. A copy that is none leaves the
/// file as it is; where a step fails, those before it stay done.
pub fn restore<M: Machine, O: Write>(
    explainer: Explainer<'_>,
    machine: &mut M,
    copy: &str,
    file: &str,
    out: &mut O,
) -> Result<Done, Failure>
    ensures { IsRestore system copy.now file.now (at (O.contents out.old) (M.done machine.old))
        (at (O.contents out.new) (M.done machine.new)) result }
{
    let done = check(machine, copy, out)?;
    let found = replace(explainer, machine, copy, file)?;
    print_found(found, file, out)?;
    Ok(done)
}

// Puts it there, and returns what was found there.
fn replace<M: Machine>(
    explainer: Explainer<'_>,
    machine: &mut M,
    copy: &str,
    file: &str,
) -> Result<Found, Failure>
    ensures { Quietly (PutsInPlace copy.now file.now) (M.done machine.old) (M.done machine.new)
        result }
{
    let mut calls = machine.calls();
    let put = put_in_place(&mut calls, explainer, copy, file);
    machine.release(calls);
    put
}
