//! A change of a room, made in its file, and first kept in a list, if there is one.
ghost use Rattle.std.specs.Prelude.{None, Some};
ghost use Rattle.dispatch_room_lists.specs.RoomChanges.{IsTextOf};
ghost use Rattle.dispatch_room_changes.specs.ChangeSteps.{IsMade, IsMadeIn};
ghost use Rattle.dispatch_room_disk.specs.CommandSteps.{Quietly};
ghost use Rattle.dispatch_room_disk.specs.SystemFiles.{system};

use crate::change_lists::ChangeList;
use crate::kept_import::opened_list;
use crate::made_changes::make_kept_in;
use dispatch_room_disk::room_files::RoomFile;
use dispatch_room_exit::exit_status::Failure;
use dispatch_room_exit::failure_causes::Explainer;
use dispatch_room_lists::room_changes::{RoomChange, make};
use dispatch_room_tcp::hosts::Machine;

/// The file of a room that is changed, and the list that keeps the change first, if there is one.
#[derive(Clone, Copy)]
pub struct ChangedFile<'a> {
    pub file: &'a str,
    pub list: Option<&'a str>,
}

/// Makes a change in the room of a file. If a list is given, it first keeps the change's text, on
/// the disk, between the digest of the room before the change and that of the room after it. Where
/// the text can't be kept, nothing is changed; where only the last digest can't be, the change
/// stays, and the next start keeps that digest.
pub fn make_in_file<M: Machine>(
    explainer: Explainer<'_>,
    machine: &mut M,
    place: ChangedFile<'_>,
    change: &RoomChange,
    text: &[u8],
) -> Result<(), Failure>
    requires text { IsTextOf change.now text.now }
    ensures { Quietly (IsMade system M.File.Write.contents M.File.lasting place.entry change.now text.now)
        (M.done machine.old) (M.done machine.new) result }
{
    match place.list {
        None => make_unkept(explainer, machine, place.file, change, text),
        Some(list) => make_kept(explainer, machine, place.file, list, change, text),
    }
}

// Makes a change in the room of a file, and keeps it nowhere.
fn make_unkept<M: Machine>(
    explainer: Explainer<'_>,
    machine: &mut M,
    file: &str,
    change: &RoomChange,
    text: &[u8],
) -> Result<(), Failure>
    ensures { Quietly (IsMadeIn system M.File.Write.contents M.File.lasting None file.now change.now
        text.now) (M.done machine.old) (M.done machine.new) result }
{
    let conn = machine.open(RoomFile::Kept(file))?;
    let made = make(machine.alloc(), explainer, conn, change);
    machine.close(RoomFile::Kept(file), made)
}

// Makes a change in the room of a file, once its text lasts in a list.
fn make_kept<M: Machine>(
    explainer: Explainer<'_>,
    machine: &mut M,
    file: &str,
    path: &str,
    change: &RoomChange,
    text: &[u8],
) -> Result<(), Failure>
    requires text { IsTextOf change.now text.now }
    ensures { Quietly (IsMadeIn system M.File.Write.contents M.File.lasting (Some path.now) file.now
        change.now text.now) (M.done machine.old) (M.done machine.new) result }
{
    let opened = opened_list(explainer, machine, path)?;
    let conn = machine.open(RoomFile::Kept(file))?;
    let (kept, end) = opened.into_file(explainer, path);
    let mut list = ChangeList::new(kept, end);
    let made = make_kept_in(machine.alloc(), explainer, conn, &mut list, change, text);
    machine.close(RoomFile::Kept(file), made)
}
