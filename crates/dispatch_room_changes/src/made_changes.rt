//! A change of a room that is kept in its list, and made.
ghost use Rattle.std.specs.Prelude.{◌≡◌, IfErr, IfOk, OnOk, false};
ghost use Rattle.room_store.specs.StoredRoom.{IsReady};
ghost use Rattle.dispatch_room_changes.specs.KeptImports.{IsUnkept};
ghost use Rattle.dispatch_room_changes.specs.MadeChanges.{EndsMade, KeepsText, MakesKeptIn};
ghost use Rattle.dispatch_room_changes.specs.MadeChanges.{OpensNoneKept};
ghost use Rattle.dispatch_room_lists.specs.StoodRooms.{Stays};

use crate::change_lists::{ChangeList, keep_lines};
use crate::kept_enrolments::{end_kept, head_of};
use dispatch_room_exit::exit_status::Failure;
use dispatch_room_exit::failure_causes::Explainer;
use dispatch_room_lists::room_changes::{Remade, RoomChange, remake};
use dispatch_room_serving::journal_files::Lasting;
use dispatch_room_tasks::opened_room::{TaskResult, open_room};
use room_store::store::Store;
use sqlite::{Alter, Connection};
use std::alloc::Global;

/// Keeps the text of a change in a list, makes the change in the room of a database, and then keeps
/// the room's digest. If the text can't be kept, nothing is changed.
pub fn make_kept_in<S: Alter + Drop, F: Lasting>(
    alloc: Global,
    explainer: Explainer<'_>,
    conn: Connection<S>,
    list: &mut ChangeList<F>,
    change: &RoomChange,
    text: &[u8],
) -> TaskResult<(), S>
    requires outside { conn.in_transaction ≡ false }
    requires sound { list.old.out.failed ≡ false }
    ensures made { IfOk result (λ worked. MakesKeptIn S.Store F.contents F.lasting conn worked.1
        list.old list.new change.now text.now worked.0) }
    ensures fault { IfErr result (OpensNoneKept S.Store F.contents F.lasting conn list.old
        change.now text.now) }
{
    let (mut room, _) = open_room(alloc, conn)?;
    match keep_text(&mut room, list, text) {
        Ok(()) => {}
        Err(fault) => return Ok((Err(fault), room.close())),
    }
    let remade = remake(alloc, explainer, room, change)?;
    Ok(end_made(explainer, remade, list))
}

// Keeps the digest of a room that was opened again, and closes it.
fn end_made<S: Alter, F: Lasting>(
    explainer: Explainer<'_>,
    remade: Remade<S>,
    list: &mut ChangeList<F>,
) -> (Result<(), Failure>, Connection<S>)
    requires ready { IsReady S.Store remade.room }
    requires sound { list.old.out.failed ≡ false }
    ensures { EndsMade S.Store F.contents F.lasting remade.room result.1 list.old list.new
        remade.done result.0 }
{
    let Remade {
        done: came,
        mut room,
        zone: _,
    } = remade;
    let done = end_kept(explainer, &mut room, list, came);
    (done, room.close())
}

// Keeps the digest of a room, and then a text, so that all of it lasts. The room stays as it is.
fn keep_text<S: Alter, F: Lasting>(
    room: &mut Store<S>,
    list: &mut ChangeList<F>,
    text: &[u8],
) -> Result<(), Failure>
    requires ready { IsReady S.Store room.old }
    requires sound { list.old.out.failed ≡ false }
    ensures ready { IsReady S.Store room.new }
    ensures stays { Stays S.Store room.old room.new }
    ensures sound { OnOk result (list.new.out.failed ≡ false) }
    ensures kept { OnOk result (KeepsText S.Store F.contents F.lasting room.old room.new list.old
        list.new text.now) }
    ensures fault { IfErr result (IsUnkept list.old list.new text.now) }
{
    let head = head_of(room)?;
    match keep_lines(list, &head, text) {
        Ok(()) => Ok(()),
        Err(_) => Err(Failure::Journal),
    }
}
