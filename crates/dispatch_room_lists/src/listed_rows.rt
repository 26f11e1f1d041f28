//! Enrols the rows of a fleet that a list has, until the room has the digest of the head behind
//! them.
ghost use Rattle.std.specs.Prelude.{◌≡◌, ◌⊎◌, List, IfErr, IfOk, OnErr, OnOk, false};
ghost use Rattle.room_types.specs.declared.fleet.Terminal.{Terminal};
ghost use Rattle.room_model.specs.FleetRows.{room_enrolled, terminals_enrolled};
ghost use Rattle.room_model.specs.Room.{Room};
ghost use Rattle.room_store.specs.StoredRoom.{IsReady, IsRoom};
ghost use Rattle.dispatch_room_journal.specs.ReplayFaults.{IsUnavailableFault};
ghost use Rattle.dispatch_room_lists.specs.ListedRows.{EnrolsDue, EnrolsSome, FindsHead};
ghost use Rattle.dispatch_room_lists.specs.StoodRooms.{GoesOn, Stays};
ghost use Rattle.room_tables_schema.specs.FileConnections.{IsClean};

use dispatch_room_journal::played_message::is_at;
use dispatch_room_journal::replay_faults::ReplayFault;
use room_model::digests::StartDigest;
use room_store::store::Store;
use room_types::fleet::{FleetRow, RowFate};
use room_types::refusal_statuses::Refusal;
use sqlite::Alter;
use std::alloc::Global;
use std::slice;

/// Enrols rows of a fleet, one after another, until the room has the digest of the head that stands
/// behind them: an import may have been stopped before it had enrolled them, or between two of
/// them.
pub fn enrol_rows<S: Alter>(
    alloc: Global,
    room: &mut Store<S>,
    rows: &[FleetRow],
    head: &StartDigest,
) -> Result<(), ReplayFault>
    requires ready { IsReady S.Store room.old }
    ensures goes { GoesOn S.Store room.old room.new }
    ensures enrolled { OnOk result (EnrolsDue S.Store room.old room.new rows.now head.now) }
    ensures part { OnErr result (EnrolsSome S.Store room.old room.new rows.now head.now) }
    ensures unavailable { IfErr result IsUnavailableFault }
{
    let mut is_changed = true;
    for row in rows {
        match has_come_to(room, head, is_changed) {
            Ok(true) => return Ok(()),
            Ok(false) => {}
            Err(fault) => return Err(fault),
        }
        match enrol_row(alloc, room, row) {
            Ok(is_added) => is_changed = is_added,
            Err(fault) => return Err(fault),
        }
    }
    Ok(())
}

/// Whether the room has the digest of a head. The room isn't read if it has not changed
/// (`is_changed`) since it had another digest.
pub fn has_come_to<S: Alter>(
    room: &mut Store<S>,
    head: &StartDigest,
    is_changed: bool,
) -> Result<bool, ReplayFault>
    requires ready { IsReady S.Store room.old }
    ensures goes { GoesOn S.Store room.old room.new }
    ensures stays { Stays S.Store room.old room.new }
    ensures found { IfOk result (FindsHead S.Store room.old room.new head.now is_changed) }
    ensures unavailable { IfErr result IsUnavailableFault }
{
    if !is_changed {
        return Ok(false);
    }
    is_at(room, head)
}

// Enrols a row, and returns whether its vehicle was added: else nothing changed.
fn enrol_row<S: Alter>(
    alloc: Global,
    room: &mut Store<S>,
    row: &FleetRow,
) -> Result<bool, ReplayFault>
    requires ready { IsReady S.Store room.old }
    ensures goes { GoesOn S.Store room.old room.new }
    ensures enrolled { IsClean S.Store room.new.conn
        → OnOk result ((terminals : List Terminal) (held : Room)
        → IsRoom S.Store room.old terminals held
        → IsRoom S.Store room.new (terminals_enrolled held terminals row.now)
        (room_enrolled held terminals row.now)) }
    ensures same { IsClean S.Store room.new.conn
        → IfOk result (λ is_added. is_added ≡ false → (terminals : List Terminal) (held : Room)
        → IsRoom S.Store room.old terminals held
        → (terminals_enrolled held terminals row.now ≡ terminals)
        × (room_enrolled held terminals row.now ≡ held)) }
    ensures part { IsClean S.Store room.new.conn
        → OnErr result ((terminals : List Terminal) (held : Room)
        → IsRoom S.Store room.old terminals held
        → IsRoom S.Store room.new terminals held
        ⊎ IsRoom S.Store room.new (terminals_enrolled held terminals row.now)
        (room_enrolled held terminals row.now)) }
    ensures unavailable { IfErr result IsUnavailableFault }
{
    let mut fates = Vec::new(alloc);
    match room.import(slice::from_ref(row), &mut fates) {
        Ok(()) => Ok(matches!(fates.first(), Some(RowFate::Added))),
        Err(refusal) => Err(ReplayFault::Unavailable(refusal)),
    }
}
