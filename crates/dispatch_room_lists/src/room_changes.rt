//! Changes of a room other than those by its messages and by its fleets.
ghost use Rattle.std.specs.Prelude.{◌≡◌, false, IfErr, IfOk};
ghost use Rattle.jiff.specs.Placed.{IsPosixZone};
ghost use Rattle.room_http_time.specs.Days.{zone_of};
ghost use Rattle.room_store.specs.StoredRoom.{IsReady};
ghost use Rattle.dispatch_room_tasks.specs.OpenedRoom.{HoldsNone};
ghost use Rattle.dispatch_room_lists.specs.RoomChanges.{LosesRoom, Makes, Remakes};
ghost use Rattle.room_tables_schema.specs.FileConnections.{IsClean};

use dispatch_room_csv::plan_file::PlanFile;
use dispatch_room_exit::exit_status::Failure;
use dispatch_room_exit::failure_causes::Explainer;
use dispatch_room_tasks::changed_terminals::change_in;
use dispatch_room_tasks::opened_room::{TaskResult, open_room};
use dispatch_room_tasks::replaced_terminals::replace_in;
use dispatch_room_tasks::replanned_room::replan_in;
use room_http_time::zones::Zone;
use room_store::store::Store;
use room_store_writes::change_faults::TokenChange;
use room_types::fleet::Terminal;
use sqlite::{Alter, Connection};
use std::alloc::Global;

/// A change of a room that is made in one transaction.
#[derive(Drop)]
pub enum RoomChange {
    /// A user has only this token, or none.
    Token(TokenChange),
    /// Each user whom a list names has the terminals that it gives, and no others.
    Terminals(Vec<Terminal>),
    /// The room has the plan of a file, and the terminals in it.
    Plan(PlanFile),
}

/// What came of a change in the database of a room, and the room as it was opened again after it,
/// with the zone of its days.
pub struct Remade<S: Alter> {
    pub done: Result<(), Failure>,
    pub room: Store<S>,
    pub zone: Zone,
}

/// Makes a change in the room of a database. If the room doesn't allow it, nothing is changed; for
/// a list or a plan it is explained why.
pub fn make<S: Alter + Drop>(
    alloc: Global,
    explainer: Explainer<'_>,
    conn: Connection<S>,
    change: &RoomChange,
) -> TaskResult<(), S>
    requires outside { conn.in_transaction ≡ false }
    ensures outside { IfOk result (λ worked. worked.1.in_transaction ≡ false) }
    ensures made { IfOk result (λ worked. Makes S.Store conn worked.1 change.now worked.0) }
    ensures trusted { IfOk result (λ worked. IsClean S.Store worked.1
        → IsClean S.Store conn) }
    ensures fault { IfErr result (HoldsNone S.Store conn) }
{
    match change {
        RoomChange::Token(one) => change_in(alloc, conn, one),
        RoomChange::Terminals(listed) => replace_in(alloc, explainer, conn, listed.as_slice()),
        RoomChange::Plan(file) => replan_in(alloc, explainer, conn, file),
    }
}

/// Closes a room, makes a change in its database, and opens the room again.
pub fn remake<S: Alter + Drop>(
    alloc: Global,
    explainer: Explainer<'_>,
    room: Store<S>,
    change: &RoomChange,
) -> Result<Remade<S>, Failure>
    requires ready { IsReady S.Store room }
    ensures ready { IfOk result (λ remade. IsReady S.Store remade.room) }
    ensures made { IfOk result (λ remade.
        Remakes S.Store room remade.room change.now remade.done) }
    ensures zone { IfOk result (λ remade.
        IsPosixZone remade.room.plan.zone (zone_of remade.zone)) }
    ensures fault { IfErr result (LosesRoom S.Store room change.now) }
{
    let (done, conn) = make(alloc, explainer, room.close(), change)?;
    let (room, zone) = open_room(alloc, conn)?;
    Ok(Remade { done, room, zone })
}
