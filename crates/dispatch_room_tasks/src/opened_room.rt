//! The room of a database, opened for a command.
ghost use Rattle.std.specs.Prelude.{◌≡◌, false, IfErr, IfOk};
ghost use Rattle.jiff.specs.Placed.{IsPosixZone};
ghost use Rattle.room_http_time.specs.Days.{zone_of};
ghost use Rattle.room_store.specs.StoredRoom.{IsReady};
ghost use Rattle.dispatch_room_tasks.specs.OpenedRoom.{IsUnopened, OpensRoom};
ghost use Rattle.room_tables_schema.specs.FileConnections.{IsClean};

use crate::opening_faults::of_opening;
use dispatch_room_exit::exit_status::Failure;
use room_http_time::zones::Zone;
use room_store::store::Store;
use sqlite::{Alter, Connection};
use std::alloc::Global;

/// The room in a database, with the zone of its days: the well-formed room that the tables stood
/// for, and the zone of its plan. Where there is none the database is released.
pub fn open_room<S: Alter + Drop>(
    alloc: Global,
    conn: Connection<S>,
) -> Result<(Store<S>, Zone), Failure>
    requires outside { conn.in_transaction ≡ false }
    ensures ready { IfOk result (λ opened. IsReady S.Store opened.0) }
    ensures room { IfOk result (λ opened. IsClean S.Store opened.0.conn
        → OpensRoom S.Store conn opened.0) }
    ensures trusted { IfOk result (λ opened. IsClean S.Store opened.0.conn
        → IsClean S.Store conn) }
    ensures zone { IfOk result (λ opened. IsPosixZone opened.0.plan.zone (zone_of opened.1)) }
    ensures fault { IfErr result (IsUnopened S.Store conn) }
{
    let room = match Store::open(alloc, conn) {
        Ok(room) => room,
        Err((fault, _conn)) => return Err(of_opening(fault)),
    };
    match Zone::read(room.plan().zone()) {
        Ok(zone) => Ok((room, zone)),
        Err(_) => {
            drop(room.close());
            Err(Failure::File)
        }
    }
}

/// What came of a command in a database: where there is a room in it, what was done, and the
/// database back.
pub type TaskResult<T, S> = Result<(Result<T, Failure>, Connection<S>), Failure>;
