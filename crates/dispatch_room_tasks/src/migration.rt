//! `migrate`: a room of the first version is moved to this one, in its database.
ghost use Rattle.std.specs.Prelude.{◌≡◌, false, IfErr, IfOk};
ghost use Rattle.dispatch_room_tasks.specs.Migration.{IsMigrated, IsUnmoved};

use crate::opened_room::TaskResult;
use crate::opening_faults::of_opening;
use room_store::store::Store;
use sqlite::{Alter, Connection};
use std::alloc::Global;

/// Moves the room of a database from the first version to this one. It stays the same room.
pub fn migrate_in<S: Alter + Drop>(alloc: Global, conn: Connection<S>) -> TaskResult<(), S>
    requires outside { conn.in_transaction ≡ false }
    ensures migrated { IfOk result (λ worked. IsMigrated S.Store conn worked.1 worked.0) }
    ensures fault { IfErr result (IsUnmoved S.Store conn) }
{
    match Store::migrate(alloc, conn) {
        Ok(room) => Ok((Ok(()), room.close())),
        Err((fault, _conn)) => Err(of_opening(fault)),
    }
}
