//! The plan of the room that the tables of a file stand for.
ghost use Rattle.std.specs.Prelude.{◌≡◌, ◌≢◌, ◌⊎◌, ◌↔◌, IsTrue, IfErr, IfOk, IfNone, IfSome, OnOk};
ghost use Rattle.std.specs.Prelude.{false};
ghost use Rattle.sqlite.specs.Held.{state};
ghost use Rattle.sqlite.specs.State.{Survives};
ghost use Rattle.room_tables.specs.Failures.{IfStorage};
ghost use Rattle.room_tables_schema.specs.Schema.{room_schema};
ghost use Rattle.room_tables_schema.specs.Versions.{HasTables};
ghost use Rattle.room_store_writes.specs.Transactions.{IsSettled, LeavesOnErr};
ghost use Rattle.room_store_file.specs.OpeningCauses.{FailsByTables, FailsToOpen};
ghost use Rattle.room_store_file.specs.OpenedFile.{HidesVersion, IsOldRoom, IsRoomOf, KeepsFile};
ghost use Rattle.room_store_file.specs.OpenedFile.{MayBeIndexed, Opens, schema_of};
ghost use Rattle.room_store_check_tables.specs.HeldRooms.{HoldsRoom, IsPlanOf, WritesNothing};
ghost use Rattle.room_store_file.specs.declared.opened_file.OpenFault.TheVariants.{
  NotARoom,
  OtherVersion,
  Storage,
};
ghost use Rattle.room_store_file.specs.declared.room_in_tables.Tables.TheVariants.{Unindexed};
ghost use Rattle.room_store_file.specs.declared.room_in_tables.Tables.TheVariants.{Whole};
ghost use Rattle.room_tables_schema.specs.FileConnections.{IsClean};

use crate::room_in_tables::{Tables, take};
use room_place::plans::Plan;
use room_store_check_tables::file_faults::FileFault;
use room_tables::connection_lemmas::lemma_committed;
use room_tables::meta_table::is_of_version;
use room_tables_rows::meta_sql::FIRST_VERSION;
use room_tables_schema::database_faults::Fault;
use room_tables_schema::schema_tests::{begins_as_room, has_only_tables, is_room};
use sqlite::{Alter, Connection};
use sqlite_schema::schema::Schema;
use std::alloc::Global;
use thiserror::Error;

/// Why a file is not opened, or not migrated. Of the first two, and of the last two, the first that
/// holds is reported.
#[derive(Clone, Copy, Debug, PartialEq, Eq, Error)]
pub enum OpenFault {
    /// The file holds a room of the version before this one; or of this one already, where it is to
    /// be migrated. It may be well-formed or not.
    #[error("the file is a room of the other version")]
    OtherVersion,
    /// A table of the version is missing, or there is another, or the tables stand for no
    /// well-formed room.
    #[error("the file is no room")]
    NotARoom,
    /// Memory was refused; the same call may succeed later.
    #[error("out of memory")]
    Memory,
    /// The database failed for another cause, or a row is not of its table.
    #[error("the database failed")]
    Storage,
}

impl From<Fault> for OpenFault {
    ghost use Rattle.room_store_file.specs.OpenedFile.{open_fault};
    ghost use Rattle.room_store_check_tables.specs.HeldRooms.{take_fault};

    ghost from_gives = { λ fault why. why ≡ open_fault (take_fault fault) };

    fn from(fault: Fault) -> OpenFault {
        match fault {
            Fault::Memory => OpenFault::Memory,
            Fault::Storage => OpenFault::Storage,
        }
    }
}

impl From<FileFault> for OpenFault {
    ghost use Rattle.room_store_file.specs.OpenedFile.{open_fault};

    ghost from_gives = { λ fault why. why ≡ open_fault fault };

    fn from(fault: FileFault) -> OpenFault {
        match fault {
            FileFault::NotARoom => OpenFault::NotARoom,
            FileFault::Memory => OpenFault::Memory,
            FileFault::Storage => OpenFault::Storage,
        }
    }
}

/// The plan of the room that the file holds. A fault leaves the file as it was.
pub fn open_in<S: Alter>(alloc: Global, conn: &mut Connection<S>) -> Result<Plan, OpenFault>
    requires outside { conn.old.in_transaction ≡ false }
    ensures room { IsClean S.Store conn.new
        → IfOk result (IsPlanOf (state S.Store conn.new).now.trees) }
    ensures schema { IsClean S.Store conn.new
        → OnOk result ((state S.Store conn.new).now.schema ≡ room_schema) }
    ensures settled { IsClean S.Store conn.new
        → OnOk result (IsSettled (state S.Store conn.new)) }
    ensures kept { IsClean S.Store conn.new
        → OnOk result (KeepsFile (state S.Store conn.old) (state S.Store conn.new)) }
    ensures leaves { LeavesOnErr S.Store conn.old conn.new result }
    ensures not_old { IsClean S.Store conn.new
        → OnOk result (¬ IsOldRoom (state S.Store conn.old).now) }
    ensures old_room { IsClean S.Store conn.new
        → IfErr result (λ e. (e ≡ OtherVersion → IsOldRoom (state S.Store conn.old).now)
        × (e ≡ NotARoom → ¬ IsOldRoom (state S.Store conn.old).now)) }
    ensures no_room { IsClean S.Store conn.new
        → IfErr result (λ e. e ≡ NotARoom → HasTables (state S.Store conn.old).now.schema
        → ¬ HoldsRoom (state S.Store conn.old).now.trees) }
    ensures storage { IsClean S.Store conn.new
        → IfErr result (λ e. e ≡ Storage → HasTables (state S.Store conn.old).now.schema
        ⊎ HidesVersion (state S.Store conn.old) (state S.Store conn.new)) }
    ensures why { IsClean S.Store conn.new → IfErr result (λ e. e ≡ Storage
        → HidesVersion (state S.Store conn.old) (state S.Store conn.new)
        ⊎ FailsToOpen S.Store conn.old conn.new) }
    ensures untouched { IfErr result (λ e. (e ≡ OtherVersion) ⊎ (e ≡ NotARoom)
        → WritesNothing (state S.Store conn.old) (state S.Store conn.new)) }
    ensures ended { conn.new.in_transaction ≡ false }
    ensures survives { Survives (state S.Store conn.old) (state S.Store conn.new)
        (MayBeIndexed (state S.Store conn.old).now) }
{
    if is_room_of(conn, FIRST_VERSION)? {
        return Err(OpenFault::OtherVersion);
    }
    open_tables(alloc, conn)
}

/// Whether the file holds a room of a version, whatever its other tables are.
pub fn is_room_of<S: Alter>(conn: &mut Connection<S>, version: u32) -> Result<bool, Fault>
    requires outside { conn.old.in_transaction ≡ false }
    ensures test { IsClean S.Store conn.new
        → IfOk result (λ yes. IsTrue yes ↔ IsRoomOf version (state S.Store conn.old).now) }
    ensures ok { IsClean S.Store conn.new
        → OnOk result ((state S.Store conn.new).now ≡ (state S.Store conn.old).now) }
    ensures is_open { IsClean S.Store conn.new
        → IfOk result (λ yes. IsTrue yes → IsTrue (state S.Store conn.new).is_open) }
    ensures why { IsClean S.Store conn.new → IfErr result
        (IfStorage (HidesVersion (state S.Store conn.old) (state S.Store conn.new))) }
    ensures nothing { WritesNothing (state S.Store conn.old) (state S.Store conn.new) }
    ensures ended { conn.new.in_transaction ≡ false }
{
    lemma_committed(conn);
    if !begins_as_room(conn.schema()) {
        return Ok(false);
    }
    is_of_version(conn, version)
}

// The plan of the room of this version that the file holds.
fn open_tables<S: Alter>(alloc: Global, conn: &mut Connection<S>) -> Result<Plan, OpenFault>
    requires outside { conn.old.in_transaction ≡ false }
    ensures room { IsClean S.Store conn.new
        → IfOk result (IsPlanOf (state S.Store conn.new).now.trees) }
    ensures opens { IsClean S.Store conn.new
        → OnOk result (Opens (state S.Store conn.old) (state S.Store conn.new)) }
    ensures leaves { LeavesOnErr S.Store conn.old conn.new result }
    ensures this_version { IfErr result (λ e. e ≢ OtherVersion) }
    ensures no_room { IsClean S.Store conn.new
        → IfErr result (λ e. e ≡ NotARoom → HasTables (state S.Store conn.old).now.schema
        → ¬ HoldsRoom (state S.Store conn.old).now.trees) }
    ensures storage { IsClean S.Store conn.new
        → IfErr result (λ e. e ≡ Storage → HasTables (state S.Store conn.old).now.schema) }
    ensures why { IsClean S.Store conn.new
        → IfErr result (λ e. e ≡ Storage → FailsByTables S.Store conn.old conn.new) }
    ensures untouched { IfErr result (λ e. e ≡ NotARoom
        → WritesNothing (state S.Store conn.old) (state S.Store conn.new)) }
    ensures ended { conn.new.in_transaction ≡ false }
    ensures survives { Survives (state S.Store conn.old) (state S.Store conn.new)
        (MayBeIndexed (state S.Store conn.old).now) }
{
    lemma_committed(conn);
    let Some(tables) = room_tables_of(conn.schema()) else {
        return Err(OpenFault::NotARoom);
    };
    match take(alloc, conn, tables) {
        Ok(plan) => Ok(plan),
        Err(fault) => Err(OpenFault::from(fault)),
    }
}

/// Which of a room's tables and indexes a file has; none where it has others.
pub fn room_tables_of(schema: &Schema) -> Option<Tables>
    ensures tables { IfSome result (λ tables. (schema.now ≡ schema_of tables)
        × ((tables ≡ Whole) ⊎ (tables ≡ Unindexed))) }
    ensures none { IfNone result (¬ HasTables schema.now) }
{
    if is_room(schema) {
        Some(Tables::Whole)
    } else if has_only_tables(schema) {
        Some(Tables::Unindexed)
    } else {
        None
    }
}
