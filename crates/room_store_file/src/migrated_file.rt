//! A file of the first version made one of this.
ghost use Rattle.std.specs.Prelude.{◌≡◌, ◌≢◌, ◌⊎◌, IfErr, IfOk, IfNone, IfSome, OnOk, false};
ghost use Rattle.sqlite.specs.Held.{state};
ghost use Rattle.sqlite.specs.State.{Survives};
ghost use Rattle.room_tables_schema.specs.Versions.{HasFirstTables};
ghost use Rattle.room_store_writes.specs.Transactions.{LeavesOnErr};
ghost use Rattle.room_store_file.specs.OpenedFile.{HoldsFirstRoom, IsNewRoom, IsOldRoom};
ghost use Rattle.room_store_file.specs.OpenedFile.{MayBeMoved, Moves, schema_of};
ghost use Rattle.room_store_check_tables.specs.HeldRooms.{IsPlanOf, WritesNothing};
ghost use Rattle.room_store_file.specs.declared.opened_file.OpenFault.TheVariants.{
  NotARoom,
  OtherVersion,
};
ghost use Rattle.room_store_file.specs.declared.room_in_tables.Tables.TheVariants.{First};
ghost use Rattle.room_store_file.specs.declared.room_in_tables.Tables.TheVariants.{FirstUnindexed};
ghost use Rattle.room_tables_schema.specs.FileConnections.{IsClean};

use crate::opened_file::{OpenFault, is_room_of};
use crate::room_in_tables::{Tables, read_room_in};
use room_place::plans::Plan;
use room_tables::connection_lemmas::lemma_committed;
use room_tables_rows::meta_sql::{FIRST_VERSION, VERSION};
use room_tables_schema::schema_tests::{has_only_first_tables, is_first};
use sqlite::{Alter, Connection};
use sqlite_schema::schema::Schema;
use std::alloc::Global;

/// The plan of the room that the file holds, which is of this version then. In one transaction the
/// table of offers and the indexes are made, and the version is set; no other row changes. A fault
/// leaves the file as it was.
pub fn migrate_in<S: Alter>(alloc: Global, conn: &mut Connection<S>) -> Result<Plan, OpenFault>
    requires outside { conn.old.in_transaction ≡ false }
    ensures room { IsClean S.Store conn.new
        → IfOk result (IsPlanOf (state S.Store conn.new).now.trees) }
    ensures moves { IsClean S.Store conn.new
        → OnOk result (Moves (state S.Store conn.old) (state S.Store conn.new)) }
    ensures old_room { IsClean S.Store conn.new
        → OnOk result (IsOldRoom (state S.Store conn.old).now) }
    ensures leaves { LeavesOnErr S.Store conn.old conn.new result }
    ensures not_old { IsClean S.Store conn.new
        → IfErr result (λ e. (e ≡ OtherVersion → IsNewRoom (state S.Store conn.old).now)
        × (e ≡ NotARoom → ¬ IsNewRoom (state S.Store conn.old).now)) }
    ensures no_room { IsClean S.Store conn.new
        → IfErr result (λ e. e ≡ NotARoom → HasFirstTables (state S.Store conn.old).now.schema
        → ¬ HoldsFirstRoom (state S.Store conn.old).now.trees) }
    ensures untouched { IfErr result (λ e. (e ≡ OtherVersion) ⊎ (e ≡ NotARoom)
        → WritesNothing (state S.Store conn.old) (state S.Store conn.new)) }
    ensures ended { conn.new.in_transaction ≡ false }
    ensures survives { Survives (state S.Store conn.old) (state S.Store conn.new)
        (MayBeMoved (state S.Store conn.old).now) }
{
    if is_room_of(conn, VERSION)? {
        return Err(OpenFault::OtherVersion);
    }
    if !is_room_of(conn, FIRST_VERSION)? {
        return Err(OpenFault::NotARoom);
    }
    move_tables(alloc, conn)
}

// The plan of the room that the file's tables hold, which are those of the first version.
fn move_tables<S: Alter>(alloc: Global, conn: &mut Connection<S>) -> Result<Plan, OpenFault>
    requires outside { conn.old.in_transaction ≡ false }
    ensures room { IsClean S.Store conn.new
        → IfOk result (IsPlanOf (state S.Store conn.new).now.trees) }
    ensures moves { IsClean S.Store conn.new
        → OnOk result (Moves (state S.Store conn.old) (state S.Store conn.new)) }
    ensures leaves { LeavesOnErr S.Store conn.old conn.new result }
    ensures is_old { IfErr result (λ e. e ≢ OtherVersion) }
    ensures no_room { IsClean S.Store conn.new
        → IfErr result (λ e. e ≡ NotARoom → HasFirstTables (state S.Store conn.old).now.schema
        → ¬ HoldsFirstRoom (state S.Store conn.old).now.trees) }
    ensures untouched { IfErr result (λ e. e ≡ NotARoom
        → WritesNothing (state S.Store conn.old) (state S.Store conn.new)) }
    ensures ended { conn.new.in_transaction ≡ false }
    ensures survives { Survives (state S.Store conn.old) (state S.Store conn.new)
        (MayBeMoved (state S.Store conn.old).now) }
{
    lemma_committed(conn);
    let Some(tables) = first_tables_of(conn.schema()) else {
        return Err(OpenFault::NotARoom);
    };
    match read_room_in(alloc, conn, tables) {
        Ok(plan) => Ok(plan),
        Err(fault) => Err(OpenFault::from(fault)),
    }
}

// Which tables and indexes of the first version a file has; none where it has others.
fn first_tables_of(schema: &Schema) -> Option<Tables>
    ensures tables { IfSome result (λ tables. (schema.now ≡ schema_of tables)
        × ((tables ≡ First) ⊎ (tables ≡ FirstUnindexed))) }
    ensures none { IfNone result (¬ HasFirstTables schema.now) }
{
    if is_first(schema) {
        Some(Tables::First)
    } else if has_only_first_tables(schema) {
        Some(Tables::FirstUnindexed)
    } else {
        None
    }
}
