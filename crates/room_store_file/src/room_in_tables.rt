//! A file's tables taken as a room. Where they lack nothing they are only looked at. Else what they
//! lack is made, and all is read and judged, in one transaction: it is committed where they hold a
//! well-formed room, and undone where they don't.
ghost use Rattle.std.specs.Prelude.{◌≡◌, ◌⊎◌, Err, Ok, cond, false, IsOk, IsTrue, IfErr, IfOk};
ghost use Rattle.std.specs.Prelude.{OnErr, OnOk};
ghost use Rattle.sqlite.specs.Held.{state};
ghost use Rattle.sqlite.specs.State.{IsRolledBack, Shows, Survives};
ghost use Rattle.room_tables_schema.specs.Outcomes.{CommitsNothing};
ghost use Rattle.room_model.specs.RoomSlices.{room_of};
ghost use Rattle.room_tables_schema.specs.FileConnections.{MayWrite, IsClean, StandsInTransaction};
ghost use Rattle.room_tables_schema.specs.Schema.{first_schema, first_tables_schema};
ghost use Rattle.room_tables.specs.RoomsInTables.{Stands};
ghost use Rattle.room_store_writes.specs.Configurations.{config_of};
ghost use Rattle.room_store_writes.specs.Transactions.{IsCommitted, LeavesOnErr};
ghost use Rattle.room_store_file.specs.OpeningCauses.{FailsAtEnd, FailsBy, FailsInside};
ghost use Rattle.room_store_file.specs.OpeningCauses.{FailsToReadAs};
ghost use Rattle.room_store_file.specs.OpenedFile.{Becomes, FailsToMake, HasNoPlanBy, HoldsBy};
ghost use Rattle.room_store_file.specs.OpenedFile.{IsMoved, IsUncommitted, MayBecome};
ghost use Rattle.room_store_file.specs.OpenedFile.{ShowsNoVersion, StandsBy, Takes, schema_of};
ghost use Rattle.room_store_check_tables.specs.HeldRooms.{IsPlanOf, WritesNothing};
ghost use Rattle.room_store_check_tables.specs.declared.file_faults.FileFault.TheVariants.{NotARoom};
ghost use Rattle.room_store_check_tables.specs.declared.file_faults.FileFault.TheVariants.{Storage};

use crate::opened_file::is_room_of;
use room_place::plans::Plan;
use room_store_check_tables::file_faults::FileFault;
use room_store_check_tables::soundness::sound_plan;
use room_store_check_tables::streamed_plan::stream_plan;
use room_store_check_tables::whole_file::{ReadFile, read_whole};
use room_tables::meta_table::update_version;
use room_tables_rows::meta_sql::VERSION;
use room_tables_schema::database_faults::Fault;
use room_tables_schema::table_creation::{make_indexes, make_last};
use sqlite::{Alter, Connection, Transaction};
use std::alloc::Global;

/// Which tables and indexes a file has.
#[derive(Clone, Copy)]
pub enum Tables {
    /// Those of a room.
    Whole,
    /// A room's tables without the indexes that find its working rows.
    Unindexed,
    /// Those of a room of the first version.
    First,
    /// The first version's tables without these indexes.
    FirstUnindexed,
}

/// The plan of the room that a file's tables hold. A fault leaves the file as it was.
pub(crate) fn take<S: Alter>(
    alloc: Global,
    conn: &mut Connection<S>,
    tables: Tables,
) -> Result<Plan, FileFault>
    requires tables { (state S.Store conn.old).now.schema ≡ schema_of tables }
    requires outside { conn.old.in_transaction ≡ false }
    requires committed { IsCommitted S.Store conn.old }
    ensures room { IsClean S.Store conn.new
        → IfOk result (IsPlanOf (state S.Store conn.new).now.trees) }
    ensures takes { IsClean S.Store conn.new
        → OnOk result (Takes tables (state S.Store conn.old) (state S.Store conn.new)) }
    ensures no_room { IsClean S.Store conn.new
        → IfErr result (λ e. e ≡ NotARoom → ¬ HoldsBy tables (state S.Store conn.old).now.trees) }
    ensures why { IsClean S.Store conn.new
        → IfErr result (λ e. e ≡ Storage → FailsBy S.Store tables conn.old conn.new) }
    ensures leaves { LeavesOnErr S.Store conn.old conn.new result }
    ensures untouched { IfErr result (λ e. e ≡ NotARoom
        → WritesNothing (state S.Store conn.old) (state S.Store conn.new)) }
    ensures ended { conn.new.in_transaction ≡ false }
    ensures survives { Survives (state S.Store conn.old) (state S.Store conn.new)
        (MayBecome tables (state S.Store conn.old).now.trees) }
{
    let Tables::Whole = tables else {
        return read_room_in(alloc, conn, tables);
    };
    // Whole tables are only read: even an empty transaction is not committed, since a commit would
    // write the head of a file that another program kept otherwise.
    let found = stream_plan(alloc, conn);
    if_open(conn, found)
}

/// All that a file's tables hold, read in a transaction that is undone. What they lack is made for
/// as long.
pub fn read_file<S: Alter>(
    alloc: Global,
    conn: &mut Connection<S>,
    tables: Tables,
) -> Result<ReadFile, FileFault>
    requires tables { (state S.Store conn.old).now.schema ≡ schema_of tables }
    requires outside { conn.old.in_transaction ≡ false }
    requires committed { IsCommitted S.Store conn.old }
    ensures stands { IsClean S.Store conn.new
        → IfOk result (λ x. StandsBy tables (state S.Store conn.old).now.trees
        (config_of x.config.plan x.config.terminals.items) (room_of x.config.plan.areas x.rows)) }
    ensures no_plan { IsClean S.Store conn.new
        → IfErr result (λ e. e ≡ NotARoom → HasNoPlanBy tables (state S.Store conn.old).now.trees) }
    ensures why { IsClean S.Store conn.new
        → IfErr result (λ e. e ≡ Storage → FailsInside S.Store tables conn.old conn.new) }
    ensures nothing { WritesNothing (state S.Store conn.old) (state S.Store conn.new) }
    ensures ended { conn.new.in_transaction ≡ false }
{
    let mut tx = conn.transaction();
    let found = read_as(alloc, &mut tx, tables);
    tx.rollback();
    found
}

// What was found, if the connection is open still: only an open one gives a version.
fn if_open<S: Alter>(
    conn: &mut Connection<S>,
    found: Result<Plan, FileFault>,
) -> Result<Plan, FileFault>
    requires outside { conn.old.in_transaction ≡ false }
    ensures plan { IfOk result (λ plan. found ≡ Ok plan) }
    ensures no_room { IfErr result (λ e. e ≡ NotARoom → found ≡ Err NotARoom) }
    ensures is_open { IsClean S.Store conn.new
        → OnOk result (IsTrue (state S.Store conn.new).is_open) }
    ensures storage { IsClean S.Store conn.new
        → IfErr result (λ e. e ≡ Storage → (found ≡ Err Storage)
        ⊎ ShowsNoVersion (state S.Store conn.old) (state S.Store conn.new)) }
    ensures nothing { WritesNothing (state S.Store conn.old) (state S.Store conn.new) }
    ensures ended { conn.new.in_transaction ≡ false }
{
    let plan = found?;
    if is_room_of(conn, VERSION)? {
        Ok(plan)
    } else {
        Err(FileFault::Storage)
    }
}

// The plan of the room that tables hold once what they lack is made.
pub(crate) fn read_room_in<S: Alter>(
    alloc: Global,
    conn: &mut Connection<S>,
    tables: Tables,
) -> Result<Plan, FileFault>
    requires tables { (state S.Store conn.old).now.schema ≡ schema_of tables }
    requires outside { conn.old.in_transaction ≡ false }
    requires committed { IsCommitted S.Store conn.old }
    ensures room { IsClean S.Store conn.new
        → IfOk result (IsPlanOf (state S.Store conn.new).now.trees) }
    ensures takes { IsClean S.Store conn.new
        → OnOk result (Takes tables (state S.Store conn.old) (state S.Store conn.new)) }
    ensures no_room { IsClean S.Store conn.new
        → IfErr result (λ e. e ≡ NotARoom → ¬ HoldsBy tables (state S.Store conn.old).now.trees) }
    ensures why { IsClean S.Store conn.new
        → IfErr result (λ e. e ≡ Storage → FailsInside S.Store tables conn.old conn.new
        ⊎ FailsAtEnd S.Store tables conn.old conn.new) }
    ensures leaves { LeavesOnErr S.Store conn.old conn.new result }
    ensures untouched { IfErr result (λ e. e ≡ NotARoom
        → WritesNothing (state S.Store conn.old) (state S.Store conn.new)) }
    ensures ended { conn.new.in_transaction ≡ false }
    ensures survives { Survives (state S.Store conn.old) (state S.Store conn.new)
        (MayBecome tables (state S.Store conn.old).now.trees) }
{
    let mut tx = conn.transaction();
    let found = find_room(alloc, &mut tx, tables);
    finish(tx, found)
}

// Ends the transaction: commits it where a room was found, and undoes it where not.
fn finish<S: Alter>(
    tx: Transaction<'_, S>,
    found: Result<Plan, FileFault>,
) -> Result<Plan, FileFault>
    requires { IsClean S.Store tx.conn.now
        → OnOk found (IsTrue (state S.Store tx.conn.now).in_transaction) }
    ensures plan { IfOk result (λ plan. found ≡ Ok plan) }
    ensures no_room { IfErr result (λ e. e ≡ NotARoom → found ≡ Err NotARoom) }
    ensures why { IsClean S.Store tx.exit.0.now
        → IfErr result (λ e. (found ≡ Err e) ⊎ IsUncommitted (state S.Store tx.entry.conn.now)
        (state S.Store tx.exit.0.now) e) }
    ensures ok { IsClean S.Store tx.exit.0.now
        → OnOk result (Shows (state S.Store tx.entry.conn.now) (state S.Store tx.exit.0.now)
        (state S.Store tx.entry.conn.now).now (state S.Store tx.entry.conn.now).now false) }
    ensures err { IsClean S.Store tx.exit.0.now
        → OnErr result (IsRolledBack (state S.Store tx.entry.conn.now)
        (state S.Store tx.exit.0.now)) }
    ensures ended { tx.exit.0.now.in_transaction ≡ false }
    ensures survives { Survives (state S.Store tx.entry.conn.now) (state S.Store tx.exit.0.now)
        (λ db. IsOk found × (db ≡ (state S.Store tx.entry.conn.now).now.trees)) }
{
    match found {
        Ok(plan) => match tx.commit() {
            Ok(()) => Ok(plan),
            Err(error) => Err(FileFault::from(Fault::from(error))),
        },
        Err(fault) => {
            tx.rollback();
            Err(fault)
        }
    }
}

// Makes what the tables lack, and finds the room that they hold then.
fn find_room<S: Alter>(
    alloc: Global,
    tx: &mut Transaction<'_, S>,
    tables: Tables,
) -> Result<Plan, FileFault>
    requires tables { IsClean S.Store tx.old.conn.now
        → (state S.Store tx.old.conn.now).now.schema ≡ schema_of tables }
    requires inside { StandsInTransaction S.Store tx.old.conn.now }
    ensures room { IsClean S.Store tx.new.conn.now
        → IfOk result (IsPlanOf (state S.Store tx.new.conn.now).now.trees) }
    ensures becomes { IsClean S.Store tx.new.conn.now
        → OnOk result (Becomes tables (state S.Store tx.old.conn.now).now.trees
        (state S.Store tx.new.conn.now).now.trees) }
    ensures is_open { IsClean S.Store tx.new.conn.now
        → OnOk result (IsTrue (state S.Store tx.old.conn.now).is_open) }
    ensures inside { OnOk result (MayWrite S.Store tx.new.conn.now) }
    ensures no_room { IsClean S.Store tx.new.conn.now
        → IfErr result (λ e. e ≡ NotARoom
        → ¬ HoldsBy tables (state S.Store tx.old.conn.now).now.trees) }
    ensures why { IsClean S.Store tx.new.conn.now
        → IfErr result (λ e. e ≡ Storage
        → FailsToReadAs S.Store tables tx.old.conn.now tx.new.conn.now) }
    ensures commits { CommitsNothing S.Store tx.old.conn.now tx.new.conn.now }
    ensures same_reference { tx.new.conn.ghost_name ≡ tx.old.conn.ghost_name }
{
    match read_as(alloc, tx, tables) {
        Ok(whole) => sound_plan(alloc, whole),
        Err(fault) => Err(fault),
    }
}

// Makes what the tables lack, and reads all that they hold then.
fn read_as<S: Alter>(
    alloc: Global,
    tx: &mut Transaction<'_, S>,
    tables: Tables,
) -> Result<ReadFile, FileFault>
    requires tables { IsClean S.Store tx.old.conn.now
        → (state S.Store tx.old.conn.now).now.schema ≡ schema_of tables }
    requires inside { StandsInTransaction S.Store tx.old.conn.now }
    ensures stands { IsClean S.Store tx.new.conn.now
        → IfOk result (λ x. Stands (state S.Store tx.new.conn.now).now.trees
        (config_of x.config.plan x.config.terminals.items) (room_of x.config.plan.areas x.rows)) }
    ensures becomes { IsClean S.Store tx.new.conn.now
        → OnOk result (Becomes tables (state S.Store tx.old.conn.now).now.trees
        (state S.Store tx.new.conn.now).now.trees) }
    ensures is_open { IsClean S.Store tx.new.conn.now
        → OnOk result (IsTrue (state S.Store tx.old.conn.now).is_open) }
    ensures inside { OnOk result (MayWrite S.Store tx.new.conn.now) }
    ensures no_plan { IsClean S.Store tx.new.conn.now
        → IfErr result (λ e. e ≡ NotARoom
        → HasNoPlanBy tables (state S.Store tx.old.conn.now).now.trees) }
    ensures why { IsClean S.Store tx.new.conn.now
        → IfErr result (λ e. e ≡ Storage
        → FailsToReadAs S.Store tables tx.old.conn.now tx.new.conn.now) }
    ensures commits { CommitsNothing S.Store tx.old.conn.now tx.new.conn.now }
    ensures same_reference { tx.new.conn.ghost_name ≡ tx.old.conn.ghost_name }
{
    make_lacking(alloc, tx, tables)?;
    read_whole(alloc, tx)
}

// Makes what the tables lack of a room's.
fn make_lacking<S: Alter>(
    alloc: Global,
    tx: &mut Transaction<'_, S>,
    tables: Tables,
) -> Result<(), Fault>
    requires tables { IsClean S.Store tx.old.conn.now
        → (state S.Store tx.old.conn.now).now.schema ≡ schema_of tables }
    requires inside { StandsInTransaction S.Store tx.old.conn.now }
    ensures becomes { IsClean S.Store tx.new.conn.now
        → OnOk result (Becomes tables (state S.Store tx.old.conn.now).now.trees
        (state S.Store tx.new.conn.now).now.trees) }
    ensures inside { OnOk result (MayWrite S.Store tx.new.conn.now) }
    ensures commits { CommitsNothing S.Store tx.old.conn.now tx.new.conn.now }
    ensures why { IsClean S.Store tx.new.conn.now
        → IfErr result (FailsToMake S.Store tables tx.old.conn.now tx.new.conn.now) }
    ensures same_reference { tx.new.conn.ghost_name ≡ tx.old.conn.ghost_name }
{
    match tables {
        Tables::Whole => Ok(()),
        Tables::Unindexed => make_indexes(tx),
        Tables::First => migrate_tables(alloc, tx, true),
        Tables::FirstUnindexed => migrate_tables(alloc, tx, false),
    }
}

// Makes a room's tables of those of the first version, and sets the version.
fn migrate_tables<S: Alter>(
    alloc: Global,
    tx: &mut Transaction<'_, S>,
    is_indexed: bool,
) -> Result<(), Fault>
    requires tables { IsClean S.Store tx.old.conn.now
        → (state S.Store tx.old.conn.now).now.schema
        ≡ cond is_indexed first_schema first_tables_schema }
    requires inside { StandsInTransaction S.Store tx.old.conn.now }
    ensures moved { IsClean S.Store tx.new.conn.now
        → OnOk result (IsMoved (state S.Store tx.old.conn.now).now.trees
        (state S.Store tx.new.conn.now).now.trees) }
    ensures inside { OnOk result (MayWrite S.Store tx.new.conn.now) }
    ensures commits { CommitsNothing S.Store tx.old.conn.now tx.new.conn.now }
    ensures same_reference { tx.new.conn.ghost_name ≡ tx.old.conn.ghost_name }
{
    make_last(tx, is_indexed)?;
    update_version(alloc, tx)
}
