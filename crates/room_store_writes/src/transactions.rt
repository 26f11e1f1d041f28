//! Changes of a room, made in its tables: all of them in one transaction, or none.
ghost use Rattle.std.specs.Prelude.{◌≡◌, ◌⊎◌, false, Err, IfErr, IsOk, IsTrue, OnOk, OnErr};
ghost use Rattle.sqlite.specs.Held.{state};
ghost use Rattle.sqlite.specs.declared.error.Error.{Error as Failure};
ghost use Rattle.sqlite.specs.State.{IsRolledBack, Shows, Survives};
ghost use Rattle.room_tables_schema.specs.FileConnections.{HasRoomSchema, MayWrite, IsClean};
ghost use Rattle.room_tables_schema.specs.Outcomes.{CommitsNothing};
ghost use Rattle.room_model.specs.Room.{Room, apply};
ghost use Rattle.room_tables.specs.RoomsInTables.{Configuration, Stands};
ghost use Rattle.room_tables.specs.Writes.{Makes};
ghost use Rattle.room_store_writes.specs.Transactions.{Commits, MakesAll, LeavesOnErr};
ghost use Rattle.room_store_writes.specs.Transactions.{StandsSettled};

use room_tables::row_changes::apply;
use room_tables_schema::database_faults::Fault;
use room_types::changes::Change;
use sqlite::{Alter, Connection, Error, Transaction};

/// Makes all changes, or none; where there are none it writes nothing. What a stop may leave is
/// what it could before, or the room after all of them.
pub fn write<S: Alter>(conn: &mut Connection<S>, changes: &[Change]) -> Result<(), Fault>
    requires room { HasRoomSchema S.Store conn.old }
    requires outside { conn.old.in_transaction ≡ false }
    requires settled { StandsSettled S.Store conn.old }
    ensures ok { IsClean S.Store conn.new
        → OnOk result (Commits (state S.Store conn.old) (state S.Store conn.new)
        (Stands (state S.Store conn.old).now.trees) (λ room. apply room changes.now)) }
    ensures err { LeavesOnErr S.Store conn.old conn.new result }
    ensures ended { conn.new.in_transaction ≡ false }
    ensures survives { Survives (state S.Store conn.old) (state S.Store conn.new) (λ db.
        (config : Configuration) (room : Room)
        → Stands (state S.Store conn.old).now.trees config room
        → Stands db config (apply room changes.now)) }
{
    if changes.is_empty() {
        return Ok(());
    }
    let mut tx = conn.transaction();
    let done = put_each(&mut tx, changes);
    end(tx, done)
}

/// Ends a transaction: commits it where what was done in it went well, and undoes it where not.
pub fn end<S: Alter, E: From<Error>>(tx: Transaction<'_, S>, done: Result<(), E>) -> Result<(), E>
    requires { IsClean S.Store tx.conn.now
        → OnOk done (IsTrue (state S.Store tx.conn.now).in_transaction) }
    ensures well { OnOk result (IsOk done) }
    ensures ok { IsClean S.Store tx.exit.0.now
        → OnOk result (Shows (state S.Store tx.entry.conn.now) (state S.Store tx.exit.0.now)
        (state S.Store tx.entry.conn.now).now (state S.Store tx.entry.conn.now).now false) }
    ensures err { IsClean S.Store tx.exit.0.now
        → OnErr result (IsRolledBack (state S.Store tx.entry.conn.now)
        (state S.Store tx.exit.0.now)) }
    ensures why { IfErr result (λ e. (done ≡ Err e) ⊎ ((cause : Failure) × E.from_gives cause e)) }
    ensures ended { tx.exit.0.now.in_transaction ≡ false }
    ensures survives { Survives (state S.Store tx.entry.conn.now) (state S.Store tx.exit.0.now)
        (λ db. IsOk done × (db ≡ (state S.Store tx.entry.conn.now).now.trees)) }
{
    match done {
        Ok(()) => {
            tx.commit()?;
            Ok(())
        }
        Err(fault) => {
            tx.rollback();
            Err(fault)
        }
    }
}

/// Makes the changes in a transaction, up to the first that fails.
pub fn put_each<S: Alter>(tx: &mut Transaction<'_, S>, changes: &[Change]) -> Result<(), Fault>
    requires inside { MayWrite S.Store tx.old.conn.now }
    ensures same_reference { tx.new.conn.ghost_name ≡ tx.old.conn.ghost_name }
    ensures ok { IsClean S.Store tx.new.conn.now
        → OnOk result (MakesAll (state S.Store tx.old.conn.now)
        (state S.Store tx.new.conn.now) changes.now) }
    ensures commits { CommitsNothing S.Store tx.old.conn.now tx.new.conn.now }
{
    for change in changes {
        apply(tx, change)?;
    }
    Ok(())
}
