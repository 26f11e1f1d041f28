//! Making the tables and indexes of a room, in a transaction.

ghost use Rattle.std.specs.Prelude.{◌≡◌, cond, IfErr, OnOk, drop, map};
ghost use Rattle.sqlite.specs.Held.{Held, state};
ghost use Rattle.sqlite_catalog.specs.Change.{KeepsRows};
ghost use Rattle.room_tables_schema.specs.Outcomes.{CommitsNothing};
ghost use Rattle.room_tables_schema.specs.Schema.{first_schema, first_tables_schema, no_schema};
ghost use Rattle.room_tables_schema.specs.Schema.{room_tables, tables_schema, room_schema};
ghost use Rattle.room_tables_schema.specs.Definitions.{AddsLast, Lead, Grows, IsBlank, FailsAt};
ghost use Rattle.room_tables_schema.specs.FileConnections.{MayWrite, IsClean, StandsInTransaction};

use crate::database_faults::Fault;
use crate::schema_sql::{DEFINITIONS, DROPS, MOVES, TABLE_DEFINITIONS};
use crate::statements::write;
use sqlite::{Alter, Transaction};

/// Makes all tables of a room, with no rows, and its indexes, in a file that has nothing. Where
/// memory or storage fails, nothing is committed, and the transaction's rollback leaves nothing.
pub fn make<S: Alter>(tx: &mut Transaction<'_, S>) -> Result<(), Fault>
    requires empty { IsClean S.Store tx.old.conn.now
        → (state S.Store tx.old.conn.now).now.schema ≡ no_schema }
    requires inside { StandsInTransaction S.Store tx.old.conn.now }
    ensures blank { IsClean S.Store tx.new.conn.now
        → OnOk result (IsBlank (state S.Store tx.new.conn.now).now.trees) }
    ensures inside { OnOk result (MayWrite S.Store tx.new.conn.now) }
    ensures commits { CommitsNothing S.Store tx.old.conn.now tx.new.conn.now }
    ensures why { IsClean S.Store tx.new.conn.now
        → IfErr result (λ fault. (mid : Held S)
        × FailsAt (map (λ t. t.now) DEFINITIONS) (state S.Store tx.old.conn.now)
        (state S.Store mid) (state S.Store tx.new.conn.now) fault) }
    ensures same_reference { tx.new.conn.ghost_name ≡ tx.old.conn.ghost_name }
{
    define_all(tx, &DEFINITIONS)
}

/// Makes the indexes of a room in a file that has only its tables. All tables keep their rows.
/// Where memory or storage fails, nothing is committed.
pub fn make_indexes<S: Alter>(tx: &mut Transaction<'_, S>) -> Result<(), Fault>
    requires tables { IsClean S.Store tx.old.conn.now
        → (state S.Store tx.old.conn.now).now.schema ≡ tables_schema }
    requires inside { StandsInTransaction S.Store tx.old.conn.now }
    ensures rows { IsClean S.Store tx.new.conn.now
        → OnOk result (KeepsRows room_tables (state S.Store tx.old.conn.now).now.trees
        (state S.Store tx.new.conn.now).now.trees) }
    ensures inside { OnOk result (MayWrite S.Store tx.new.conn.now) }
    ensures commits { CommitsNothing S.Store tx.old.conn.now tx.new.conn.now }
    ensures why { IsClean S.Store tx.new.conn.now
        → IfErr result (λ fault. (mid : Held S)
        × FailsAt (map (λ t. t.now) (drop TABLE_DEFINITIONS DEFINITIONS))
        (state S.Store tx.old.conn.now) (state S.Store mid) (state S.Store tx.new.conn.now) fault) }
    ensures same_reference { tx.new.conn.ghost_name ≡ tx.old.conn.ghost_name }
{
    define_all(tx, &DEFINITIONS[TABLE_DEFINITIONS..])
}

/// Makes the last table and the indexes of a room in a file of the first version's tables, with
/// its indexes or without them. The tables that were there keep their rows, and the new one has
/// none. Where memory or storage fails, nothing is committed.
pub fn make_last<S: Alter>(tx: &mut Transaction<'_, S>, is_indexed: bool) -> Result<(), Fault>
    requires tables { IsClean S.Store tx.old.conn.now
        → (state S.Store tx.old.conn.now).now.schema
        ≡ cond is_indexed first_schema first_tables_schema }
    requires inside { StandsInTransaction S.Store tx.old.conn.now }
    ensures last { IsClean S.Store tx.new.conn.now
        → OnOk result (AddsLast (state S.Store tx.old.conn.now).now.trees
        (state S.Store tx.new.conn.now).now.trees) }
    ensures inside { OnOk result (MayWrite S.Store tx.new.conn.now) }
    ensures commits { CommitsNothing S.Store tx.old.conn.now tx.new.conn.now }
    ensures why { IsClean S.Store tx.new.conn.now
        → IfErr result (λ fault. (mid : Held S)
        × FailsAt (map (λ t. t.now) (cond is_indexed MOVES (drop DROPS MOVES)))
        (state S.Store tx.old.conn.now) (state S.Store mid) (state S.Store tx.new.conn.now) fault) }
    ensures same_reference { tx.new.conn.ghost_name ≡ tx.old.conn.ghost_name }
{
    if is_indexed {
        define_all(tx, &MOVES)
    } else {
        define_all(tx, &MOVES[DROPS..])
    }
}

/// Runs the texts that lead to a room's schema, up to the first that fails.
fn define_all<S: Alter>(tx: &mut Transaction<'_, S>, texts: &[&str]) -> Result<(), Fault>
    requires lead { IsClean S.Store tx.old.conn.now
        → Lead (state S.Store tx.old.conn.now).now.schema (map (λ t. t.now) texts.now) room_schema }
    requires inside { StandsInTransaction S.Store tx.old.conn.now }
    ensures rows { IsClean S.Store tx.new.conn.now
        → OnOk result (Grows (state S.Store tx.old.conn.now).now
        (state S.Store tx.new.conn.now).now) }
    ensures inside { OnOk result (MayWrite S.Store tx.new.conn.now) }
    ensures commits { CommitsNothing S.Store tx.old.conn.now tx.new.conn.now }
    ensures why { IsClean S.Store tx.new.conn.now
        → IfErr result (λ fault. (mid : Held S)
        × FailsAt (map (λ t. t.now) texts.now) (state S.Store tx.old.conn.now) (state S.Store mid)
        (state S.Store tx.new.conn.now) fault) }
    ensures same_reference { tx.new.conn.ghost_name ≡ tx.old.conn.ghost_name }
{
    for text in texts {
        write(tx, text, &[])?;
    }
    Ok(())
}
