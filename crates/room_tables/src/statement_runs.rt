//! Statements that change the room's rows, each inside a transaction.

ghost use Rattle.std.specs.Prelude.{◌≡◌, OnOk};
ghost use Rattle.sqlite.specs.Held.{state};
ghost use Rattle.sqlite.specs.Values.{bound};
ghost use Rattle.room_tables.specs.Failures.{ExplainsWhyUnwritten};
ghost use Rattle.room_tables.specs.ChangeStatements.{Ran};
ghost use Rattle.room_tables_schema.specs.FileConnections.{MayWrite, IsClean};
ghost use Rattle.room_tables_schema.specs.Outcomes.{WritesInside};

use room_tables_schema::database_faults::Fault;
use room_tables_schema::statements::write;
use sqlite::{Alter, Transaction};
use sqlite_value::value::ValueRef;

/// Runs a statement on the room's tables.
pub(crate) fn run<S: Alter>(
    tx: &mut Transaction<'_, S>,
    text: &str,
    params: &[ValueRef<'_>],
) -> Result<(), Fault>
    requires inside { MayWrite S.Store tx.old.conn.now }
    ensures ran { IsClean S.Store tx.new.conn.now
        → OnOk result (Ran text.now (bound params.now) (state S.Store tx.old.conn.now)
        (state S.Store tx.new.conn.now)) }
    ensures writes { WritesInside S.Store tx.old.conn.now tx.new.conn.now result }
    ensures why { ExplainsWhyUnwritten S.Store tx.old.conn.now tx.new.conn.now result text.now
        (bound params.now) }
    ensures same_reference { tx.new.conn.ghost_name ≡ tx.old.conn.ghost_name }
{
    write(tx, text, params)?;
    Ok(())
}
