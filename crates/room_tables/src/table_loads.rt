//! Rows of any table: all of them, and that of a key.

ghost use Rattle.std.specs.Prelude.{◌≡◌, IfOk, []};
ghost use Rattle.sqlite.specs.Held.{state};
ghost use Rattle.room_tables_schema.specs.FileConnections.{HasRoomSchema, IsClean};
ghost use Rattle.room_tables_schema.specs.TableTrees.{AreNumbered};
ghost use Rattle.room_tables_schema.specs.Outcomes.{ReadsInside, ReadsOnly};
ghost use Rattle.room_types.specs.KeyedRows.{row_at};
ghost use Rattle.room_tables_rows.specs.RoomsInTables.{StandsFor};
ghost use Rattle.room_tables.specs.Failures.{AreMoreThanOne, AreNoRows, ExplainsWhy};
ghost use Rattle.room_tables.specs.FoundRows.{Finds};

use crate::loaded_rows::{find, rows_of};
use crate::room_table::Table;
use room_tables_schema::database_faults::Fault;
use room_tables_schema::queries::select_inside;
use room_types::rows::Rows;
use sqlite::{Alter, Connection, Transaction};
use std::alloc::Global;

/// All rows of a table, read inside a transaction.
pub fn all_rows<X: Table, S: Alter>(
    alloc: Global,
    tx: &mut Transaction<'_, S>,
) -> Result<Rows<X>, Fault>
    requires room { HasRoomSchema S.Store tx.old.conn.now }
    ensures rows { Finds S.Store tx.old.conn.now tx.new.conn.now result (λ room rows.
        rows ≡ X.rows room) }
    ensures found { IsClean S.Store tx.new.conn.now
        → IfOk result (λ rows. AreNumbered ((state S.Store tx.old.conn.now).now.trees X.table.tree)
        → StandsFor (state S.Store tx.old.conn.now).now.trees X.table X.cells rows) }
    ensures reads { ReadsInside S.Store tx.old.conn.now tx.new.conn.now result }
    ensures why { ExplainsWhy S.Store tx.old.conn.now tx.new.conn.now result X.texts.all []
        (AreNoRows X.is_row X.Key.cmp X.key_of X.cells) }
    ensures same_reference { tx.new.conn.ghost_name ≡ tx.old.conn.ghost_name }
{
    let shown = select_inside(tx, X::statements().all, &[])?;
    rows_of(alloc, shown.as_slice())
}

/// The row of a key; none where no row has it.
pub fn row_at<X: Table, S: Alter>(
    conn: &mut Connection<S>,
    key: &X::Key,
) -> Result<Option<X>, Fault>
    requires room { HasRoomSchema S.Store conn.old }
    ensures row { Finds S.Store conn.old conn.new result (λ room row.
        row ≡ row_at X.Key.cmp X.key_of (X.rows room) key.now) }
    ensures reads { ReadsOnly S.Store conn.old conn.new result }
    ensures why { ExplainsWhy S.Store conn.old conn.new result X.texts.at (X.key_cells key.now)
        (AreMoreThanOne X.is_row) }
{
    find(conn, X::statements().at, X::key_columns(key).as_slice())
}
