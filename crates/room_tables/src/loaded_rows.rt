//! Selections, read as rows of the room.

ghost use Rattle.std.specs.Prelude.{◌≡◌, map, IfOk, IfErr};
ghost use Rattle.sqlite.specs.Given.{IsPlain};
ghost use Rattle.sqlite.specs.Held.{state};
ghost use Rattle.sqlite.specs.Listing.{understood};
ghost use Rattle.sqlite.specs.State.{Shown};
ghost use Rattle.sqlite.specs.Values.{bound};
ghost use Rattle.room_tables_schema.specs.Outcomes.{ReadsOnly};
ghost use Rattle.room_types.specs.KeyedRows.{IsKeyed};
ghost use Rattle.room_tables_rows.specs.OptionalRows.{listed};
ghost use Rattle.room_tables.specs.Failures.{AreMoreThanOne, AreNoRows, ExplainsWhy, IfStorage};
ghost use Rattle.room_tables_schema.specs.FileConnections.{IsClean};

use crate::room_table::Table;
use crate::row_streams::Reader;
use room_tables_rows::column_values::Stored;
use room_tables_schema::database_faults::Fault;
use room_tables_schema::queries::select;
use room_tables_schema::query_streams::RowSink;
use room_types::rows::Rows;
use sqlite::{Alter, Connection};
use sqlite_value::value::ValueRef;
use std::alloc::Global;

/// The rows that a selection shows. A row that is none of its table is `Storage`, and so are rows
/// whose keys don't rise.
pub(crate) fn load<X: Table, S: Alter>(
    alloc: Global,
    conn: &mut Connection<S>,
    text: &str,
    params: &[ValueRef<'_>],
) -> Result<Rows<X>, Fault>
    requires { IsClean S.Store conn.old
        → IsPlain (understood (state S.Store conn.old).now.schema text.now) }
    ensures shown { IsClean S.Store conn.new
        → IfOk result (λ rows. Shown text.now (bound params.now) (state S.Store conn.old)
        (state S.Store conn.new) (map X.cells rows)) }
    ensures keyed { IfOk result (IsKeyed X.Key.cmp X.key_of) }
    ensures reads { ReadsOnly S.Store conn.old conn.new result }
    ensures why { ExplainsWhy S.Store conn.old conn.new result text.now (bound params.now)
        (AreNoRows X.is_row X.Key.cmp X.key_of X.cells) }
{
    let shown = select(conn, text, params)?;
    rows_of(alloc, shown.as_slice())
}

/// The row that a selection by a key shows; none where it shows none.
pub(crate) fn find<X: Stored, S: Alter>(
    conn: &mut Connection<S>,
    text: &str,
    params: &[ValueRef<'_>],
) -> Result<Option<X>, Fault>
    requires { IsClean S.Store conn.old
        → IsPlain (understood (state S.Store conn.old).now.schema text.now) }
    ensures shown { IsClean S.Store conn.new
        → IfOk result (λ row. Shown text.now (bound params.now) (state S.Store conn.old)
        (state S.Store conn.new) (map X.cells (listed row))) }
    ensures reads { ReadsOnly S.Store conn.old conn.new result }
    ensures why { ExplainsWhy S.Store conn.old conn.new result text.now (bound params.now)
        (AreMoreThanOne X.is_row) }
{
    let shown = select(conn, text, params)?;
    row_of(shown.as_slice())
}

/// The rows that stand in columns, in the order of their keys.
pub(crate) fn rows_of<X: Table>(alloc: Global, shown: &[sqlite::Row]) -> Result<Rows<X>, Fault>
    ensures shown { IfOk result (λ rows. map X.cells rows ≡ shown.now) }
    ensures keyed { IfOk result (IsKeyed X.Key.cmp X.key_of) }
    ensures why { IfErr result (IfStorage
        (AreNoRows X.is_row X.Key.cmp X.key_of X.cells shown.now)) }
{
    let mut reader = Reader::new(Rows::new(alloc));
    for columns in shown {
        reader.take(columns);
    }
    reader.end()
}

/// The one row that stands in columns, or none.
pub(crate) fn row_of<X: Stored>(shown: &[sqlite::Row]) -> Result<Option<X>, Fault>
    ensures shown { IfOk result (λ row. map X.cells (listed row) ≡ shown.now) }
    ensures why { IfErr result (IfStorage (AreMoreThanOne X.is_row shown.now)) }
{
    match shown {
        [] => Ok(None),
        [columns] => match X::read(columns) {
            Some(row) => Ok(Some(row)),
            None => Err(Fault::Storage),
        },
        _ => Err(Fault::Storage),
    }
}
