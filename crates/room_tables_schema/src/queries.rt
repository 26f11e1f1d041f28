//! Queries that write nothing, whether they succeed or fail, on a connection and inside a
//! transaction.

ghost use Rattle.std.specs.Prelude.{◌≡◌, IfOk, IfErr};
ghost use Rattle.sqlite.specs.Given.{IsPlain};
ghost use Rattle.sqlite.specs.Held.{state};
ghost use Rattle.sqlite.specs.Listing.{understood};
ghost use Rattle.sqlite.specs.State.{FailsToQuery, Shown};
ghost use Rattle.sqlite.specs.Values.{bound};
ghost use Rattle.room_tables_schema.specs.Outcomes.{ReadsInside, ReadsOnly};
ghost use Rattle.room_tables_schema.specs.FileConnections.{IsClean};

use sqlite::{Alter, Connection, Error, Row, Transaction};
use sqlite_value::value::ValueRef;

/// The rows that a query shows. It changes nothing, also where memory or storage fails, but that a
/// failed store undoes the transaction, and it leaves nothing more to a stop.
pub fn select<S: Alter>(
    conn: &mut Connection<S>,
    text: &str,
    params: &[ValueRef<'_>],
) -> Result<Vec<Row>, Error>
    requires { IsClean S.Store conn.old
        → IsPlain (understood (state S.Store conn.old).now.schema text.now) }
    ensures shown { IsClean S.Store conn.new
        → IfOk result (λ rows. Shown text.now (bound params.now) (state S.Store conn.old)
        (state S.Store conn.new) rows.items) }
    ensures reads { ReadsOnly S.Store conn.old conn.new result }
    ensures why { IsClean S.Store conn.new
        → IfErr result (FailsToQuery text.now (bound params.now) (state S.Store conn.old)
        (state S.Store conn.new)) }
{
    conn.query_all(text, params)
}

/// The rows that a query shows inside a transaction. It changes nothing, also where memory or
/// storage fails, but that a failed store undoes the transaction, and it leaves nothing more to a
/// stop.
pub fn select_inside<S: Alter>(
    tx: &mut Transaction<'_, S>,
    text: &str,
    params: &[ValueRef<'_>],
) -> Result<Vec<Row>, Error>
    requires { IsClean S.Store tx.old.conn.now
        → IsPlain (understood (state S.Store tx.old.conn.now).now.schema text.now) }
    ensures shown { IsClean S.Store tx.new.conn.now
        → IfOk result (λ rows. Shown text.now (bound params.now) (state S.Store tx.old.conn.now)
        (state S.Store tx.new.conn.now) rows.items) }
    ensures reads { ReadsInside S.Store tx.old.conn.now tx.new.conn.now result }
    ensures why { IsClean S.Store tx.new.conn.now
        → IfErr result (FailsToQuery text.now (bound params.now) (state S.Store tx.old.conn.now)
        (state S.Store tx.new.conn.now)) }
    ensures same_reference { tx.new.conn.ghost_name ≡ tx.old.conn.ghost_name }
{
    tx.query_all(text, params)
}
