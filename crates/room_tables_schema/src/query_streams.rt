//! Queries whose rows are taken one at a time, so that no more than one is held.

ghost use Rattle.std.specs.Prelude.{◌≡◌, ◌++◌, ◌⊎◌, [], ◌∷◌, List, IfErr, OnOk};
ghost use Rattle.sqlite_value.specs.Order.{Row as Values};
ghost use Rattle.sqlite.specs.declared.error.Error.TheVariants.{SqliteFailure};
ghost use Rattle.sqlite.specs.declared.error.ErrorCode.TheVariants.{OutOfMemory};
ghost use Rattle.sqlite.specs.Given.{IsPlain};
ghost use Rattle.sqlite.specs.Held.{state};
ghost use Rattle.sqlite.specs.Listing.{understood};
ghost use Rattle.sqlite.specs.State.{FailsToQuery, Shown};
ghost use Rattle.sqlite.specs.Values.{bound};
ghost use Rattle.room_tables_schema.specs.Outcomes.{ReadsOnly};
ghost use Rattle.room_tables_schema.specs.QueryStreams.{ReadsOut};
ghost use Rattle.room_tables_schema.specs.FileConnections.{IsClean};

use sqlite::{Alter, Connection, Error, ErrorCode, Row};
use sqlite_value::value::ValueRef;

/// What takes the rows that a query shows, one after another.
pub trait RowSink {
    /// What rows that are taken one after another make of it.
    ghost takes: { Self → List Values → Self → Type 0 };

    /// Takes the next row.
    fn take(&mut self, row: &Row)
        ensures { (first : Self) (rows : List Values) → takes first rows self.old
            → takes first (rows ++ row.now ∷ []) self.new };

    /// Before the first it is as it was.
    ghost begins: { (x : Self) → takes x [] x };
}

/// Hands the rows that a query shows over, one at a time. It changes nothing in the tables, also
/// where memory or storage fails, but that a failed store undoes the transaction, and it leaves
/// nothing more to a stop.
pub fn stream<T: RowSink, S: Alter>(
    conn: &mut Connection<S>,
    text: &str,
    params: &[ValueRef<'_>],
    taker: &mut T,
) -> Result<(), Error>
    requires { IsClean S.Store conn.old
        → IsPlain (understood (state S.Store conn.old).now.schema text.now) }
    ensures shown { IsClean S.Store conn.new
        → OnOk result ((rows : List Values) × Shown text.now (bound params.now)
        (state S.Store conn.old) (state S.Store conn.new) rows × T.takes taker.old rows taker.new) }
    ensures reads { ReadsOnly S.Store conn.old conn.new result }
    ensures why { IsClean S.Store conn.new
        → IfErr result (λ e. (e ≡ SqliteFailure OutOfMemory) ⊎ FailsToQuery text.now
        (bound params.now) (state S.Store conn.old) (state S.Store conn.new) e) }
{
    let mut shown = conn.query(text, params)?;
    read_out(&mut shown, taker)
}

// The rows that a query shows, from its first on, handed to a taker.
fn read_out<T: RowSink, S: Alter>(
    shown: &mut sqlite::Rows<'_, S>,
    taker: &mut T,
) -> Result<(), Error>
    ensures read { ReadsOut S.Store (λ rows. T.takes taker.old rows taker.new) shown.old.conn.now
        shown.new.conn.now result }
    ensures same_reference { shown.new.conn.ghost_name ≡ shown.old.conn.ghost_name }
{
    'shown: for _ in 0..u64::MAX {
        shown.advance()?;
        let Some(row) = shown.get() else {
            return Ok(());
        };
        taker.take(row);
    }
    Err(Error::SqliteFailure(ErrorCode::OutOfMemory))
}
