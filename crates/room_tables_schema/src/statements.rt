//! Statements in a transaction, which commit nothing, whether they succeed or fail.

ghost use Rattle.std.specs.Prelude.{◌≡◌, ℕ, Ok, Err, IfOk, IfErr, OnOk, true, false};
ghost use Rattle.sqlite.specs.Held.{state};
ghost use Rattle.sqlite.specs.State.{Executes, ExecutesInside, IsUnchanged};
ghost use Rattle.sqlite.specs.Values.{bound};
ghost use Rattle.room_tables_schema.specs.Outcomes.{Inside, WritesInside};
ghost use Rattle.room_tables_schema.specs.FileConnections.{IsClean, StandsInTransaction};

use sqlite::{Alter, Error, ErrorCode, Transaction};
use sqlite_value::value::ValueRef;

/// Runs a statement in a transaction, and gives the count of rows that it wrote. Where it is
/// refused, or memory or storage fails, nothing is changed, but that a failed store undoes the
/// transaction; nothing more is left to a stop either way.
pub fn write<S: Alter>(
    tx: &mut Transaction<'_, S>,
    text: &str,
    params: &[ValueRef<'_>],
) -> Result<usize, Error>
    requires { StandsInTransaction S.Store tx.old.conn.now }
    ensures ran { IsClean S.Store tx.new.conn.now
        → IfOk result (λ count. Executes text.now (bound params.now)
        (state S.Store tx.old.conn.now) (state S.Store tx.new.conn.now) (Ok count)) }
    ensures ok { IsClean S.Store tx.new.conn.now
        → OnOk result (Inside (state S.Store tx.old.conn.now) (state S.Store tx.new.conn.now)) }
    ensures writes { WritesInside S.Store tx.old.conn.now tx.new.conn.now result }
    ensures why { IsClean S.Store tx.new.conn.now
        → IfErr result (λ e. ExecutesInside 0 text.now (bound params.now)
        (state S.Store tx.old.conn.now) (state S.Store tx.new.conn.now) (Err e)) }
    ensures same_reference { tx.new.conn.ghost_name ≡ tx.old.conn.ghost_name }
{
    tx.execute(text, params)
}

/// Runs an insertion in a transaction, and says whether it was made. It isn't where it breaks a
/// rule of its table, as where another row has its key: then nothing is changed, and the
/// transaction goes on. All else is as with `write`.
pub fn insert<S: Alter>(
    tx: &mut Transaction<'_, S>,
    text: &str,
    params: &[ValueRef<'_>],
) -> Result<bool, Error>
    requires { StandsInTransaction S.Store tx.old.conn.now }
    ensures made { IsClean S.Store tx.new.conn.now → result ≡ Ok true
        → (count : ℕ) × Executes text.now (bound params.now) (state S.Store tx.old.conn.now)
        (state S.Store tx.new.conn.now) (Ok count) }
    ensures refused { IsClean S.Store tx.new.conn.now → result ≡ Ok false
        → IsUnchanged (state S.Store tx.old.conn.now) (state S.Store tx.new.conn.now) }
    ensures ok { IsClean S.Store tx.new.conn.now
        → OnOk result (Inside (state S.Store tx.old.conn.now) (state S.Store tx.new.conn.now)) }
    ensures writes { WritesInside S.Store tx.old.conn.now tx.new.conn.now result }
    ensures why { IsClean S.Store tx.new.conn.now
        → IfErr result (λ e. ExecutesInside 0 text.now (bound params.now)
        (state S.Store tx.old.conn.now) (state S.Store tx.new.conn.now) (Err e)) }
    ensures same_reference { tx.new.conn.ghost_name ≡ tx.old.conn.ghost_name }
{
    match tx.execute(text, params) {
        Ok(_) => Ok(true),
        Err(Error::SqliteFailure(ErrorCode::ConstraintViolation(_))) => Ok(false),
        Err(error) => Err(error),
    }
}
