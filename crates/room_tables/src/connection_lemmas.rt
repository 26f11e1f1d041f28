//! A lemma on a connection: the function does nothing.
ghost use Rattle.std.specs.Prelude.{◌≡◌, false, IsTrue};
ghost use Rattle.sqlite.specs.Held.{state};

use sqlite::{Alter, Connection};

/// Outside a transaction the tables of an open file are as they were committed.
pub fn lemma_committed<S: Alter>(conn: &Connection<S>)
    ensures { conn.now.in_transaction ≡ false → IsTrue (state S.Store conn.now).is_open
        → (state S.Store conn.now).now ≡ (state S.Store conn.now).committed }
{
    let _ = conn.is_autocommit();
}
