//! The tables of terminals and of areas, emptied to be filled anew.
ghost use Rattle.std.specs.Prelude.{◌≡◌, [], OnOk};
ghost use Rattle.sqlite.specs.Held.{state};
ghost use Rattle.room_tables_schema.specs.Outcomes.{WritesInside};
ghost use Rattle.room_tables_rows.specs.Writes.{Changes};
ghost use Rattle.room_tables_schema.specs.FileConnections.{MayWrite, IsClean};

use room_tables_schema::database_faults::Fault;
use room_tables_schema::statements::write;
use sqlite::{Alter, Transaction};

pub const CLEAR_TERMINALS: &str = "DELETE FROM terminals";

pub const CLEAR_AREAS: &str = "DELETE FROM areas";

/// Drops all terminals.
pub fn clear_terminals<S: Alter>(tx: &mut Transaction<'_, S>) -> Result<(), Fault>
    requires inside { MayWrite S.Store tx.old.conn.now }
    ensures ok { IsClean S.Store tx.new.conn.now
        → OnOk result (Changes (state S.Store tx.old.conn.now) (state S.Store tx.new.conn.now)
        (λ config. record config { terminals = [] }) (λ room. room)) }
    ensures writes { WritesInside S.Store tx.old.conn.now tx.new.conn.now result }
    ensures same_reference { tx.new.conn.ghost_name ≡ tx.old.conn.ghost_name }
{
    write(tx, CLEAR_TERMINALS, &[])?;
    Ok(())
}

/// Drops all areas.
pub fn clear_areas<S: Alter>(tx: &mut Transaction<'_, S>) -> Result<(), Fault>
    requires inside { MayWrite S.Store tx.old.conn.now }
    ensures ok { IsClean S.Store tx.new.conn.now
        → OnOk result (Changes (state S.Store tx.old.conn.now) (state S.Store tx.new.conn.now)
        (λ config. config) (λ room. record room { plan = [] })) }
    ensures writes { WritesInside S.Store tx.old.conn.now tx.new.conn.now result }
    ensures same_reference { tx.new.conn.ghost_name ≡ tx.old.conn.ghost_name }
{
    write(tx, CLEAR_AREAS, &[])?;
    Ok(())
}
