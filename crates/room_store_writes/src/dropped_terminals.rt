//! The terminals of one desk, position or crew, dropped from their table.
ghost use Rattle.std.specs.Prelude.{◌≡◌, Bool, OnOk, filter, not};
ghost use Rattle.sqlite.specs.Held.{state};
ghost use Rattle.sqlite.specs.Values.{bound};
ghost use Rattle.room_tables_schema.specs.Outcomes.{WritesInside};
ghost use Rattle.room_tables_schema.specs.TypedRows.{number};
ghost use Rattle.room_tables_schema.specs.FileConnections.{MayWrite, IsClean};
ghost use Rattle.room_tables_schema.specs.Schema.{terminals_table};
ghost use Rattle.room_tables_rows.specs.Tables.{DeletesChosen};
ghost use Rattle.room_tables_rows.specs.TerminalSql.{terminal_row};
ghost use Rattle.room_tables_rows.specs.Writes.{Changes};
ghost use Rattle.room_types.specs.declared.fleet.Terminal.{Terminal};
ghost use Rattle.room_store_writes.specs.TerminalHolders.{without};

use room_tables_rows::column_values::Field;
use room_tables_schema::database_faults::Fault;
use room_tables_schema::statements::write;
use room_types::asks::Who;
use sqlite::{Alter, Transaction};
use sqlite_value::value::ValueRef;

// What a desk is, and a position, in the column of roles.
const DESK: i64 = 0;

const POSITION: i64 = 1;

pub const DROP_NUMBERED: &str = "DELETE FROM terminals WHERE role = ?1 AND number = ?2";

pub const DROP_CREWS: &str = "DELETE FROM terminals WHERE callsign = ?1";

/// Drops all terminals of a desk, a position or a crew.
pub fn drop_of<S: Alter>(tx: &mut Transaction<'_, S>, who: &Who) -> Result<(), Fault>
    requires inside { MayWrite S.Store tx.old.conn.now }
    ensures ok { IsClean S.Store tx.new.conn.now
        → OnOk result (Changes (state S.Store tx.old.conn.now) (state S.Store tx.new.conn.now)
        (λ config. record config { terminals = without who.now config.terminals }) (λ room. room)) }
    ensures writes { WritesInside S.Store tx.old.conn.now tx.new.conn.now result }
    ensures same_reference { tx.new.conn.ghost_name ≡ tx.old.conn.ghost_name }
{
    match who {
        Who::Desk(division) => {
            drop_where(tx, DROP_NUMBERED, &[ValueRef::Int(DESK), division.store()])
        }
        Who::Position(position) => {
            drop_where(
                tx,
                DROP_NUMBERED,
                &[ValueRef::Int(POSITION), position.store()],
            )
        }
        Who::Crew(callsign) => drop_where(tx, DROP_CREWS, &[callsign.store()]),
    }
}

// Drops the terminals that a statement chooses.
fn drop_where<S: Alter>(
    tx: &mut Transaction<'_, S>,
    text: &str,
    params: &[ValueRef<'_>],
) -> Result<(), Fault>
    requires inside { MayWrite S.Store tx.old.conn.now }
    ensures ok { IsClean S.Store tx.new.conn.now
        → OnOk result ((chosen : Terminal → Bool)
        → DeletesChosen terminals_table terminal_row 2 text.now (bound params.now) chosen
        → Changes (state S.Store tx.old.conn.now) (state S.Store tx.new.conn.now)
        (λ config. record config {
          terminals = filter (λ t. not (chosen t)) config.terminals;
        }) (λ room. room)) }
    ensures writes { WritesInside S.Store tx.old.conn.now tx.new.conn.now result }
    ensures same_reference { tx.new.conn.ghost_name ≡ tx.old.conn.ghost_name }
{
    write(tx, text, params)?;
    Ok(())
}
