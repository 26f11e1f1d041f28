//! Terminals in their table.

ghost use Rattle.std.specs.Prelude.{◌≡◌, false, map, IsTrue, IfOk, OnOk, IfErr, [], ◌∷◌, ◌↔◌};
ghost use Rattle.sqlite_value.specs.declared.value.Value.TheVariants.{Text};
ghost use Rattle.sqlite.specs.Held.{state};
ghost use Rattle.room_tables_schema.specs.TableTrees.{AreNumbered};
ghost use Rattle.room_tables_schema.specs.Outcomes.{ReadsInside, ReadsOnly, WritesInside};
ghost use Rattle.room_types.specs.KeyedRows.{IsKeyed, put_row};
ghost use Rattle.room_model.specs.FleetRows.{terminal_at as found_terminal, terminal_key};
ghost use Rattle.room_model.specs.FleetRows.{token_cmp};
ghost use Rattle.room_tables_rows.specs.TerminalSql.{terminal_row, is_terminal_row};
ghost use Rattle.room_tables_schema.specs.Schema.{terminals_table};
ghost use Rattle.room_tables_schema.specs.FileConnections.{HasRoomSchema, MayWrite, IsClean};
ghost use Rattle.room_tables_rows.specs.RoomsInTables.{StandsFor};
ghost use Rattle.room_tables_rows.specs.Writes.{Changes};
ghost use Rattle.room_tables_rows.specs.declared.terminal_sql.TheConstants.{ALL_TERMINALS};
ghost use Rattle.room_tables_rows.specs.declared.terminal_sql.TheConstants.{PUT_TERMINAL};
ghost use Rattle.room_tables_rows.specs.declared.terminal_sql.TheConstants.{TERMINAL_AT};
ghost use Rattle.room_tables.specs.Failures.{AreMoreThanOne, AreNoRows, ExplainsWhy};
ghost use Rattle.room_tables.specs.Failures.{ExplainsWhyUnwritten, IfStorage};
ghost use Rattle.room_tables.specs.FoundRows.{FindsInConfiguration};

use crate::loaded_rows::find;
use crate::statement_runs::run;
use room_tables_rows::column_values::{Field, Stored};
use room_tables_rows::terminal_sql::{ALL_TERMINALS, PUT_TERMINAL, TERMINAL_AT, terminal_columns};
use room_tables_schema::database_faults::Fault;
use room_tables_schema::queries::select_inside;
use room_types::fleet::Terminal;
use room_types::token::Token;
use sqlite::{Alter, Connection, Row, Transaction};
use std::alloc::Global;

/// All terminals, in the order of their tokens.
pub fn all_terminals<S: Alter>(
    alloc: Global,
    tx: &mut Transaction<'_, S>,
) -> Result<Vec<Terminal>, Fault>
    requires room { HasRoomSchema S.Store tx.old.conn.now }
    ensures terminals { FindsInConfiguration S.Store tx.old.conn.now tx.new.conn.now result
        (λ config terminals. terminals.items ≡ config.terminals) }
    ensures found { IsClean S.Store tx.new.conn.now
        → IfOk result (λ terminals.
        AreNumbered ((state S.Store tx.old.conn.now).now.trees terminals_table.tree)
        → StandsFor
        (state S.Store tx.old.conn.now).now.trees terminals_table terminal_row terminals.items) }
    ensures keyed { IfOk result (λ terminals. IsKeyed token_cmp terminal_key terminals.items) }
    ensures reads { ReadsInside S.Store tx.old.conn.now tx.new.conn.now result }
    ensures why { ExplainsWhy S.Store tx.old.conn.now tx.new.conn.now result ALL_TERMINALS.now []
        (AreNoRows is_terminal_row token_cmp terminal_key terminal_row) }
    ensures same_reference { tx.new.conn.ghost_name ≡ tx.old.conn.ghost_name }
{
    let shown = select_inside(tx, ALL_TERMINALS, &[])?;
    terminals_in(alloc, shown.as_slice())
}

// The terminals of rows in the order of their tokens.
fn terminals_in(alloc: Global, shown: &[Row]) -> Result<Vec<Terminal>, Fault>
    ensures shown { IfOk result (λ terminals. map terminal_row terminals.items ≡ shown.now) }
    ensures keyed { IfOk result (λ terminals. IsKeyed token_cmp terminal_key terminals.items) }
    ensures why { IfErr result (IfStorage
        (AreNoRows is_terminal_row token_cmp terminal_key terminal_row shown.now)) }
{
    let mut terminals = Vec::new(alloc);
    for columns in shown {
        let Some(terminal) = Terminal::read(columns) else {
            return Err(Fault::Storage);
        };
        terminals.push(terminal)?;
    }
    if are_in_order(terminals.as_slice()) {
        Ok(terminals)
    } else {
        Err(Fault::Storage)
    }
}

// Whether each token is below the next.
fn are_in_order(terminals: &[Terminal]) -> bool
    ensures { IsTrue result ↔ IsKeyed token_cmp terminal_key terminals.now }
{
    for at in 1..terminals.len() {
        if !terminals[at - 1].token.cmp(&terminals[at].token).is_lt() {
            return false;
        }
    }
    true
}

/// The terminal of a token.
pub fn terminal_at<S: Alter>(
    conn: &mut Connection<S>,
    token: &Token,
) -> Result<Option<Terminal>, Fault>
    requires room { HasRoomSchema S.Store conn.old }
    ensures row { FindsInConfiguration S.Store conn.old conn.new result (λ config row.
        row ≡ found_terminal token.now config.terminals) }
    ensures reads { ReadsOnly S.Store conn.old conn.new result }
    ensures why { ExplainsWhy S.Store conn.old conn.new result TERMINAL_AT.now (Text token.now
        ∷ []) (AreMoreThanOne is_terminal_row) }
{
    find(conn, TERMINAL_AT, &[token.store()])
}

/// Puts a terminal in its token's place.
pub fn put_terminal<S: Alter>(tx: &mut Transaction<'_, S>, terminal: &Terminal) -> Result<(), Fault>
    requires inside { MayWrite S.Store tx.old.conn.now }
    ensures ok { IsClean S.Store tx.new.conn.now
        → OnOk result (Changes (state S.Store tx.old.conn.now) (state S.Store tx.new.conn.now)
        (λ config. record config {
          terminals = put_row token_cmp terminal_key config.terminals
              terminal.now;
        }) (λ room. room)) }
    ensures writes { WritesInside S.Store tx.old.conn.now tx.new.conn.now result }
    ensures why { ExplainsWhyUnwritten S.Store tx.old.conn.now tx.new.conn.now result
        PUT_TERMINAL.now
        (terminal_row terminal.now) }
    ensures same_reference { tx.new.conn.ghost_name ≡ tx.old.conn.ghost_name }
{
    run(tx, PUT_TERMINAL, &terminal_columns(terminal))
}
