//! The terminals of one desk, position or crew, changed in one transaction.
ghost use Rattle.std.specs.Prelude.{◌≡◌, None, false, IfErr, OnOk};
ghost use Rattle.sqlite.specs.Held.{state};
ghost use Rattle.sqlite.specs.State.{Survives};
ghost use Rattle.room_model.specs.Room.{Room};
ghost use Rattle.room_tables_rows.specs.RoomsInTables.{Configuration, Stands};
ghost use Rattle.room_tables_rows.specs.Writes.{Changes};
ghost use Rattle.room_tables_schema.specs.FileConnections.{HasRoomSchema, MayWrite, IsClean};
ghost use Rattle.room_tables_schema.specs.Schema.{room_schema};
ghost use Rattle.room_tables_schema.specs.Outcomes.{CommitsNothing, ReadsInside};
ghost use Rattle.room_store_writes.specs.Transactions.{IsSettled, LeavesOnErr, StandsSettled};
ghost use Rattle.room_store_writes.specs.TerminalChanges.{Explains, Gives, fault_in, config_by};

use crate::change_faults::{ChangeFault, TokenChange, fault_in};
use crate::dropped_terminals::drop_of;
use crate::transactions::end;
use room_place::plans::Plan;
use room_tables::terminal_table::{all_terminals, put_terminal};
use room_tables_schema::database_faults::Fault;
use room_types::fleet::Terminal;
use sqlite::{Alter, Connection, Transaction};
use std::alloc::Global;

/// Gives a user only this token, or none, in one transaction; all other terminals and all rows of
/// other tables stay. A fault leaves the room as it was. What a stop may leave is what it could
/// before, or the room with the terminals afterwards.
pub fn change<S: Alter>(
    alloc: Global,
    conn: &mut Connection<S>,
    plan: &Plan,
    change: &TokenChange,
) -> Result<(), ChangeFault>
    requires room { HasRoomSchema S.Store conn.old }
    requires outside { conn.old.in_transaction ≡ false }
    requires settled { StandsSettled S.Store conn.old }
    ensures ok { IsClean S.Store conn.new
        → OnOk result (Gives plan.now.areas change.now.who change.now.token
        (state S.Store conn.old).now.trees
        (state S.Store conn.new).now.trees) }
    ensures settled { IsClean S.Store conn.new
        → OnOk result (IsSettled (state S.Store conn.new)
        × ((state S.Store conn.new).now.schema ≡ room_schema)) }
    ensures why { IsClean S.Store conn.new
        → IfErr result (Explains plan.now.areas change.now.who change.now.token
        (state S.Store conn.old).now.trees) }
    ensures err { LeavesOnErr S.Store conn.old conn.new result }
    ensures ended { conn.new.in_transaction ≡ false }
    ensures survives { Survives (state S.Store conn.old) (state S.Store conn.new)
        (Gives plan.now.areas change.now.who change.now.token
        (state S.Store conn.old).now.trees) }
{
    let mut tx = conn.transaction();
    let done = change_inside(alloc, &mut tx, plan, change);
    end(tx, done)
}

// Changes them, where nothing speaks against it.
fn change_inside<S: Alter>(
    alloc: Global,
    tx: &mut Transaction<'_, S>,
    plan: &Plan,
    change: &TokenChange,
) -> Result<(), ChangeFault>
    requires inside { MayWrite S.Store tx.old.conn.now }
    ensures same_reference { tx.new.conn.ghost_name ≡ tx.old.conn.ghost_name }
    ensures ok { IsClean S.Store tx.new.conn.now
        → OnOk result (MayWrite S.Store tx.new.conn.now
        × Gives plan.now.areas change.now.who change.now.token
        (state S.Store tx.old.conn.now).now.trees
        (state S.Store tx.new.conn.now).now.trees) }
    ensures why { IsClean S.Store tx.new.conn.now
        → IfErr result (Explains plan.now.areas change.now.who change.now.token
        (state S.Store tx.old.conn.now).now.trees) }
    ensures commits { CommitsNothing S.Store tx.old.conn.now tx.new.conn.now }
{
    find_fault(alloc, tx, plan, change)?;
    replace(tx, change)?;
    Ok(())
}

// Fails where something speaks against it.
fn find_fault<S: Alter>(
    alloc: Global,
    tx: &mut Transaction<'_, S>,
    plan: &Plan,
    change: &TokenChange,
) -> Result<(), ChangeFault>
    requires room { HasRoomSchema S.Store tx.old.conn.now }
    ensures same_reference { tx.new.conn.ghost_name ≡ tx.old.conn.ghost_name }
    ensures ok { IsClean S.Store tx.new.conn.now
        → OnOk result ((config : Configuration) (room : Room)
        → Stands (state S.Store tx.old.conn.now).now.trees config room
        → fault_in plan.now.areas config.terminals change.now.who change.now.token ≡ None) }
    ensures why { IsClean S.Store tx.new.conn.now
        → IfErr result (Explains plan.now.areas change.now.who change.now.token
        (state S.Store tx.old.conn.now).now.trees) }
    ensures reads { ReadsInside S.Store tx.old.conn.now tx.new.conn.now result }
{
    let terminals = all_terminals(alloc, tx)?;
    match fault_in(plan, terminals.as_slice(), change) {
        Some(fault) => Err(fault),
        None => Ok(()),
    }
}

// Drops all terminals of a user, and puts one with this token.
fn replace<S: Alter>(tx: &mut Transaction<'_, S>, change: &TokenChange) -> Result<(), Fault>
    requires inside { MayWrite S.Store tx.old.conn.now }
    ensures same_reference { tx.new.conn.ghost_name ≡ tx.old.conn.ghost_name }
    ensures ok { IsClean S.Store tx.new.conn.now
        → OnOk result (Changes (state S.Store tx.old.conn.now) (state S.Store tx.new.conn.now)
        (config_by change.now.who change.now.token) (λ room. room)) }
    ensures commits { CommitsNothing S.Store tx.old.conn.now tx.new.conn.now }
{
    drop_of(tx, &change.who)?;
    match change.token {
        Some(token) => put_terminal(
            tx,
            &Terminal {
                token,
                who: change.who,
            },
        ),
        None => Ok(()),
    }
}
