//! The terminals of all that a list names, replaced in the room of a database.
ghost use Rattle.std.specs.Prelude.{◌≡◌, false, length, IfErr, IfOk, OnOk};
ghost use Rattle.sqlite.specs.Held.{state};
ghost use Rattle.sqlite.specs.State.{Survives};
ghost use Rattle.room_types.specs.KeyedRows.{IsKeyed};
ghost use Rattle.room_model.specs.FleetRows.{terminal_key, token_cmp};
ghost use Rattle.room_model.specs.Room.{Room};
ghost use Rattle.room_tables_rows.specs.RoomsInTables.{Configuration, Stands};
ghost use Rattle.room_tables_schema.specs.FileConnections.{HasRoomSchema, MayWrite, IsClean};
ghost use Rattle.room_tables_schema.specs.Schema.{room_schema};
ghost use Rattle.room_tables_schema.specs.Outcomes.{CommitsNothing, ReadsInside};
ghost use Rattle.room_store_writes.specs.NewRoom.{in_order, put_all};
ghost use Rattle.room_store_writes.specs.Transactions.{IsSettled, Leaves, LeavesOnErr};
ghost use Rattle.room_store_writes.specs.Transactions.{StandsSettled};
ghost use Rattle.dispatch_room_tasks.specs.OpenedRoom.{HoldsNone};
ghost use Rattle.dispatch_room_tasks.specs.ReplacedTerminals.{AreFree, ExplainsRow, HasReplaced};
ghost use Rattle.dispatch_room_tasks.specs.ReplacedTerminals.{Replaces, failure_of, kept_beside};
ghost use Rattle.dispatch_room_tasks.specs.declared.replacement_faults.ReplaceFault.{ReplaceFault as Why};

use crate::cleared_tables::clear_terminals;
use crate::opened_room::TaskResult;
use crate::opening_faults::of_opening;
use crate::replacement_causes::explain;
use crate::replacement_faults::{ReplaceFault, failure_of, first_refused, is_listed};
use dispatch_room_exit::exit_status::Failure;
use dispatch_room_exit::failure_causes::Explainer;
use room_place::plans::Plan;
use room_store_file::opened_file::open_in;
use room_store_writes::transactions::end;
use room_tables::terminal_table::{all_terminals, put_terminal};
use room_tables_schema::database_faults::Fault;
use room_types::fleet::Terminal;
use sqlite::{Alter, Connection, Transaction};
use std::alloc::{AllocError, Global};

/// Gives all that a list names the terminals that it gives them, and no others, in the room of a
/// database. Where a row is refused, nothing is changed, and the first such row is explained.
pub fn replace_in<S: Alter + Drop>(
    alloc: Global,
    explainer: Explainer<'_>,
    mut conn: Connection<S>,
    listed: &[Terminal],
) -> TaskResult<(), S>
    requires outside { conn.in_transaction ≡ false }
    ensures replaced { IfOk result (λ worked.
        HasReplaced S.Store conn worked.1 listed.now worked.0) }
    ensures ended { IfOk result (λ worked. worked.1.in_transaction ≡ false) }
    ensures fault { IfErr result (HoldsNone S.Store conn) }
{
    match open_in(alloc, &mut conn) {
        Ok(plan) => {
            let done = replace_opened(alloc, explainer, &mut conn, &plan, listed);
            Ok((done, conn))
        }
        Err(fault) => Err(of_opening(fault)),
    }
}

// Replaces them in the room of a file that is opened.
fn replace_opened<S: Alter>(
    alloc: Global,
    explainer: Explainer<'_>,
    conn: &mut Connection<S>,
    plan: &Plan,
    listed: &[Terminal],
) -> Result<(), Failure>
    requires room { HasRoomSchema S.Store conn.old }
    requires outside { conn.old.in_transaction ≡ false }
    requires settled { StandsSettled S.Store conn.old }
    ensures replaced { IsClean S.Store conn.new
        → OnOk result (Replaces plan.now.areas listed.now (state S.Store conn.old).now.trees
        (state S.Store conn.new).now.trees × IsSettled (state S.Store conn.new)) }
    ensures unchanged { IsClean S.Store conn.new
        → IfErr result (λ failure. (fault : Why) × (failure ≡ failure_of fault)
        × ExplainsRow plan.now.areas listed.now (state S.Store conn.old).now.trees fault
        × Leaves (state S.Store conn.old) (state S.Store conn.new)) }
    ensures ended { conn.new.in_transaction ≡ false }
    ensures survives { Survives (state S.Store conn.old) (state S.Store conn.new)
        (Replaces plan.now.areas listed.now (state S.Store conn.old).now.trees) }
{
    match replace_all(alloc, conn, plan, listed) {
        Ok(()) => Ok(()),
        Err(fault) => {
            explain(explainer, listed, fault);
            Err(failure_of(fault))
        }
    }
}

// Replaces them in one transaction. A fault leaves the room as it was. What a stop may leave is
// what it could before, or the room with the terminals afterwards.
fn replace_all<S: Alter>(
    alloc: Global,
    conn: &mut Connection<S>,
    plan: &Plan,
    listed: &[Terminal],
) -> Result<(), ReplaceFault>
    requires room { HasRoomSchema S.Store conn.old }
    requires outside { conn.old.in_transaction ≡ false }
    requires settled { StandsSettled S.Store conn.old }
    ensures ok { IsClean S.Store conn.new
        → OnOk result (Replaces plan.now.areas listed.now (state S.Store conn.old).now.trees
        (state S.Store conn.new).now.trees) }
    ensures settled { IsClean S.Store conn.new
        → OnOk result (IsSettled (state S.Store conn.new)
        × ((state S.Store conn.new).now.schema ≡ room_schema)) }
    ensures why { IsClean S.Store conn.new
        → IfErr result (ExplainsRow plan.now.areas listed.now
        (state S.Store conn.old).now.trees) }
    ensures err { LeavesOnErr S.Store conn.old conn.new result }
    ensures ended { conn.new.in_transaction ≡ false }
    ensures survives { Survives (state S.Store conn.old) (state S.Store conn.new)
        (Replaces plan.now.areas listed.now (state S.Store conn.old).now.trees) }
{
    let mut tx = conn.transaction();
    let done = replace_inside(alloc, &mut tx, plan, listed);
    end(tx, done)
}

// Replaces them, where no row is refused.
fn replace_inside<S: Alter>(
    alloc: Global,
    tx: &mut Transaction<'_, S>,
    plan: &Plan,
    listed: &[Terminal],
) -> Result<(), ReplaceFault>
    requires inside { MayWrite S.Store tx.old.conn.now }
    ensures same_reference { tx.new.conn.ghost_name ≡ tx.old.conn.ghost_name }
    ensures ok { IsClean S.Store tx.new.conn.now
        → OnOk result (MayWrite S.Store tx.new.conn.now
        × Replaces plan.now.areas listed.now (state S.Store tx.old.conn.now).now.trees
        (state S.Store tx.new.conn.now).now.trees) }
    ensures why { IsClean S.Store tx.new.conn.now
        → IfErr result (ExplainsRow plan.now.areas listed.now
        (state S.Store tx.old.conn.now).now.trees) }
    ensures commits { CommitsNothing S.Store tx.old.conn.now tx.new.conn.now }
{
    let others = find_others(alloc, tx, plan, listed)?;
    set_terminals(tx, others.as_slice(), listed)?;
    Ok(())
}

/// The terminals of all that a list doesn't name, which stay, unless one of its rows is refused.
pub(crate) fn find_others<S: Alter>(
    alloc: Global,
    tx: &mut Transaction<'_, S>,
    plan: &Plan,
    listed: &[Terminal],
) -> Result<Vec<Terminal>, ReplaceFault>
    requires room { HasRoomSchema S.Store tx.old.conn.now }
    ensures same_reference { tx.new.conn.ghost_name ≡ tx.old.conn.ghost_name }
    ensures ok { IsClean S.Store tx.new.conn.now
        → IfOk result (λ others. (config : Configuration) (room : Room)
        → Stands (state S.Store tx.old.conn.now).now.trees config room
        → AreFree plan.now.areas config.terminals listed.now (length listed.now)
        × (others.items ≡ kept_beside listed.now config.terminals)) }
    ensures keyed { IfOk result (λ others. IsKeyed token_cmp terminal_key others.items) }
    ensures why { IsClean S.Store tx.new.conn.now
        → IfErr result (ExplainsRow plan.now.areas listed.now
        (state S.Store tx.old.conn.now).now.trees) }
    ensures reads { ReadsInside S.Store tx.old.conn.now tx.new.conn.now result }
{
    let terminals = all_terminals(alloc, tx)?;
    match first_refused(plan, terminals.as_slice(), listed) {
        Some((row, fault)) => Err(ReplaceFault::Row(row, fault)),
        None => match others_in(alloc, terminals.as_slice(), listed) {
            Ok(others) => Ok(others),
            Err(_) => Err(ReplaceFault::Memory),
        },
    }
}

fn others_in(
    alloc: Global,
    terminals: &[Terminal],
    listed: &[Terminal],
) -> Result<Vec<Terminal>, AllocError>
    ensures { IfOk result (λ others. others.items ≡ kept_beside listed.now terminals.now) }
{
    terminals
        .iter()
        .copied()
        .filter(|terminal| !is_listed(listed, &terminal.who))
        .collect(alloc)
}

/// Puts these terminals, and then those of a list, in place of all.
pub(crate) fn set_terminals<S: Alter>(
    tx: &mut Transaction<'_, S>,
    others: &[Terminal],
    listed: &[Terminal],
) -> Result<(), Fault>
    requires inside { MayWrite S.Store tx.old.conn.now }
    ensures same_reference { tx.new.conn.ghost_name ≡ tx.old.conn.ghost_name }
    ensures inside { OnOk result (MayWrite S.Store tx.new.conn.now) }
    ensures stands { IsClean S.Store tx.new.conn.now
        → OnOk result ((config : Configuration) (room : Room)
        → Stands (state S.Store tx.old.conn.now).now.trees config room
        → Stands (state S.Store tx.new.conn.now).now.trees
        (record config { terminals = put_all (in_order others.now) listed.now }) room) }
    ensures commits { CommitsNothing S.Store tx.old.conn.now tx.new.conn.now }
{
    clear_terminals(tx)?;
    put_listed(tx, others)?;
    put_listed(tx, listed)
}

// Puts the terminals of a list.
fn put_listed<S: Alter>(tx: &mut Transaction<'_, S>, listed: &[Terminal]) -> Result<(), Fault>
    requires inside { MayWrite S.Store tx.old.conn.now }
    ensures same_reference { tx.new.conn.ghost_name ≡ tx.old.conn.ghost_name }
    ensures inside { OnOk result (MayWrite S.Store tx.new.conn.now) }
    ensures stands { IsClean S.Store tx.new.conn.now
        → OnOk result ((config : Configuration) (room : Room)
        → Stands (state S.Store tx.old.conn.now).now.trees config room
        → Stands (state S.Store tx.new.conn.now).now.trees
        (record config { terminals = put_all config.terminals listed.now }) room) }
    ensures commits { CommitsNothing S.Store tx.old.conn.now tx.new.conn.now }
{
    for terminal in listed {
        put_terminal(tx, terminal)?;
    }
    Ok(())
}
