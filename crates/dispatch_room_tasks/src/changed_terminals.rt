//! The terminals of one desk, position or crew in the room of a database, changed.
ghost use Rattle.std.specs.Prelude.{◌≡◌, false, IfErr, IfOk, OnOk};
ghost use Rattle.sqlite.specs.Held.{state};
ghost use Rattle.sqlite.specs.State.{Survives};
ghost use Rattle.room_tables_schema.specs.FileConnections.{HasRoomSchema, IsClean};
ghost use Rattle.room_store_writes.specs.TerminalChanges.{Explains, Gives};
ghost use Rattle.room_store_writes.specs.declared.change_faults.ChangeFault.{ChangeFault as Why};
ghost use Rattle.room_store_writes.specs.Transactions.{IsSettled, Leaves, StandsSettled};
ghost use Rattle.dispatch_room_tasks.specs.OpenedRoom.{HoldsNone};
ghost use Rattle.dispatch_room_tasks.specs.ChangedTerminals.{HasChanged, failure_of};

use crate::opened_room::TaskResult;
use crate::opening_faults::of_opening;
use dispatch_room_exit::exit_status::Failure;
use room_place::plans::Plan;
use room_store_file::opened_file::open_in;
use room_store_writes::change_faults::{ChangeFault, TokenChange};
use room_store_writes::terminal_changes::change;
use sqlite::{Alter, Connection};
use std::alloc::Global;

/// Changes the terminals of one desk, position or crew in the room of a database.
pub fn change_in<S: Alter + Drop>(
    alloc: Global,
    mut conn: Connection<S>,
    wanted: &TokenChange,
) -> TaskResult<(), S>
    requires outside { conn.in_transaction ≡ false }
    ensures changed { IfOk result (λ worked.
        HasChanged S.Store conn worked.1 wanted.now.who wanted.now.token worked.0) }
    ensures ended { IfOk result (λ worked. worked.1.in_transaction ≡ false) }
    ensures fault { IfErr result (HoldsNone S.Store conn) }
{
    match open_in(alloc, &mut conn) {
        Ok(plan) => {
            let done = change_opened(alloc, &mut conn, &plan, wanted);
            Ok((done, conn))
        }
        Err(fault) => Err(of_opening(fault)),
    }
}

// Changes them in the room of a file that is opened.
fn change_opened<S: Alter>(
    alloc: Global,
    conn: &mut Connection<S>,
    plan: &Plan,
    wanted: &TokenChange,
) -> Result<(), Failure>
    requires room { HasRoomSchema S.Store conn.old }
    requires outside { conn.old.in_transaction ≡ false }
    requires settled { StandsSettled S.Store conn.old }
    ensures changed { IsClean S.Store conn.new
        → OnOk result (Gives plan.now.areas wanted.now.who wanted.now.token
        (state S.Store conn.old).now.trees (state S.Store conn.new).now.trees
        × IsSettled (state S.Store conn.new)) }
    ensures unchanged { IsClean S.Store conn.new
        → IfErr result (λ failure. (fault : Why) × (failure ≡ failure_of fault)
        × Explains plan.now.areas wanted.now.who wanted.now.token
        (state S.Store conn.old).now.trees fault
        × Leaves (state S.Store conn.old) (state S.Store conn.new)) }
    ensures ended { conn.new.in_transaction ≡ false }
    ensures survives { Survives (state S.Store conn.old) (state S.Store conn.new)
        (Gives plan.now.areas wanted.now.who wanted.now.token
        (state S.Store conn.old).now.trees) }
{
    match change(alloc, conn, plan, wanted) {
        Ok(()) => Ok(()),
        Err(fault) => Err(failure_of(fault)),
    }
}

// How the program reports why terminals were not changed.
fn failure_of(fault: ChangeFault) -> Failure
    ensures { result ≡ failure_of fault }
{
    match fault {
        ChangeFault::NoDivision => Failure::Division,
        ChangeFault::NoVehicle
        | ChangeFault::NoTerminal
        | ChangeFault::CrewsTerminal
        | ChangeFault::TokenTaken => Failure::Input,
        ChangeFault::Memory => Failure::Memory,
        ChangeFault::Storage => Failure::Storage,
    }
}
