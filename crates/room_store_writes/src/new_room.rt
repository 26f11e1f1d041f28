//! The tables of a new room, made and filled.

ghost use Rattle.std.specs.Prelude.{◌≡◌, ◌≤◌, [], cond, false, length, IsTrue, OnOk};
ghost use Rattle.std.specs.Ordering.{nat_cmp};
ghost use Rattle.sqlite.specs.Held.{state};
ghost use Rattle.sqlite.specs.State.{Survives};
ghost use Rattle.room_tables_schema.specs.Outcomes.{CommitsNothing};
ghost use Rattle.room_place.specs.Plans.{has_division, most_areas};
ghost use Rattle.room_types.specs.KeyedRows.{put_row};
ghost use Rattle.room_types.specs.Keys.{division_key};
ghost use Rattle.room_model.specs.Room.{Room};
ghost use Rattle.room_tables_schema.specs.Schema.{no_schema, room_schema};
ghost use Rattle.room_tables_schema.specs.FileConnections.{MayWrite, IsClean, StandsInTransaction};
ghost use Rattle.room_tables.specs.RoomsInTables.{Configuration, Stands};
ghost use Rattle.room_store_writes.specs.Transactions.{IsCommitted, LeavesOnErr};
ghost use Rattle.room_store_writes.specs.NewRoom.{Begins, BeginsWith, StandsNew, StandsWith};
ghost use Rattle.room_store_writes.specs.NewRoom.{new_division, new_divisions, put_all};

use crate::transactions::{end, put_each};
use room_place::plans::{Area, DivisionNumber, Plan};
use room_tables::area_table::put_area;
use room_tables::meta_table::put_meta;
use room_tables::row_changes::put;
use room_tables::terminal_table::put_terminal;
use room_tables_schema::database_faults::Fault;
use room_tables_schema::table_creation::make;
use room_types::changes::Change;
use room_types::fleet::Terminal;
use room_types::numbers::LastNumber;
use room_types::tables::Division;
use sqlite::{Alter, Connection, Transaction};

/// Makes the room in one transaction, or leaves the file as it was.
pub fn create_in<S: Alter>(
    conn: &mut Connection<S>,
    plan: &Plan,
    terminals: &[Terminal],
) -> Result<(), Fault>
    requires empty { (state S.Store conn.old).now.schema ≡ no_schema }
    requires outside { conn.old.in_transaction ≡ false }
    requires committed { IsCommitted S.Store conn.old }
    ensures ok { IsClean S.Store conn.new
        → OnOk result (Begins S.Store conn.new plan.now terminals.now) }
    ensures err { LeavesOnErr S.Store conn.old conn.new result }
    ensures ended { conn.new.in_transaction ≡ false }
    ensures survives { Survives (state S.Store conn.old) (state S.Store conn.new)
        (StandsNew plan.now terminals.now) }
{
    let mut tx = conn.transaction();
    let done = fill(&mut tx, plan, terminals);
    end(tx, done)
}

/// Makes the room and these changes in it in one transaction, or leaves the file as it was. So a
/// stop leaves no room that has less.
pub fn create_with<S: Alter>(
    conn: &mut Connection<S>,
    plan: &Plan,
    terminals: &[Terminal],
    changes: &[Change],
) -> Result<(), Fault>
    requires empty { (state S.Store conn.old).now.schema ≡ no_schema }
    requires outside { conn.old.in_transaction ≡ false }
    requires committed { IsCommitted S.Store conn.old }
    ensures ok { IsClean S.Store conn.new
        → OnOk result (BeginsWith S.Store conn.new plan.now terminals.now changes.now) }
    ensures err { LeavesOnErr S.Store conn.old conn.new result }
    ensures ended { conn.new.in_transaction ≡ false }
    ensures survives { Survives (state S.Store conn.old) (state S.Store conn.new)
        (StandsWith plan.now terminals.now changes.now) }
{
    let mut tx = conn.transaction();
    let done = fill_with(&mut tx, plan, terminals, changes);
    end(tx, done)
}

// Makes the tables of a new room, puts its rows in them, and makes the changes.
fn fill_with<S: Alter>(
    tx: &mut Transaction<'_, S>,
    plan: &Plan,
    terminals: &[Terminal],
    changes: &[Change],
) -> Result<(), Fault>
    requires empty { IsClean S.Store tx.old.conn.now
        → (state S.Store tx.old.conn.now).now.schema ≡ no_schema }
    requires inside { StandsInTransaction S.Store tx.old.conn.now }
    ensures same_reference { tx.new.conn.ghost_name ≡ tx.old.conn.ghost_name }
    ensures ok { IsClean S.Store tx.new.conn.now
        → OnOk result (IsTrue (state S.Store tx.new.conn.now).in_transaction
        × ((state S.Store tx.new.conn.now).now.schema ≡ room_schema)
        × StandsWith plan.now terminals.now changes.now
        (state S.Store tx.new.conn.now).now.trees) }
    ensures commits { CommitsNothing S.Store tx.old.conn.now tx.new.conn.now }
{
    fill(tx, plan, terminals)?;
    put_each(tx, changes)
}

// Makes the tables of a new room, and puts its rows in them.
fn fill<S: Alter>(
    tx: &mut Transaction<'_, S>,
    plan: &Plan,
    terminals: &[Terminal],
) -> Result<(), Fault>
    requires empty { IsClean S.Store tx.old.conn.now
        → (state S.Store tx.old.conn.now).now.schema ≡ no_schema }
    requires inside { StandsInTransaction S.Store tx.old.conn.now }
    ensures same_reference { tx.new.conn.ghost_name ≡ tx.old.conn.ghost_name }
    ensures ok { IsClean S.Store tx.new.conn.now
        → OnOk result (IsTrue (state S.Store tx.new.conn.now).in_transaction
        × ((state S.Store tx.new.conn.now).now.schema ≡ room_schema)
        × StandsNew plan.now terminals.now (state S.Store tx.new.conn.now).now.trees) }
    ensures commits { CommitsNothing S.Store tx.old.conn.now tx.new.conn.now }
{
    make(tx)?;
    put_meta(tx, plan.zone())?;
    put_areas(tx, plan.areas())?;
    put_terminals(tx, terminals)?;
    put_divisions(tx, plan)
}

/// Puts the areas in a room that has none.
pub fn put_areas<S: Alter>(tx: &mut Transaction<'_, S>, areas: &[Area]) -> Result<(), Fault>
    requires inside { MayWrite S.Store tx.old.conn.now }
    requires few { length areas.now ≤ most_areas }
    ensures same_reference { tx.new.conn.ghost_name ≡ tx.old.conn.ghost_name }
    ensures inside { OnOk result (MayWrite S.Store tx.new.conn.now) }
    ensures stands { IsClean S.Store tx.new.conn.now
        → OnOk result ((config : Configuration) (room : Room)
        → Stands (state S.Store tx.old.conn.now).now.trees config room
        → room.plan ≡ [] → Stands (state S.Store tx.new.conn.now).now.trees config
        (record room { plan = areas.now })) }
    ensures commits { CommitsNothing S.Store tx.old.conn.now tx.new.conn.now }
{
    let mut at = 0;
    for area in areas {
        at += 1;
        put_area(tx, at, area)?;
    }
    Ok(())
}

fn put_terminals<S: Alter>(tx: &mut Transaction<'_, S>, terminals: &[Terminal]) -> Result<(), Fault>
    requires inside { MayWrite S.Store tx.old.conn.now }
    ensures same_reference { tx.new.conn.ghost_name ≡ tx.old.conn.ghost_name }
    ensures inside { OnOk result (MayWrite S.Store tx.new.conn.now) }
    ensures stands { IsClean S.Store tx.new.conn.now
        → OnOk result ((config : Configuration) (room : Room)
        → Stands (state S.Store tx.old.conn.now).now.trees config room
        → Stands (state S.Store tx.new.conn.now).now.trees
        (record config { terminals = put_all config.terminals terminals.now }) room) }
    ensures commits { CommitsNothing S.Store tx.old.conn.now tx.new.conn.now }
{
    for terminal in terminals {
        put_terminal(tx, terminal)?;
    }
    Ok(())
}

// Puts a row for each division of the plan in a room that has none.
fn put_divisions<S: Alter>(tx: &mut Transaction<'_, S>, plan: &Plan) -> Result<(), Fault>
    requires inside { MayWrite S.Store tx.old.conn.now }
    ensures same_reference { tx.new.conn.ghost_name ≡ tx.old.conn.ghost_name }
    ensures inside { OnOk result (MayWrite S.Store tx.new.conn.now) }
    ensures stands { IsClean S.Store tx.new.conn.now
        → OnOk result ((config : Configuration) (room : Room)
        → Stands (state S.Store tx.old.conn.now).now.trees config room
        → room.divisions ≡ [] → Stands (state S.Store tx.new.conn.now).now.trees config
        (record room { divisions = new_divisions plan.now.areas })) }
    ensures commits { CommitsNothing S.Store tx.old.conn.now tx.new.conn.now }
{
    for number in 1..=9 {
        put_new_division(tx, plan, DivisionNumber::of(number))?;
    }
    Ok(())
}

// Puts the row of a division that has had no incident, where the plan has the division.
fn put_new_division<S: Alter>(
    tx: &mut Transaction<'_, S>,
    plan: &Plan,
    number: DivisionNumber,
) -> Result<(), Fault>
    requires inside { MayWrite S.Store tx.old.conn.now }
    ensures same_reference { tx.new.conn.ghost_name ≡ tx.old.conn.ghost_name }
    ensures inside { OnOk result (MayWrite S.Store tx.new.conn.now) }
    ensures stands { IsClean S.Store tx.new.conn.now
        → OnOk result ((config : Configuration) (room : Room)
        → Stands (state S.Store tx.old.conn.now).now.trees config room
        → Stands (state S.Store tx.new.conn.now).now.trees config
        (record room {
          divisions = cond (has_division plan.now.areas number)
              (put_row nat_cmp division_key room.divisions (new_division number)) room.divisions;
        })) }
    ensures commits { CommitsNothing S.Store tx.old.conn.now tx.new.conn.now }
{
    if !plan.has(number) {
        return Ok(());
    }
    put(
        tx,
        &Division {
            number,
            last_incident: LastNumber::of(0),
        },
    )
}
