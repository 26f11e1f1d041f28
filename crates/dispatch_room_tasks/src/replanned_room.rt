//! `replan`: the room of a database gets another plan, and the terminals of its file.
ghost use Rattle.std.specs.Prelude.{◌≡◌, false, filter_map, IfErr, IfOk, None, OnOk};
ghost use Rattle.sqlite.specs.Held.{state};
ghost use Rattle.sqlite.specs.State.{Survives};
ghost use Rattle.room_model.specs.Room.{Room, apply};
ghost use Rattle.room_tables_rows.specs.RoomsInTables.{Configuration, Stands};
ghost use Rattle.room_tables_schema.specs.FileConnections.{HasRoomSchema, MayWrite, IsClean};
ghost use Rattle.room_tables_schema.specs.Schema.{room_schema};
ghost use Rattle.room_tables_schema.specs.Outcomes.{CommitsNothing};
ghost use Rattle.room_store_writes.specs.Transactions.{IsSettled, Leaves, LeavesOnErr};
ghost use Rattle.room_store_writes.specs.Transactions.{StandsSettled};
ghost use Rattle.dispatch_room_tasks.specs.OpenedRoom.{HoldsNone};
ghost use Rattle.dispatch_room_tasks.specs.ReplannedRoom.{ExplainsPlan, HasReplanned, Replans};
ghost use Rattle.dispatch_room_tasks.specs.ReplannedRoom.{addition, additions, failure_of};
ghost use Rattle.dispatch_room_tasks.specs.ReplannedRoom.{first_lacking};
ghost use Rattle.dispatch_room_tasks.specs.declared.replanning_faults.ReplanFault.{ReplanFault as Why};

use crate::cleared_tables::clear_areas;
use crate::opened_room::TaskResult;
use crate::opening_faults::of_opening;
use crate::replaced_terminals::{find_others, set_terminals};
use crate::replacement_causes::explain;
use crate::replanning_faults::{ReplanFault, failure_of, first_lacking};
use dispatch_room_csv::plan_file::PlanFile;
use dispatch_room_exit::exit_status::Failure;
use dispatch_room_exit::failure_causes::Explainer;
use room_place::plans::{Area, DivisionNumber, Plan};
use room_store_file::opened_file::open_in;
use room_store_writes::new_room::put_areas;
use room_store_writes::transactions::{end, put_each};
use room_tables::meta_table::put_meta;
use room_tables_schema::database_faults::Fault;
use room_types::changes::Change;
use room_types::numbers::LastNumber;
use room_types::tables::Division;
use sqlite::{Alter, Connection, Transaction};
use std::alloc::{AllocError, Global};

/// Gives the room of a database the plan of a file, with its zone, and all that the file names the
/// terminals that it gives them. Where the plan lacks a division of the room, or a terminal is
/// refused, nothing is changed, and that is explained.
pub fn replan_in<S: Alter + Drop>(
    alloc: Global,
    explainer: Explainer<'_>,
    mut conn: Connection<S>,
    file: &PlanFile,
) -> TaskResult<(), S>
    requires outside { conn.in_transaction ≡ false }
    ensures replanned { IfOk result (λ worked.
        HasReplanned S.Store conn worked.1 file.now worked.0) }
    ensures ended { IfOk result (λ worked. worked.1.in_transaction ≡ false) }
    ensures fault { IfErr result (HoldsNone S.Store conn) }
{
    match open_in(alloc, &mut conn) {
        Ok(plan) => {
            let done = replan_opened(alloc, explainer, &mut conn, &plan, file);
            Ok((done, conn))
        }
        Err(fault) => Err(of_opening(fault)),
    }
}

// Gives the plan to the room of a file that is opened.
fn replan_opened<S: Alter>(
    alloc: Global,
    explainer: Explainer<'_>,
    conn: &mut Connection<S>,
    plan: &Plan,
    file: &PlanFile,
) -> Result<(), Failure>
    requires room { HasRoomSchema S.Store conn.old }
    requires outside { conn.old.in_transaction ≡ false }
    requires settled { StandsSettled S.Store conn.old }
    ensures replanned { IsClean S.Store conn.new
        → OnOk result (Replans plan.now.areas file.now (state S.Store conn.old).now.trees
        (state S.Store conn.new).now.trees × IsSettled (state S.Store conn.new)) }
    ensures unchanged { IsClean S.Store conn.new
        → IfErr result (λ failure. (fault : Why) × (failure ≡ failure_of fault)
        × ExplainsPlan plan.now.areas file.now (state S.Store conn.old).now.trees fault
        × Leaves (state S.Store conn.old) (state S.Store conn.new)) }
    ensures ended { conn.new.in_transaction ≡ false }
    ensures survives { Survives (state S.Store conn.old) (state S.Store conn.new)
        (Replans plan.now.areas file.now (state S.Store conn.old).now.trees) }
{
    match replan_all(alloc, conn, plan, file) {
        Ok(()) => Ok(()),
        Err(fault) => {
            explain_none(explainer, file, fault);
            Err(failure_of(fault))
        }
    }
}

fn explain_none(explainer: Explainer<'_>, file: &PlanFile, fault: ReplanFault) {
    match fault {
        ReplanFault::Division(division) => explainer.explain(format_args!(
            "the plan has no area of division {division}, which the room has"
        )),
        ReplanFault::Terminals(fault) => explain(explainer, file.terminals.as_slice(), fault),
    }
}

// Gives the plan in one transaction. A fault leaves the room as it was. What a stop may leave is
// what it could before, or the room with the new plan.
fn replan_all<S: Alter>(
    alloc: Global,
    conn: &mut Connection<S>,
    plan: &Plan,
    file: &PlanFile,
) -> Result<(), ReplanFault>
    requires room { HasRoomSchema S.Store conn.old }
    requires outside { conn.old.in_transaction ≡ false }
    requires settled { StandsSettled S.Store conn.old }
    ensures ok { IsClean S.Store conn.new
        → OnOk result (Replans plan.now.areas file.now (state S.Store conn.old).now.trees
        (state S.Store conn.new).now.trees) }
    ensures settled { IsClean S.Store conn.new
        → OnOk result (IsSettled (state S.Store conn.new)
        × ((state S.Store conn.new).now.schema ≡ room_schema)) }
    ensures why { IsClean S.Store conn.new
        → IfErr result (ExplainsPlan plan.now.areas file.now
        (state S.Store conn.old).now.trees) }
    ensures err { LeavesOnErr S.Store conn.old conn.new result }
    ensures ended { conn.new.in_transaction ≡ false }
    ensures survives { Survives (state S.Store conn.old) (state S.Store conn.new)
        (Replans plan.now.areas file.now (state S.Store conn.old).now.trees) }
{
    let mut tx = conn.transaction();
    let done = replan_inside(alloc, &mut tx, plan, file);
    end(tx, done)
}

// Gives the plan, where the room agrees with it and no terminal is refused.
fn replan_inside<S: Alter>(
    alloc: Global,
    tx: &mut Transaction<'_, S>,
    plan: &Plan,
    file: &PlanFile,
) -> Result<(), ReplanFault>
    requires inside { MayWrite S.Store tx.old.conn.now }
    ensures same_reference { tx.new.conn.ghost_name ≡ tx.old.conn.ghost_name }
    ensures ok { IsClean S.Store tx.new.conn.now
        → OnOk result (MayWrite S.Store tx.new.conn.now
        × Replans plan.now.areas file.now (state S.Store tx.old.conn.now).now.trees
        (state S.Store tx.new.conn.now).now.trees) }
    ensures why { IsClean S.Store tx.new.conn.now
        → IfErr result (ExplainsPlan plan.now.areas file.now
        (state S.Store tx.old.conn.now).now.trees) }
    ensures commits { CommitsNothing S.Store tx.old.conn.now tx.new.conn.now }
{
    if let Some(division) = first_lacking(plan, &file.plan) {
        return Err(ReplanFault::Division(division));
    }
    let listed = file.terminals.as_slice();
    let others = find_others(alloc, tx, &file.plan, listed)?;
    set_plan(alloc, tx, plan, &file.plan)?;
    set_terminals(tx, others.as_slice(), listed)?;
    Ok(())
}

// Puts the zone and the areas of a plan in place of those of the old one, and the rows of the
// divisions that are new.
fn set_plan<S: Alter>(
    alloc: Global,
    tx: &mut Transaction<'_, S>,
    old: &Plan,
    new: &Plan,
) -> Result<(), Fault>
    requires inside { MayWrite S.Store tx.old.conn.now }
    ensures same_reference { tx.new.conn.ghost_name ≡ tx.old.conn.ghost_name }
    ensures inside { OnOk result (MayWrite S.Store tx.new.conn.now) }
    ensures stands { IsClean S.Store tx.new.conn.now
        → OnOk result ((config : Configuration) (room : Room)
        → Stands (state S.Store tx.old.conn.now).now.trees config room
        → Stands (state S.Store tx.new.conn.now).now.trees
        (record config { zone = new.now.zone })
        (record (apply room (additions old.now.areas new.now.areas)) { plan = new.now.areas })) }
    ensures commits { CommitsNothing S.Store tx.old.conn.now tx.new.conn.now }
{
    let added = additions(alloc, old, new.areas())?;
    put_meta(tx, new.zone())?;
    put_each(tx, added.as_slice())?;
    clear_areas(tx)?;
    put_areas(tx, new.areas())
}

// The rows of the divisions that are new.
fn additions(alloc: Global, old: &Plan, areas: &[Area]) -> Result<Vec<Change>, AllocError>
    ensures { IfOk result (λ added. added.items ≡ additions old.now.areas areas.now) }
{
    areas
        .iter()
        .filter_map(|area| addition(old, area))
        .collect(alloc)
}

fn addition(old: &Plan, area: &Area) -> Option<Change>
    ensures { result ≡ addition old.now.areas area.now }
{
    let number = DivisionNumber::new(area.division)?;
    if old.has(number) {
        None
    } else {
        Some(Change::PutDivision(Division {
            number,
            last_incident: LastNumber::of(0),
        }))
    }
}
