//! `init`: a room is created in a database, by a plan.
ghost use Rattle.std.specs.Prelude.{◌≡◌, false, IfErr, IfOk, OnErr};
ghost use Rattle.sqlite.specs.Held.{state};
ghost use Rattle.dispatch_room_tasks.specs.Creation.{ExplainsNone, IsCreated, PrintsCreated};
ghost use Rattle.dispatch_room_tasks.specs.Creation.{division_count};

use crate::opened_room::TaskResult;
use crate::opening_faults::of_creating;
use dispatch_room_csv::plan_file::PlanFile;
use dispatch_room_exit::exit_status::{Done, Failure};
use room_place::plans::{DivisionNumber, Plan};
use room_store::store::Store;
use sqlite::{Alter, Connection};
use std::alloc::Global;
use std::io::Write;

/// Creates the room of a plan in a database that has nothing, and reports how much it has. What is
/// reported stands, also where the database can't be closed afterwards.
pub fn create_in<S: Alter + Drop, O: Write>(
    alloc: Global,
    conn: Connection<S>,
    plan: &PlanFile,
    out: &mut O,
) -> TaskResult<Done, S>
    requires outside { conn.in_transaction ≡ false }
    ensures created { IfOk result (λ worked. IsCreated S.Store conn worked.1 plan.now) }
    ensures printed { IfOk result (λ worked.
        PrintsCreated plan.now (O.contents out.old) (O.contents out.new) worked.0) }
    ensures fault { IfErr result (ExplainsNone (state S.Store conn).now.schema plan.now) }
    ensures unprinted { OnErr result (O.contents out.new ≡ O.contents out.old) }
{
    match Store::create(alloc, conn, &plan.plan, plan.terminals.as_slice()) {
        Ok(room) => Ok((print_created(plan, out), room.close())),
        Err((fault, _)) => Err(of_creating(fault)),
    }
}

// Prints how much a created room has.
fn print_created<O: Write>(created: &PlanFile, out: &mut O) -> Result<Done, Failure>
    ensures { PrintsCreated created.now (O.contents out.old) (O.contents out.new) result }
{
    let divisions = count_divisions(&created.plan);
    let areas = created.plan.areas().len();
    let terminals = created.terminals.len();
    match writeln!(
        out,
        "created: divisions {divisions}, areas {areas}, terminals {terminals}"
    ) {
        Ok(()) => Ok(Done::Whole),
        Err(_) => Err(Failure::Network),
    }
}

// How many divisions have an area.
fn count_divisions(plan: &Plan) -> usize
    ensures { result ≡ division_count plan.now.areas }
{
    let mut count = 0;
    for number in 1..=9 {
        if plan.has(DivisionNumber::of(number)) {
            count += 1;
        }
    }
    count
}
