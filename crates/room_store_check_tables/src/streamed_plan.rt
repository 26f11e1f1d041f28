//! The plan of the room that a file holds, judged with its history read one row at a time.
ghost use Rattle.std.specs.Prelude.{◌≡◌, ◌≢◌, ◌⊎◌, false, true, IfErr, IfOk, IsTrue, OnOk};
ghost use Rattle.sqlite.specs.Held.{state};
ghost use Rattle.room_tables_schema.specs.FileConnections.{HasRoomSchema, IsClean};
ghost use Rattle.room_tables_schema.specs.Schema.{room_schema};
ghost use Rattle.room_tables_schema.specs.Outcomes.{ReadsOnly};
ghost use Rattle.room_tables.specs.Rowids.{AreAllNumbered};
ghost use Rattle.room_tables.specs.RowStreams.{AreAll};
ghost use Rattle.room_store_check_tables.specs.HeldRooms.{HasConfiguration, HoldsRoom, IsPlanOf};
ghost use Rattle.room_store_check_tables.specs.HeldRooms.{ReadsNext, WritesNothing};
ghost use Rattle.room_store_check_tables.specs.StreamedPlan.{AreBeside, HasJudged, IsFound};
ghost use Rattle.room_store_check_tables.specs.StreamedPlan.{IsHistory, ShowsSound};
ghost use Rattle.room_store_check_tables.specs.ReadCauses.{ExplainsTable, FailsAtRows, FailsInFile};
ghost use Rattle.room_store_check_tables.specs.ReadCauses.{FailsInTables, FailsToTake};
ghost use Rattle.room_store_check_tables.specs.declared.file_faults.FileFault.TheVariants.{Memory};
ghost use Rattle.room_store_check_tables.specs.declared.file_faults.FileFault.TheVariants.{NotARoom};
ghost use Rattle.room_store_check_tables.specs.declared.file_faults.FileFault.TheVariants.{Storage};
ghost use Rattle.room_store_writes.specs.Transactions.{IsCommitted};

use crate::file_faults::FileFault;
use crate::judged_histories::judge;
use crate::whole_file::{Configuration, read_config};
use room_place::plans::Plan;
use room_store_check_rows::history_checks::{Openings, is_room_well_formed};
use room_store_check_rows::room_checks::RoomRows;
use room_store_check_rows::terminal_checks::do_terminals_fit;
use room_tables::connection_lemmas::lemma_committed;
use room_tables::room_table::Table;
use room_tables::row_streams::each_row;
use room_tables::rowids::are_numbered_streamed;
use room_tables_schema::database_faults::Fault;
use room_tables_schema::schema_tests::is_room;
use room_types::rows::{Part, Rows};
use room_types::slices::DivisionRows;
use room_types::tables::{
    Assignment, Call, Division, Incident, Loan, Offer, Point, Report, Turn, Vehicle,
};
use sqlite::{Alter, Connection};
use std::alloc::Global;

/// The plan of the room that a room's tables hold. Turns, reports and calls, which are the history
/// of the room, are judged one at a time and dropped. Nothing is written.
pub fn stream_plan<S: Alter>(alloc: Global, conn: &mut Connection<S>) -> Result<Plan, FileFault>
    requires schema { (state S.Store conn.old).now.schema ≡ room_schema }
    requires outside { conn.old.in_transaction ≡ false }
    requires committed { IsCommitted S.Store conn.old }
    ensures room { IsClean S.Store conn.new
        → IfOk result (IsPlanOf (state S.Store conn.old).now.trees) }
    ensures no_room { IsClean S.Store conn.new
        → IfErr result (λ e. e ≡ NotARoom → ¬ HoldsRoom (state S.Store conn.old).now.trees) }
    ensures why { IsClean S.Store conn.new
        → IfErr result (λ e. e ≡ Storage → FailsToTake S.Store conn.old conn.new) }
    ensures nothing { WritesNothing (state S.Store conn.old) (state S.Store conn.new) }
    ensures ended { conn.new.in_transaction ≡ false }
{
    let config = config_of_file(alloc, conn)?;
    match judge_file(alloc, conn, &config.plan) {
        Ok(judged) => plan_of_judged(alloc, config, judged),
        Err(fault) => {
            drop(config);
            Err(fault)
        }
    }
}

// The plan and the terminals, read in a transaction that is undone.
fn config_of_file<S: Alter>(
    alloc: Global,
    conn: &mut Connection<S>,
) -> Result<Configuration, FileFault>
    requires schema { (state S.Store conn.old).now.schema ≡ room_schema }
    requires outside { conn.old.in_transaction ≡ false }
    requires committed { IsCommitted S.Store conn.old }
    ensures found { IsClean S.Store conn.new
        → IfOk result (λ x. AreAllNumbered (state S.Store conn.old).now.trees
        → HasConfiguration (state S.Store conn.old).now.trees x.plan.areas x.plan.zone
        x.terminals.items) }
    ensures no_room { IsClean S.Store conn.new
        → IfErr result (λ e. e ≡ NotARoom → ¬ HoldsRoom (state S.Store conn.old).now.trees) }
    ensures why { IsClean S.Store conn.new
        → IfErr result (λ e. e ≡ Storage → FailsInFile S.Store conn.old conn.new) }
    ensures nothing { WritesNothing (state S.Store conn.old) (state S.Store conn.new) }
    ensures ended { conn.new.in_transaction ≡ false }
{
    let mut tx = conn.transaction();
    let config = read_config(alloc, &mut tx);
    tx.rollback();
    config
}

// What is kept of the rows of a file whose tables number their rows. It is no room where one
// doesn't.
fn judge_file<S: Alter>(
    alloc: Global,
    conn: &mut Connection<S>,
    plan: &Plan,
) -> Result<JudgedRows, FileFault>
    requires outside { conn.old.in_transaction ≡ false }
    ensures found { IsClean S.Store conn.new
        → IfOk result (IsFound (state S.Store conn.old) plan.now.areas) }
    ensures unnumbered { IsClean S.Store conn.new
        → IfErr result (λ e. e ≡ NotARoom → IsTrue (state S.Store conn.old).is_open
        × ¬ AreAllNumbered (state S.Store conn.old).now.trees) }
    ensures why { IsClean S.Store conn.new
        → IfErr result (λ e. e ≡ Storage → (state S.Store conn.old).now.schema ≢ room_schema
        ⊎ FailsInTables S.Store conn.old conn.new) }
    ensures nothing { WritesNothing (state S.Store conn.old) (state S.Store conn.new) }
    ensures ended { conn.new.in_transaction ≡ false }
{
    lemma_committed(conn);
    // Of a connection that a fault has shut nothing is known, not even its schema.
    if !is_room(conn.schema()) {
        return Err(FileFault::Storage);
    }
    if !are_numbered_streamed(conn)? {
        return Err(FileFault::NotARoom);
    }
    match judge_rows(alloc, conn, plan) {
        Ok(judged) => Ok(judged),
        Err(fault) => Err(FileFault::from(fault)),
    }
}

// The rows of a room, with no more of its history than is kept; the openings that its calls give;
// and whether its history agrees with the other rows.
#[derive(Drop)]
struct JudgedRows {
    rows: RoomRows,
    openings: Openings,
    do_agree: bool,
}

// All rows of a room's tables, judged as they are read.
fn judge_rows<S: Alter>(
    alloc: Global,
    conn: &mut Connection<S>,
    plan: &Plan,
) -> Result<JudgedRows, Fault>
    requires room { HasRoomSchema S.Store conn.old }
    ensures judged { IsClean S.Store conn.new
        → IfOk result (HasJudged (state S.Store conn.old).now.trees plan.now.areas) }
    ensures why { ExplainsTable S.Store conn.old conn.new result }
    ensures reads { ReadsOnly S.Store conn.old conn.new result }
{
    let mut rows = rows_beside(alloc, conn)?;
    match judge_history(alloc, conn, plan, &rows) {
        Ok(history) => {
            rows.turns = history.turns;
            rows.reports = history.reports;
            Ok(JudgedRows {
                rows,
                openings: history.openings,
                do_agree: history.do_agree,
            })
        }
        Err(fault) => {
            drop(rows);
            Err(fault)
        }
    }
}

// The rows of the tables that are no history.
fn rows_beside<S: Alter>(alloc: Global, conn: &mut Connection<S>) -> Result<RoomRows, Fault>
    requires room { HasRoomSchema S.Store conn.old }
    ensures beside { IsClean S.Store conn.new
        → IfOk result (AreBeside (state S.Store conn.old).now.trees) }
    ensures why { ExplainsTable S.Store conn.old conn.new result }
    ensures reads { ReadsOnly S.Store conn.old conn.new result }
{
    let mut done = Ok(());
    let rows = DivisionRows {
        divisions: Part::own(next_streamed::<Division, S>(alloc, conn, &mut done)),
        incidents: next_streamed::<Incident, S>(alloc, conn, &mut done),
        calls: Rows::new(alloc),
        vehicles: Part::own(next_streamed::<Vehicle, S>(alloc, conn, &mut done)),
        turns: Rows::new(alloc),
        assignments: Part::own(next_streamed::<Assignment, S>(alloc, conn, &mut done)),
        points: Part::own(next_streamed::<Point, S>(alloc, conn, &mut done)),
        loans: Part::own(next_streamed::<Loan, S>(alloc, conn, &mut done)),
        offers: Part::own(next_streamed::<Offer, S>(alloc, conn, &mut done)),
        reports: Rows::new(alloc),
    };
    match done {
        Ok(()) => Ok(rows),
        Err(fault) => {
            drop(rows);
            Err(fault)
        }
    }
}

// The rows of a table, read if all reads before it went well. So a fault is looked at once.
fn next_streamed<X: Table, S: Alter>(
    alloc: Global,
    conn: &mut Connection<S>,
    done: &mut Result<(), Fault>,
) -> Rows<X>
    requires room { OnOk done.old (HasRoomSchema S.Store conn.old) }
    ensures room { OnOk done.new (HasRoomSchema S.Store conn.new) }
    ensures next { ReadsNext S.Store conn.old conn.new done.old done.new (λ trees.
        AreAll X.Key.cmp X.key_of X.cells X.rows X.table trees result)
        (FailsAtRows X.texts.all X.is_row X.Key.cmp X.key_of X.cells) }
    ensures mode { conn.old.in_transaction ≡ false → conn.new.in_transaction ≡ false }
{
    match done {
        Ok(()) => match each_row::<Rows<X>, S>(conn, Rows::new(alloc)) {
            Ok(rows) => rows,
            Err(fault) => {
                *done = Err(fault);
                Rows::new(alloc)
            }
        },
        Err(_) => Rows::new(alloc),
    }
}

// What is kept of turns, reports and calls, and whether all of them agree with the rows beside
// them.
#[derive(Drop)]
struct KeptHistory {
    turns: Rows<Turn>,
    reports: Rows<Report>,
    openings: Openings,
    do_agree: bool,
}

// Turns, reports and calls, judged one at a time beside the other rows.
fn judge_history<S: Alter>(
    alloc: Global,
    conn: &mut Connection<S>,
    plan: &Plan,
    rows: &RoomRows,
) -> Result<KeptHistory, Fault>
    requires room { HasRoomSchema S.Store conn.old }
    ensures history { IsClean S.Store conn.new
        → IfOk result (IsHistory (state S.Store conn.old).now.trees plan.now.areas rows.now) }
    ensures why { ExplainsTable S.Store conn.old conn.new result }
    ensures reads { ReadsOnly S.Store conn.old conn.new result }
{
    let (turns, do_turns) = judge::<Turn, S>(conn, plan, rows, Rows::new(alloc))?;
    let (reports, do_reports) = judge::<Report, S>(conn, plan, rows, Rows::new(alloc))?;
    let (openings, do_calls) = judge::<Call, S>(conn, plan, rows, Openings::new(alloc))?;
    Ok(KeptHistory {
        turns,
        reports,
        openings,
        do_agree: do_turns & do_reports & do_calls,
    })
}

// The plan of a configuration, where the rows that were judged make a well-formed room in it, and
// its terminals fit this room.
fn plan_of_judged(
    alloc: Global,
    config: Configuration,
    judged: JudgedRows,
) -> Result<Plan, FileFault>
    ensures sound { IfOk result (λ plan. (plan ≡ config.plan)
        × ShowsSound config.plan.areas config.terminals.items judged true) }
    ensures no_room { IfErr result (λ e. e ≡ NotARoom
        → ShowsSound config.plan.areas config.terminals.items judged false) }
    ensures cause { IfErr result (λ e. (e ≡ Memory) ⊎ (e ≡ NotARoom)) }
{
    let test = is_sound(alloc, &config, &judged);
    drop(judged);
    match test {
        Ok(true) => Ok(config.plan),
        Ok(false) => Err(FileFault::NotARoom),
        Err(fault) => Err(fault),
    }
}

// Whether they do. What is kept of the history is enough.
fn is_sound(alloc: Global, config: &Configuration, judged: &JudgedRows) -> Result<bool, FileFault>
    ensures test { IfOk result
        (ShowsSound config.now.plan.areas config.now.terminals.items judged.now) }
    ensures memory { IfErr result (λ e. e ≡ Memory) }
{
    let (plan, rows) = (&config.plan, &judged.rows);
    let formed = is_room_well_formed(plan, rows, &judged.openings, judged.do_agree);
    match do_terminals_fit(alloc, plan, rows, config.terminals.as_slice()) {
        Ok(fit) => Ok(formed & fit),
        Err(_) => Err(FileFault::Memory),
    }
}
