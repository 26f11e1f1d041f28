//! `renew`: what a room leaves to a new one, and the new one that is made of it.
ghost use Rattle.std.specs.Prelude.{◌≡◌, ◌+◌, ◌<◌, ◌≤◌, false, filter, length, IfErr, IfNone, IfOk};
ghost use Rattle.std.specs.Prelude.{IfSome, IsOk, OnErr};
ghost use Rattle.sqlite.specs.Held.{state};
ghost use Rattle.room_http_time.specs.Days.{zone_of};
ghost use Rattle.room_model.specs.RoomSlices.{room_of};
ghost use Rattle.room_store_check_tables.specs.HeldRooms.{WritesNothing};
ghost use Rattle.dispatch_room_archive.specs.Renewal.{
  ExplainsStay,
  ExplainsUnmade,
  IsBegun,
  IsLeftBy,
  IsLeftSince,
  IsMomentOf,
  IsNoStart,
  PrintsRenewed,
  IsStart,
  LeavesNone,
  puts_call,
  puts_incident,
  puts_report,
  puts_turn,
};
ghost use Rattle.room_tables_schema.specs.FileConnections.{IsClean};

use crate::examination::failure_of;
use crate::successor::puts_since;
use crate::times_report::span;
use dispatch_room_exit::exit_status::{Done, Failure};
use dispatch_room_tasks::opened_room::TaskResult;
use room_http_time::zones::Zone;
use room_place::plans::Plan;
use room_store_check_tables::whole_file::{Configuration, ReadFile};
use room_store_file::examined_file::read_room;
use room_store_writes::new_room::create_with;
use room_tables::connection_lemmas::lemma_committed;
use room_tables_schema::database_faults::Fault;
use room_tables_schema::schema_tests::is_empty;
use room_types::changes::Change;
use room_types::numbers::Moment;
use room_types::slices::DivisionRows;
use sqlite::{Alter, Connection};
use std::alloc::Global;
use std::io::Write;

// In seconds. A new room has at least what happened in the last two days of the old one: after that
// no caller repeats a call.
const TWO_DAYS: u64 = 172_800;

/// What a room leaves to one that is made of it: the plan, the terminals, and the changes that put
/// the rows which don't stay behind.
#[derive(Drop)]
pub struct Successor {
    pub config: Configuration,
    pub changes: Vec<Change>,
}

/// What the room of a database leaves to one that is made of it since a day. It fails as `Day` if
/// `day` is no day, or begins less than two days before the newest moment of the room. Nothing is
/// written to the file, and the database is released if it leaves nothing.
pub fn left_in<S: Alter + Drop>(
    alloc: Global,
    mut conn: Connection<S>,
    day: &str,
) -> TaskResult<Successor, S>
    requires outside { conn.in_transaction ≡ false }
    ensures left { IfOk result (λ worked. IsClean S.Store worked.1
        → IfOk worked.0 (IsLeftBy (state S.Store conn).now.trees day.now)) }
    ensures found { IfOk result (λ worked. IsOk worked.0) }
    ensures nothing { IfOk result (λ worked.
        WritesNothing (state S.Store conn) (state S.Store worked.1)) }
    ensures fault { IfErr result (LeavesNone S.Store conn day.now) }
{
    let left = find_left(alloc, &mut conn, day)?;
    Ok((Ok(left), conn))
}

// Reads the room of a file whole, and finds what it leaves.
fn find_left<S: Alter>(
    alloc: Global,
    conn: &mut Connection<S>,
    day: &str,
) -> Result<Successor, Failure>
    requires outside { conn.old.in_transaction ≡ false }
    ensures left { IsClean S.Store conn.new
        → IfOk result (IsLeftBy (state S.Store conn.old).now.trees day.now) }
    ensures nothing { WritesNothing (state S.Store conn.old) (state S.Store conn.new) }
    ensures fault { IfErr result (LeavesNone S.Store conn.old day.now) }
{
    match read_room(alloc, conn) {
        Ok((whole, summary)) => left_of(alloc, whole, summary.newest, day),
        Err(wrong) => Err(failure_of(wrong)),
    }
}

// What a room leaves that was read whole, and that has this newest moment.
fn left_of(alloc: Global, whole: ReadFile, newest: Moment, day: &str) -> Result<Successor, Failure>
    ensures config { IfOk result (λ left. left.config ≡ whole.config) }
    ensures since { IfOk result (λ left. IsLeftSince whole.config.plan.zone newest day.now
        (room_of whole.config.plan.areas whole.rows) left.changes.items) }
    ensures fault { IfErr result (ExplainsStay whole.config.plan.zone newest day.now) }
{
    let ReadFile { config, rows } = whole;
    let changes = changes_of(alloc, &config.plan, &rows, newest, day);
    drop(rows);
    let changes = changes?;
    Ok(Successor { config, changes })
}

// The changes that put what rows leave, by the zone of their plan.
fn changes_of(
    alloc: Global,
    plan: &Plan,
    rows: &DivisionRows,
    newest: Moment,
    day: &str,
) -> Result<Vec<Change>, Failure>
    ensures since { IfOk result (λ changes. IsLeftSince plan.now.zone newest day.now
        (room_of plan.now.areas rows.now) changes.items) }
    ensures fault { IfErr result (ExplainsStay plan.now.zone newest day.now) }
{
    match Zone::read(plan.zone()) {
        Ok(zone) => match start(&zone, newest, day) {
            Some(since) => match puts_since(alloc, since, rows) {
                Ok(changes) => Ok(changes),
                Err(_) => Err(Failure::Memory),
            },
            None => Err(Failure::Day),
        },
        Err(_) => Err(Failure::File),
    }
}

// The moment at which a day begins, if that is at least two days before the newest one.
fn start(zone: &Zone, newest: Moment, day: &str) -> Option<Moment>
    ensures found { IfSome result (IsStart (zone_of zone.now) newest day.now) }
    ensures none { IfNone result (IsNoStart (zone_of zone.now) newest day.now) }
{
    match span(zone, day) {
        Some((second, _next)) => early(moment_of(second), newest),
        None => None,
    }
}

// The moment of a second, 0 where that is before 1970.
fn moment_of(second: i64) -> u64
    ensures { IsMomentOf second result }
{
    if second < 0 { 0 } else { second as u64 }
}

// The moment, if it is at least two days before the newest one.
fn early(moment: u64, newest: Moment) -> Option<Moment>
    ensures found { IfSome result (λ since. (since ≡ moment) × (moment + 172_800 ≤ newest)) }
    ensures none { IfNone result (newest < moment + 172_800) }
{
    let newest = u64::from(newest.get());
    if newest < TWO_DAYS || newest - TWO_DAYS < moment {
        return None;
    }
    Some(Moment::of(moment as u32))
}

/// Makes the room of what another one left, in an empty database, and prints how many incidents,
/// calls, turns and reports it has. The line stays printed even if the database can't be closed
/// afterwards. It fails as `File` if the database is not empty.
pub fn begin_in<S: Alter + Drop, O: Write>(
    mut conn: Connection<S>,
    left: &Successor,
    out: &mut O,
) -> TaskResult<Done, S>
    requires outside { conn.in_transaction ≡ false }
    ensures begun { IfOk result (λ worked. IsBegun S.Store conn worked.1 left.now) }
    ensures printed { IfOk result (λ worked. PrintsRenewed left.now.changes.items
        (O.contents out.old) (O.contents out.new) worked.0) }
    ensures fault { IfErr result (ExplainsUnmade (state S.Store conn).now.schema) }
    ensures unprinted { OnErr result (O.contents out.new ≡ O.contents out.old) }
{
    lemma_committed(&conn);
    if !is_empty(conn.schema()) {
        return Err(Failure::File);
    }
    let config = &left.config;
    let terminals = config.terminals.as_slice();
    match create_with(&mut conn, &config.plan, terminals, left.changes.as_slice()) {
        Ok(()) => Ok((print_renewed(left.changes.as_slice(), out), conn)),
        Err(Fault::Memory) => Err(Failure::Memory),
        Err(Fault::Storage) => Err(Failure::Storage),
    }
}

// Prints how many incidents, calls, turns and reports a new room has that is made by these changes.
fn print_renewed<O: Write>(changes: &[Change], out: &mut O) -> Result<Done, Failure>
    ensures { PrintsRenewed changes.now (O.contents out.old) (O.contents out.new) result }
{
    let incidents = count_incidents(changes);
    let calls = count_calls(changes);
    let turns = count_turns(changes);
    let reports = count_reports(changes);
    match writeln!(
        out,
        "renewed: incidents {incidents}, calls {calls}, turns {turns}, reports {reports}"
    ) {
        Ok(()) => Ok(Done::Whole),
        Err(_) => Err(Failure::Network),
    }
}

fn count_incidents(changes: &[Change]) -> usize
    ensures { result ≡ length (filter puts_incident changes.now) }
{
    changes
        .iter()
        .filter(|change| puts_incident(change))
        .count()
}

fn puts_incident(change: &Change) -> bool
    ensures { result ≡ puts_incident change.now }
{
    matches!(change, Change::PutIncident(_))
}

fn count_calls(changes: &[Change]) -> usize
    ensures { result ≡ length (filter puts_call changes.now) }
{
    changes.iter().filter(|change| puts_call(change)).count()
}

fn puts_call(change: &Change) -> bool
    ensures { result ≡ puts_call change.now }
{
    matches!(change, Change::PutCall(_))
}

fn count_turns(changes: &[Change]) -> usize
    ensures { result ≡ length (filter puts_turn changes.now) }
{
    changes.iter().filter(|change| puts_turn(change)).count()
}

fn puts_turn(change: &Change) -> bool
    ensures { result ≡ puts_turn change.now }
{
    matches!(change, Change::PutTurn(_))
}

fn count_reports(changes: &[Change]) -> usize
    ensures { result ≡ length (filter puts_report changes.now) }
{
    changes.iter().filter(|change| puts_report(change)).count()
}

fn puts_report(change: &Change) -> bool
    ensures { result ≡ puts_report change.now }
{
    matches!(change, Change::PutReport(_))
}
