//! `times --and`: the report of a division's day over two rooms, of which the newer one was made of
//! the older one.
ghost use Rattle.std.specs.List.{list_all};
ghost use Rattle.std.specs.Prelude.{◌≡◌, ℕ, false, filter, true, IfErr, IfOk, IsOk};
ghost use Rattle.sqlite.specs.Held.{state};
ghost use Rattle.room_types.specs.KeyedRows.{IsKeyed};
ghost use Rattle.room_types.specs.Keys.{incident_key, owns_incident, pair_cmp};
ghost use Rattle.room_types.specs.declared.refusal_statuses.Refusal.TheVariants.{Memory as NoMemory};
ghost use Rattle.room_model.specs.RoomSlices.{room_of};
ghost use Rattle.room_store_check_tables.specs.HeldRooms.{WritesNothing};
ghost use Rattle.dispatch_room_exit.specs.declared.exit_status.Failure.TheVariants.{Memory};
ghost use Rattle.dispatch_room_archive.specs.JoinedReports.{AreOfBoth, ExplainsNoDay, IsDayIn};
ghost use Rattle.dispatch_room_archive.specs.JoinedReports.{IsDayOf, IsReportOfBoth, JoinsDay};
ghost use Rattle.dispatch_room_archive.specs.JoinedReports.{JoinsNone, LacksDay};
ghost use Rattle.room_tables_schema.specs.FileConnections.{IsClean};

use crate::division_days::DivisionDay;
use crate::examination::failure_of;
use crate::times_report::span;
use dispatch_room_csv::day_report::day_report;
use dispatch_room_exit::exit_status::Failure;
use dispatch_room_tasks::opened_room::TaskResult;
use room_http_time::zones::Zone;
use room_incident::day_times::times;
use room_place::plans::DivisionNumber;
use room_store_check_tables::whole_file::ReadFile;
use room_store_file::examined_file::read_room;
use room_types::refusal_statuses::Refusal;
use room_types::rows::Rows;
use room_types::slices::DivisionRows;
use room_types::tables::Incident;
use sqlite::{Alter, Connection};
use std::alloc::Global;

/// A division's day, by the zone of the plan of a database's room, with the division's incidents
/// there. It fails as `Division` if the plan doesn't have the division, and as `Day` if `day` is no
/// day from 1970-01-01 to 2099-12-31. Nothing is written to the file.
pub fn day_in<S: Alter + Drop>(
    alloc: Global,
    mut conn: Connection<S>,
    division: DivisionNumber,
    day: &str,
) -> TaskResult<DivisionDay, S>
    requires outside { conn.in_transaction ≡ false }
    ensures day { IfOk result (λ worked. IsClean S.Store worked.1
        → IfOk worked.0 (IsDayIn (state S.Store conn).now.trees division day.now)) }
    ensures found { IfOk result (λ worked. IsOk worked.0) }
    ensures nothing { IfOk result (λ worked.
        WritesNothing (state S.Store conn) (state S.Store worked.1)) }
    ensures fault { IfErr result (LacksDay S.Store conn division day.now) }
{
    let found = find_day(alloc, &mut conn, division, day)?;
    Ok((Ok(found), conn))
}

// The day in the room of a file, of which all is read.
fn find_day<S: Alter>(
    alloc: Global,
    conn: &mut Connection<S>,
    division: DivisionNumber,
    day: &str,
) -> Result<DivisionDay, Failure>
    requires outside { conn.old.in_transaction ≡ false }
    ensures day { IsClean S.Store conn.new
        → IfOk result (IsDayIn (state S.Store conn.old).now.trees division day.now) }
    ensures nothing { WritesNothing (state S.Store conn.old) (state S.Store conn.new) }
    ensures fault { IfErr result (LacksDay S.Store conn.old division day.now) }
{
    match read_room(alloc, conn) {
        Ok((whole, _summary)) => {
            let found = day_of(alloc, &whole, division, day);
            drop(whole);
            found
        }
        Err(wrong) => Err(failure_of(wrong)),
    }
}

// The day in a room of which all was read.
fn day_of(
    alloc: Global,
    whole: &ReadFile,
    division: DivisionNumber,
    day: &str,
) -> Result<DivisionDay, Failure>
    ensures day { IfOk result (IsDayOf whole.now.config.plan
        (room_of whole.now.config.plan.areas whole.now.rows) division day.now) }
    ensures fault { IfErr result (ExplainsNoDay whole.now.config.plan division day.now) }
{
    let plan = &whole.config.plan;
    if !plan.has(division) {
        return Err(Failure::Division);
    }
    let Ok(zone) = Zone::read(plan.zone()) else {
        return Err(Failure::File);
    };
    let Some((from, to)) = span(&zone, day) else {
        return Err(Failure::Day);
    };
    match whole.rows.incidents.owned_by(alloc, division) {
        Ok(incidents) => Ok(DivisionDay {
            division,
            from,
            to,
            incidents,
        }),
        Err(_) => Err(Failure::Memory),
    }
}

/// The report of a division's day as CSV, by the incidents of a newer room and those of a
/// database's room. Of an incident that both have, the newer room knows more. Nothing is written to
/// the file.
pub fn joined_report_in<S: Alter + Drop>(
    alloc: Global,
    mut conn: Connection<S>,
    newer: &DivisionDay,
) -> TaskResult<Vec<u8>, S>
    requires outside { conn.in_transaction ≡ false }
    ensures report { IfOk result (λ worked. IsClean S.Store worked.1
        → IfOk worked.0 (λ report.
        JoinsDay (state S.Store conn).now.trees newer.now report.items)) }
    ensures joined { IfOk result (λ worked. IsOk worked.0) }
    ensures nothing { IfOk result (λ worked.
        WritesNothing (state S.Store conn) (state S.Store worked.1)) }
    ensures fault { IfErr result (JoinsNone S.Store conn) }
{
    let report = join(alloc, &mut conn, newer)?;
    Ok((Ok(report), conn))
}

// The report by the incidents of a file's room too, which is read whole.
fn join<S: Alter>(
    alloc: Global,
    conn: &mut Connection<S>,
    newer: &DivisionDay,
) -> Result<Vec<u8>, Failure>
    requires outside { conn.old.in_transaction ≡ false }
    ensures report { IsClean S.Store conn.new → IfOk result (λ report.
        JoinsDay (state S.Store conn.old).now.trees newer.now report.items) }
    ensures nothing { WritesNothing (state S.Store conn.old) (state S.Store conn.new) }
    ensures fault { IfErr result (JoinsNone S.Store conn.old) }
{
    match read_room(alloc, conn) {
        Ok((whole, _summary)) => {
            let report = joined_report(alloc, newer, &whole.rows);
            drop(whole);
            report
        }
        Err(wrong) => Err(failure_of(wrong)),
    }
}

fn joined_report(
    alloc: Global,
    newer: &DivisionDay,
    rows: &DivisionRows,
) -> Result<Vec<u8>, Failure>
    ensures report { IfOk result (λ report.
        IsKeyed pair_cmp incident_key rows.now.incidents →
        IsReportOfBoth newer.now (filter (owns_incident newer.now.division) rows.now.incidents)
        report.items) }
    ensures memory { IfErr result (λ fault. fault ≡ Memory) }
{
    let Ok(older) = rows.incidents.owned_by(alloc, newer.division) else {
        return Err(Failure::Memory);
    };
    let Ok(both) = joined(older, &newer.incidents) else {
        return Err(Failure::Memory);
    };
    let Ok(times) = times(alloc, &both, newer.from, newer.to) else {
        return Err(Failure::Memory);
    };
    match day_report(alloc, &times) {
        Ok(report) => Ok(report),
        Err(_) => Err(Failure::Memory),
    }
}

// The incidents of an older room, with each of a newer one in its key's place.
fn joined(older: Rows<Incident>, newer: &Rows<Incident>) -> Result<Rows<Incident>, Refusal>
    ensures both { IfOk result (λ both. IsKeyed pair_cmp incident_key older
        → AreOfBoth newer.now older both) }
    ensures own { IfOk result (λ both. (d : ℕ) → list_all (owns_incident d) older ≡ true
        → list_all (owns_incident d) newer.now ≡ true
        → list_all (owns_incident d) both ≡ true) }
    ensures memory { IfErr result (λ refusal. refusal ≡ NoMemory) }
{
    let mut both = older;
    for incident in newer.as_slice() {
        both.put(*incident)?;
    }
    Ok(both)
}
