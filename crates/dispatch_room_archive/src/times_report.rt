//! `times`: the report of a division's day, by the room of a database.
ghost use Rattle.std.specs.Prelude.{◌≡◌, ◌↔◌, List, false, IfErr, IfOk, IfSome, IsSome, OnOk};
ghost use Rattle.room_types.specs.declared.fleet.Terminal.{Terminal};
ghost use Rattle.room_types.specs.declared.refusal_statuses.Refusal.TheVariants.{Memory};
ghost use Rattle.room_model.specs.Room.{Room};
ghost use Rattle.room_store.specs.StoredRoom.{IsReady, IsRoom};
ghost use Rattle.room_http_time.specs.Dates.{day_of};
ghost use Rattle.room_http_time.specs.Days.{zone_of};
ghost use Rattle.dispatch_room_archive.specs.TimesReport.{ExplainsReport, HasReported, IsAskable};
ghost use Rattle.dispatch_room_archive.specs.TimesReport.{IsDayReport, IsSpanOf, report_in};
ghost use Rattle.dispatch_room_tasks.specs.OpenedRoom.{IsUnopened};
ghost use Rattle.room_tables_schema.specs.FileConnections.{IsClean};

use dispatch_room_csv::day_report::day_report;
use dispatch_room_exit::exit_status::{Failure, refused};
use dispatch_room_tasks::opened_room::{TaskResult, open_room};
use room_http_time::days::Day;
use room_http_time::zones::Zone;
use room_place::plans::DivisionNumber;
use room_store::store::Store;
use room_types::answers::Answer;
use room_types::asks::{Ask, Event, Who};
use room_types::numbers::Moment;
use room_types::refusal_statuses::Refusal;
use sqlite::{Alter, Connection};
use std::alloc::Global;

/// The report of a division's day as CSV, by the room of a database. It fails as `Division` if the
/// plan doesn't have the division, and then as `Day` if `day` is no day from 1970-01-01 to
/// 2099-12-31.
pub fn report_in<S: Alter + Drop>(
    alloc: Global,
    conn: Connection<S>,
    division: DivisionNumber,
    day: &str,
) -> TaskResult<Vec<u8>, S>
    requires outside { conn.in_transaction ≡ false }
    ensures reported { IfOk result (λ worked. IsClean S.Store worked.1
        → HasReported S.Store conn worked.1 division day.now worked.0) }
    ensures fault { IfErr result (IsUnopened S.Store conn) }
{
    let (mut room, zone) = open_room(alloc, conn)?;
    let report = report_of(alloc, &mut room, &zone, division, day);
    Ok((report, room.close()))
}

// The report, as the division's desk would ask for it.
fn report_of<S: Alter>(
    alloc: Global,
    room: &mut Store<S>,
    zone: &Zone,
    division: DivisionNumber,
    day: &str,
) -> Result<Vec<u8>, Failure>
    requires ready { IsReady S.Store room.old }
    ensures ready { IsReady S.Store room.new }
    ensures plan { room.new.plan ≡ room.old.plan }
    ensures askable { OnOk result (IsAskable room.old.plan.areas division day.now) }
    ensures report { IsClean S.Store room.new.conn
        → IfOk result (λ report. (terminals : List Terminal) (held : Room)
        → IsRoom S.Store room.old terminals held
        → IsDayReport (zone_of zone.now) division day.now held report.items) }
    ensures clean { IsClean S.Store room.new.conn
        → IsClean S.Store room.old.conn }
    ensures same { IsClean S.Store room.new.conn
        → (terminals : List Terminal) (held : Room) → IsRoom S.Store room.old terminals held
        → IsRoom S.Store room.new terminals held }
    ensures fault { IfErr result (ExplainsReport room.old.plan.areas division day.now) }
{
    if !room.plan().has(division) {
        return Err(Failure::Division);
    }
    let Some((from, to)) = span(zone, day) else {
        return Err(Failure::Day);
    };
    let event = Event {
        who: Who::Desk(division),
        ask: Ask::Times(from, to),
        at: Moment::of(0),
    };
    match room.act(alloc, &event, |answer| report_bytes(alloc, answer)) {
        Ok(report) => Ok(report),
        Err(refusal) => Err(refused(refusal)),
    }
}

// The seconds, since 1970 in UTC, at which a day begins and at which the next one does; `None` if
// the text is no day.
pub(crate) fn span(zone: &Zone, day: &str) -> Option<(i64, i64)>
    ensures found { IsSome result ↔ IsSome (day_of day.now) }
    ensures span { IfSome result (IsSpanOf (zone_of zone.now) day.now) }
{
    let day = Day::parse(day)?;
    zone.day(day.year(), day.month(), day.day())
}

// The report as CSV. No other answer than the times of a day comes.
fn report_bytes(alloc: Global, answer: &Result<Answer, Refusal>) -> Result<Vec<u8>, Refusal>
    ensures memory { IfErr result (λ refusal. refusal ≡ Memory) }
    ensures report { IfOk result (λ report. report.items ≡ report_in answer.now) }
{
    match answer {
        Ok(Answer::Times(times)) => match day_report(alloc, times) {
            Ok(report) => Ok(report),
            Err(_) => Err(Refusal::Memory),
        },
        _ => Ok(Vec::new(alloc)),
    }
}
