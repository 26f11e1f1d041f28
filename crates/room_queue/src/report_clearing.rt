//! A desk clears a report: an exception that it has seen to.
ghost use Rattle.std.specs.Prelude.{◌≡◌, List, option_copied};
ghost use Rattle.room_place.specs.declared.plans.Area.{Area};
ghost use Rattle.room_model.specs.Queries.{report_of};
ghost use Rattle.room_model.specs.Queue.{clear};
ghost use Rattle.room_model.specs.RoomSlices.{room_of};

use room_types::callsign::Callsign;
use room_types::changes::Change;
use room_types::decisions::Decision;
use room_types::numbers::Number;
use room_types::refusal_statuses::Refusal;
use room_types::slices::Slice;
use room_types::tables::Report;

/// Clears the division's report: it was seen to. Nothing else of its row changes.
///
/// Refused as `NoSuchException` exactly where there is no such report, it was seen to before, or it
/// was normal.
#[tactic(auto, unfolding(room_model::specs::Decisions::refuse_if, room_model::specs::Queue::clear))]
pub fn clear(slice: &Slice, callsign: &Callsign, number: Number) -> Result<Decision, Refusal>
    ensures { (plan : List Area)
        → result ≡ clear slice.now.division callsign.now number (room_of plan slice.now.rows) }
{
    match own_report(slice, callsign, number) {
        Some(report) if report.is_exception() => {
            let cleared = Report {
                cleared: true,
                ..*report
            };
            Ok(Decision::done([Change::PutReport(cleared)]))
        }
        _ => Err(Refusal::NoSuchException),
    }
}

#[tactic(auto, unfolding(room_model::specs::Queries::report_of))]
fn own_report<'a>(slice: &'a Slice, callsign: &Callsign, number: Number) -> Option<&'a Report>
    ensures { (plan : List Area)
        → option_copied result ≡ report_of slice.now.division callsign.now number
        (room_of plan slice.now.rows) }
{
    match slice.rows.reports.get(&(*callsign, number)) {
        Some(report) if report.division == slice.division => Some(report),
        _ => None,
    }
}
