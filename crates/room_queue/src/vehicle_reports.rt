//! A desk is shown what a vehicle reported: which button, and what became of it.
ghost use Rattle.std.specs.Prelude.{◌≡◌, ◌==◌, ◌&&◌, List, IfErr, IfOk};
ghost use Rattle.room_place.specs.declared.plans.Area.{Area};
ghost use Rattle.room_types.specs.Keys.{same_callsign};
ghost use Rattle.room_types.specs.declared.refusal_statuses.Refusal.TheVariants.{Memory};
ghost use Rattle.room_model.specs.Decisions.{Decides};
ghost use Rattle.room_model.specs.Queries.{reports_of};
ghost use Rattle.room_model.specs.Queue.{show_reports};
ghost use Rattle.room_model.specs.RoomSlices.{room_of};

use room_place::plans::DivisionNumber;
use room_types::answers::{Answer, Listed};
use room_types::callsign::Callsign;
use room_types::decisions::Decision;
use room_types::refusal_statuses::Refusal;
use room_types::slices::Slice;
use room_types::tables::Report;
use std::alloc::Global;

/// Shows the reports of a vehicle that came while the division held it, by their numbers: none
/// where it never did. The one refusal is `Memory`.
#[tactic(auto, unfolding(room_model::specs::Queue::show_reports))]
pub fn reports(alloc: Global, slice: &Slice, callsign: &Callsign) -> Result<Decision, Refusal>
    ensures { (plan : List Area) → Decides
        (show_reports slice.now.division callsign.now (room_of plan slice.now.rows)) result }
{
    let reports = reports_of(alloc, slice, callsign)?;
    Ok(Decision::show(Answer::Reports(reports)))
}

fn reports_of(alloc: Global, slice: &Slice, callsign: &Callsign) -> Result<Listed<Report>, Refusal>
    ensures ok { IfOk result (λ reports. (plan : List Area)
        → reports ≡ reports_of slice.now.division callsign.now (room_of plan slice.now.rows)) }
    ensures memory { IfErr result (λ e. e ≡ Memory) }
{
    let mut reports = Listed::new(alloc);
    for report in slice.rows.reports.as_slice() {
        if is_report_of(report, slice.division, callsign) {
            reports.push(*report)?;
        }
    }
    Ok(reports)
}

// Whether the division owns the report, and the vehicle sent it.
fn is_report_of(report: &Report, division: DivisionNumber, callsign: &Callsign) -> bool
    ensures { result
        ≡ report.now.division == division && same_callsign callsign.now report.now.callsign }
{
    report.division == division && *callsign == report.callsign
}
