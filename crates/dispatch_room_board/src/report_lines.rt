//! A report of a vehicle: read, and its words.
ghost use Rattle.std.specs.Prelude.{◌≡◌, IfOk, string_bytes};
ghost use Rattle.dispatch_room_board.specs.AnswerRows.{IsList};
ghost use Rattle.dispatch_room_board.specs.BoardCells.{text_of};
ghost use Rattle.dispatch_room_board.specs.Members.{HasMember};
ghost use Rattle.dispatch_room_board.specs.ReportLines.{IsReportLine, order_text, report_text};
ghost use Rattle.dispatch_room_board.specs.ReportLines.{reports_name};

use crate::answer_contents::FromAnswer;
use crate::answer_rows::rows_in;
use crate::board_cells::BoardCell;
use crate::cell_texts::text_of;
use crate::json_members::{FromJson, member};
use room_place::places::Place;
use room_types::answers::Listed;
use room_types::codes::{Button, Outcome};
use room_types::numbers::{LastNumber, Moment, Number};
use serde_json::Value;
use std::alloc::{AllocError, Global};

/// A report of a vehicle.
#[derive(Clone, Copy)]
pub struct ReportLine {
    pub number: Number,
    pub button: Button,
    pub outcome: Outcome,
    /// The order that it speaks of, 0 for none.
    pub order: LastNumber,
    pub place: Place,
    pub moment: Moment,
}

impl FromJson for ReportLine {
    ghost says = { IsReportLine };

    fn from_json(value: &Value) -> Option<ReportLine> {
        let members = member(value, "number")
            .zip(member(value, "button"))
            .zip(member(value, "outcome"))
            .zip(member(value, "order"))
            .zip(member(value, "place"))
            .zip(member(value, "moment"));
        match members {
            Some((((((number, button), outcome), order), place), moment)) => Some(ReportLine {
                number,
                button,
                outcome,
                order,
                place,
                moment,
            }),
            None => None,
        }
    }
}

/// The reports of a vehicle.
#[derive(Drop)]
pub struct VehicleReports {
    pub reports: Listed<ReportLine>,
}

impl FromAnswer for VehicleReports {
    ghost gives = { λ d given. HasMember (IsList IsReportLine) reports_name d given.reports };

    fn from_answer(alloc: Global, value: &Value) -> Result<Option<VehicleReports>, AllocError> {
        match rows_in(alloc, value, "reports")? {
            Some(reports) => Ok(Some(VehicleReports { reports })),
            None => Ok(None),
        }
    }
}

/// What a report was: its button, what came of it, its order, its place and its time of day.
#[tactic(auto, unfolding(crate::specs::ReportLines::report_text))]
pub fn report_text(alloc: Global, report: &ReportLine) -> Result<String, AllocError>
    ensures { IfOk result (λ text. string_bytes text ≡ report_text report.now) }
{
    let button = report.button.name();
    let outcome = report.outcome.name();
    let order = text_of(alloc, &order(report.order))?;
    let order = order.as_str();
    let place = text_of(alloc, &BoardCell::Place(report.place))?;
    let place = place.as_str();
    let time = text_of(alloc, &BoardCell::Age(report.moment.get() % 86_400))?;
    let time = time.as_str();
    format!(in alloc; "{button}: {outcome}, {order}, {place}, {time} GMT")
}

// The order that a report speaks of.
fn order(number: LastNumber) -> BoardCell<'static>
    ensures { text_of result ≡ order_text number }
{
    if number.get() == 0 {
        BoardCell::Text("no order")
    } else {
        BoardCell::Named("order", number.get())
    }
}
