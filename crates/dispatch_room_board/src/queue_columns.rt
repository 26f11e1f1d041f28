//! The queue: its entries read and shown.
ghost use Rattle.std.specs.Prelude.{◌≡◌, OnOk};
ghost use Rattle.room_types.specs.Ranks.{subject_of};
ghost use Rattle.dispatch_room_board.specs.BoardCells.{text_of};
ghost use Rattle.dispatch_room_board.specs.Members.{IsVehicle};
ghost use Rattle.dispatch_room_board.specs.BoardRows.{IsEntry, IsQueueLine};
ghost use Rattle.dispatch_room_board.specs.BoardTables.{entry_texts, exception_text, matter_of};
ghost use Rattle.dispatch_room_board.specs.BoardTables.{queue_table, subject_text, waited_of};
ghost use Rattle.dispatch_room_board.specs.CellLayout.{row_of};
ghost use Rattle.dispatch_room_board.specs.Pages.{Adds, line_of, note_lines};
ghost use Rattle.dispatch_room_board.specs.declared.board_pages.Paint.TheVariants.{Plain};

use crate::board_cells::{BoardCell, since};
use crate::board_pages::{Page, Paint};
use crate::cell_layout::Column;
use crate::cell_layout::Column::{Left, Right};
use crate::json_members::{FromJson, member};
use crate::report_lines::{ReportLine, report_text};
use crate::table_layouts::{TableLayout, Tabled};
use room_types::answers::QueueEntry;
use room_types::callsign::Callsign;
use room_types::numbers::Moment;
use room_types::ranks::{Rank, Subject};
use serde_json::Value;
use std::alloc::{AllocError, Global};

impl FromJson for QueueEntry {
    ghost says = { IsEntry };

    fn from_json(value: &Value) -> Option<QueueEntry> {
        let members = member(value, "rank")
            .zip(member(value, "since"))
            .zip(member(value, "number"))
            .zip(member::<About>(value, "vehicle"));
        match members {
            Some((((rank, since), number), about)) => Some(QueueEntry {
                rank,
                since,
                number,
                callsign: about.callsign,
            }),
            None => None,
        }
    }
}

// The vehicle that an entry of the queue is about: the text is empty where it is about none.
#[derive(Clone, Copy)]
struct About {
    callsign: Option<Callsign>,
}

impl FromJson for About {
    ghost says = { λ d about. IsVehicle d about.callsign };

    fn from_json(value: &Value) -> Option<About> {
        match value.as_str() {
            Some("") => Some(About { callsign: None }),
            Some(text) => match Callsign::parse(text) {
                Some(callsign) => Some(About {
                    callsign: Some(callsign),
                }),
                None => None,
            },
            None => None,
        }
    }
}

/// A line of the queue: an entry, and the report that it is for, where that is told.
#[derive(Clone, Copy)]
pub struct QueueLine {
    pub entry: QueueEntry,
    pub report: Option<ReportLine>,
}

impl FromJson for QueueLine {
    ghost says = { IsQueueLine };

    fn from_json(value: &Value) -> Option<QueueLine> {
        match QueueEntry::from_json(value) {
            Some(entry) => Some(QueueLine {
                entry,
                report: None,
            }),
            None => None,
        }
    }
}

// The columns of the queue.
const QUEUE: [Column; 4] = [Left(24), Left(19), Left(8), Right(10)];

impl Tabled for QueueLine {
    ghost table = { queue_table };

    fn layout() -> TableLayout {
        TableLayout {
            name: "queue",
            title: "Queue",
            titles: " what                     of                  vehicle      waited",
            columns: &QUEUE,
        }
    }

    fn put(&self, alloc: Global, now: Moment, page: &mut Page) -> Result<(), AllocError> {
        put_row(alloc, page, &self.entry, now)?;
        put_exception(alloc, page, &self.report)
    }
}

// Adds the row of an entry, without its report.
fn put_row(
    alloc: Global,
    page: &mut Page,
    entry: &QueueEntry,
    now: Moment,
) -> Result<(), AllocError>
    ensures { OnOk result (Adds page.old page.new (line_of page.old.colour Plain
        (row_of queue_table.columns (entry_texts now entry.now)))) }
{
    let vehicle = match &entry.callsign {
        Some(callsign) => callsign.as_str(),
        None => "",
    };
    let cells = [
        BoardCell::Text(matter(entry.rank)),
        subject(entry.rank, entry.number),
        BoardCell::Text(vehicle),
        waited(entry.rank, entry.since, now),
    ];
    page.put_row(alloc, Paint::Plain, &QUEUE, &cells)
}

// Adds the words of the report that an entry is for, where it is told.
fn put_exception(
    alloc: Global,
    page: &mut Page,
    report: &Option<ReportLine>,
) -> Result<(), AllocError>
    ensures { OnOk result (Adds page.old page.new
        (note_lines page.old.colour (exception_text report.now))) }
{
    match report {
        Some(report) => {
            let text = report_text(alloc, report)?;
            page.put_note(text.as_str())
        }
        None => page.put_note(""),
    }
}

// What is the matter with an entry of a rank.
fn matter(rank: Rank) -> &'static str
    ensures { result.now ≡ matter_of rank }
{
    match rank {
        Rank::Unserved => "nobody sent",
        Rank::Unacknowledged => "order not acknowledged",
        Rank::LateForScene => "late for the scene",
        Rank::OutOfTurn => "report out of turn",
        Rank::Overdue => "loan is over",
        Rank::ShiftOver => "shift is over",
        Rank::Uncovered => "point short of cover",
        Rank::Unanswered => "offer not answered",
    }
}

// What the number of an entry of a rank is of.
fn subject(rank: Rank, number: u32) -> BoardCell<'static>
    ensures { text_of result ≡ subject_text (subject_of rank) number }
{
    match rank.subject() {
        Subject::Incident => BoardCell::Named("incident", number),
        Subject::Report => BoardCell::Named("report", number),
        Subject::Division => BoardCell::Named("division", number),
        Subject::Nothing => BoardCell::Text(""),
        Subject::Point => BoardCell::Named("point", number),
    }
}

// How long an entry has waited, where that is known.
fn waited(rank: Rank, moment: Moment, now: Moment) -> BoardCell<'static>
    ensures { text_of result ≡ waited_of rank now moment }
{
    if rank.is_timed() {
        since(moment, now)
    } else {
        BoardCell::Text("-")
    }
}
