//! The incident that a history is of, read and shown.
ghost use Rattle.std.specs.Prelude.{◌≡◌, IfOk, OnOk, string_bytes};
ghost use Rattle.dispatch_room_board.specs.BoardCells.{text_of};
ghost use Rattle.dispatch_room_board.specs.Histories.{IsSummary, state_text, summary_columns};
ghost use Rattle.dispatch_room_board.specs.Histories.{summary_lines, summary_texts, summary_title};
ghost use Rattle.dispatch_room_board.specs.CellLayout.{row_of};
ghost use Rattle.dispatch_room_board.specs.Pages.{Adds, line_of};
ghost use Rattle.dispatch_room_board.specs.declared.board_pages.Paint.TheVariants.{Plain};

use crate::board_cells::{BoardCell, since, since_any};
use crate::board_pages::{Page, Paint};
use crate::cell_layout::Column;
use crate::cell_layout::Column::{Left, Right};
use crate::cell_texts::text_of;
use crate::json_members::{FromJson, member};
use room_place::places::Place;
use room_types::answers::Served;
use room_types::needs::Needs;
use room_types::numbers::{Class, Moment, Number};
use serde_json::Value;
use std::alloc::{AllocError, Global};

/// The incident that a history is of.
#[derive(Clone, Copy)]
pub struct IncidentSummary {
    pub number: Number,
    /// The number of its state: 0 active, 1 closed, 2 merged.
    pub state: u8,
    /// The incident that it was merged into, where it was.
    pub into: Option<Number>,
    pub class: Class,
    pub place: Place,
    pub needs: Needs,
    pub served: Served,
    pub opened: Moment,
    pub first_order: Option<Moment>,
}

impl FromJson for IncidentSummary {
    ghost says = { IsSummary };

    fn from_json(value: &Value) -> Option<IncidentSummary> {
        let members = member(value, "number")
            .zip(member(value, "state"))
            .zip(member(value, "into"))
            .zip(member(value, "class"))
            .zip(member(value, "place"))
            .zip(member(value, "needs"))
            .zip(member(value, "served"))
            .zip(member(value, "opened"))
            .zip(member(value, "first_order"));
        match members {
            Some(
                (
                    (((((((number, state), into), class), place), needs), served), opened),
                    first_order,
                ),
            ) => Some(IncidentSummary {
                number,
                state,
                into,
                class,
                place,
                needs,
                served,
                opened,
                first_order,
            }),
            None => None,
        }
    }
}

// What stands above the incident, and its columns.
const TITLES: &str = " class place          needed served              age first order";

const COLUMNS: [Column; 6] = [Right(5), Left(14), Left(6), Left(12), Right(10), Right(11)];

/// Adds the incident as it is at a moment.
pub fn put_summary(
    alloc: Global,
    page: &mut Page,
    summary: &IncidentSummary,
    now: Moment,
) -> Result<(), AllocError>
    ensures { OnOk result (Adds page.old page.new
        (summary_lines page.old.colour now summary.now)) }
{
    let title = title_of(alloc, summary)?;
    page.put_spaced(Paint::Title, title.as_str())?;
    page.put_line(Paint::Plain, TITLES)?;
    put_row(alloc, page, summary, now)
}

// Adds what else is shown of the incident.
fn put_row(
    alloc: Global,
    page: &mut Page,
    summary: &IncidentSummary,
    now: Moment,
) -> Result<(), AllocError>
    ensures { OnOk result (Adds page.old page.new (line_of page.old.colour Plain
        (row_of summary_columns (summary_texts now summary.now)))) }
{
    let cells = [
        BoardCell::Number(u64::from(summary.class.get())),
        BoardCell::Place(summary.place),
        BoardCell::Counts(summary.needs.counts()),
        BoardCell::Served(summary.served),
        since(summary.opened, now),
        since_any(summary.first_order, now),
    ];
    page.put_row(alloc, Paint::Plain, &COLUMNS, &cells)
}

// The number of the incident, and what became of it.
#[tactic(auto, unfolding(crate::specs::Histories::summary_title))]
fn title_of(alloc: Global, summary: &IncidentSummary) -> Result<String, AllocError>
    ensures { IfOk result (λ text. string_bytes text ≡ summary_title summary.now) }
{
    let number = summary.number.get();
    let state = text_of(alloc, &state(summary.state, summary.into))?;
    let state = state.as_str();
    format!(in alloc; "Incident {number}: {state}")
}

// What became of an incident whose state has a number.
fn state(number: u8, into: Option<Number>) -> BoardCell<'static>
    ensures { text_of result ≡ state_text number into }
{
    match (number, into) {
        (0, _) => BoardCell::Text("active"),
        (1, _) => BoardCell::Text("closed"),
        (_, Some(into)) => BoardCell::Named("merged into", into.get()),
        (_, None) => BoardCell::Text("unknown"),
    }
}
