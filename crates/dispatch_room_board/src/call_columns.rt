//! The calls of an incident, read and shown.
ghost use Rattle.std.specs.Prelude.{OnOk};
ghost use Rattle.dispatch_room_board.specs.CellLayout.{row_of};
ghost use Rattle.dispatch_room_board.specs.Histories.{IsCallLine, call_table};
ghost use Rattle.dispatch_room_board.specs.Pages.{Adds, line_of};
ghost use Rattle.dispatch_room_board.specs.declared.board_pages.Paint.TheVariants.{Plain};

use crate::board_cells::{BoardCell, since};
use crate::board_pages::{Page, Paint};
use crate::cell_layout::Column;
use crate::cell_layout::Column::{Left, Right};
use crate::json_members::{FromJson, member};
use crate::table_layouts::{TableLayout, Tabled};
use room_place::places::Place;
use room_types::needs::Needs;
use room_types::note::Note;
use room_types::numbers::{Class, Moment, Number, PositionNumber};
use serde_json::Value;
use std::alloc::{AllocError, Global};

/// A call that belongs to an incident.
#[derive(Clone, Copy)]
pub struct CallLine {
    pub position: PositionNumber,
    pub serial: Number,
    pub linked: bool,
    pub place: Place,
    pub class: Class,
    pub needs: Needs,
    pub moment: Moment,
    pub note: Note,
}

impl FromJson for CallLine {
    ghost says = { IsCallLine };

    fn from_json(value: &Value) -> Option<CallLine> {
        let members = member(value, "position")
            .zip(member(value, "serial"))
            .zip(member(value, "linked"))
            .zip(member(value, "place"))
            .zip(member(value, "class"))
            .zip(member(value, "needs"))
            .zip(member(value, "moment"))
            .zip(member(value, "note"));
        match members {
            Some((((((((position, serial), linked), place), class), needs), moment), note)) => Some(
                CallLine {
                    position,
                    serial,
                    linked,
                    place,
                    class,
                    needs,
                    moment,
                    note,
                },
            ),
            None => None,
        }
    }
}

// The columns of the calls.
const CALLS: [Column; 7] = [
    Right(8),
    Right(10),
    Left(6),
    Left(14),
    Right(5),
    Left(6),
    Right(10),
];

impl Tabled for CallLine {
    ghost table = { call_table };

    fn layout() -> TableLayout {
        TableLayout {
            name: "calls",
            title: "Calls",
            titles: " position     serial linked place          class needed        age",
            columns: &CALLS,
        }
    }

    fn put(&self, alloc: Global, now: Moment, page: &mut Page) -> Result<(), AllocError> {
        put_row(alloc, page, self, now)?;
        page.put_note(self.note.as_str())
    }
}

// Adds the row of a call, without its note.
fn put_row(alloc: Global, page: &mut Page, call: &CallLine, now: Moment) -> Result<(), AllocError>
    ensures { OnOk result (Adds page.old page.new (line_of page.old.colour Plain
        (row_of call_table.columns (call_table.texts now call.now)))) }
{
    let linked = if call.linked { "linked" } else { "-" };
    let cells = [
        BoardCell::Number(u64::from(call.position.get())),
        BoardCell::Number(u64::from(call.serial.get())),
        BoardCell::Text(linked),
        BoardCell::Place(call.place),
        BoardCell::Number(u64::from(call.class.get())),
        BoardCell::Counts(call.needs.counts()),
        since(call.moment, now),
    ];
    page.put_row(alloc, Paint::Plain, &CALLS, &cells)
}
