//! The standby points, read and shown.
ghost use Rattle.dispatch_room_board.specs.BoardRows.{IsPointLine};
ghost use Rattle.dispatch_room_board.specs.BoardTables.{point_table};

use crate::board_cells::BoardCell;
use crate::board_pages::Page;
use crate::cell_layout::Column;
use crate::cell_layout::Column::{Left, Right};
use crate::json_members::{FromJson, member};
use crate::table_layouts::{TableLayout, Tabled, alarm};
use room_types::answers::PointLine;
use room_types::numbers::Moment;
use serde_json::Value;
use std::alloc::{AllocError, Global};

impl FromJson for PointLine {
    ghost says = { IsPointLine };

    fn from_json(value: &Value) -> Option<PointLine> {
        let members = member(value, "number")
            .zip(member(value, "place"))
            .zip(member(value, "cover"))
            .zip(member(value, "held"));
        match members {
            Some((((number, place), cover), held)) => Some(PointLine {
                number,
                place,
                cover,
                held,
            }),
            None => None,
        }
    }
}

// The columns of the points.
const POINTS: [Column; 4] = [Right(5), Left(14), Right(5), Right(20)];

impl Tabled for PointLine {
    ghost table = { point_table };

    fn layout() -> TableLayout {
        TableLayout {
            name: "points",
            title: "Points",
            titles: " point place          cover                 held",
            columns: &POINTS,
        }
    }

    fn put(&self, alloc: Global, _now: Moment, page: &mut Page) -> Result<(), AllocError> {
        let cells = [
            BoardCell::Number(u64::from(self.number.get())),
            BoardCell::Place(self.place),
            BoardCell::Number(u64::from(self.cover.get())),
            BoardCell::Number(self.held),
        ];
        let short = self.held < u64::from(self.cover.get());
        page.put_row(alloc, alarm(short), &POINTS, &cells)
    }
}
