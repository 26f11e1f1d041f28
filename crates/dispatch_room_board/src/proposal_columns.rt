//! The vehicles that may be sent to an incident, read and shown.
ghost use Rattle.dispatch_room_board.specs.BoardRows.{IsProposal};
ghost use Rattle.dispatch_room_board.specs.BoardTables.{proposal_table};

use crate::board_cells::{BoardCell, kind};
use crate::board_pages::Page;
use crate::cell_layout::Column;
use crate::cell_layout::Column::{Left, Right};
use crate::json_members::{FromJson, member};
use crate::table_layouts::{TableLayout, Tabled, alarm};
use room_types::answers::Proposal;
use room_types::numbers::Moment;
use serde_json::Value;
use std::alloc::{AllocError, Global};

impl FromJson for Proposal {
    ghost says = { IsProposal };

    fn from_json(value: &Value) -> Option<Proposal> {
        let members = member(value, "breaks")
            .zip(member(value, "distance"))
            .zip(member(value, "kind"))
            .zip(member(value, "vehicle"));
        match members {
            Some((((breaks, distance), kind), callsign)) => Some(Proposal {
                breaks,
                distance,
                kind,
                callsign,
            }),
            None => None,
        }
    }
}

// The columns of the proposals.
const PROPOSALS: [Column; 4] = [Left(8), Left(9), Left(21), Right(10)];

impl Tabled for Proposal {
    ghost table = { proposal_table };

    fn layout() -> TableLayout {
        TableLayout {
            name: "proposals",
            title: "Proposals",
            titles: " vehicle  kind      standby                   metres",
            columns: &PROPOSALS,
        }
    }

    fn put(&self, alloc: Global, _now: Moment, page: &mut Page) -> Result<(), AllocError> {
        let standby = if self.breaks {
            "leaves a point short"
        } else {
            ""
        };
        let cells = [
            BoardCell::Text(self.callsign.as_str()),
            kind(self.kind),
            BoardCell::Text(standby),
            BoardCell::Number(u64::from(self.distance)),
        ];
        page.put_row(alloc, alarm(self.breaks), &PROPOSALS, &cells)
    }
}
