//! The turns of the vehicles that were sent to an incident, read and shown.
ghost use Rattle.std.specs.Prelude.{◌≡◌};
ghost use Rattle.dispatch_room_board.specs.Histories.{IsTurnLine, ended_by, turn_table};

use crate::board_cells::{BoardCell, after, since};
use crate::board_pages::{Page, Paint};
use crate::cell_layout::Column;
use crate::cell_layout::Column::{Left, Right};
use crate::json_members::{FromJson, member};
use crate::table_layouts::{TableLayout, Tabled};
use room_types::callsign::Callsign;
use room_types::codes::Kind;
use room_types::numbers::{Moment, Number};
use serde_json::Value;
use std::alloc::{AllocError, Global};

/// The turn of a vehicle that was sent to an incident.
#[derive(Clone, Copy)]
pub struct TurnLine {
    pub callsign: Callsign,
    pub kind: Kind,
    pub order: Number,
    pub ordered: Moment,
    pub acknowledged: Option<Moment>,
    pub scene: Option<Moment>,
    pub left: Option<Moment>,
    pub hospital: Option<Moment>,
    pub ended: Option<Moment>,
    pub stood_down: bool,
}

impl FromJson for TurnLine {
    ghost says = { IsTurnLine };

    fn from_json(value: &Value) -> Option<TurnLine> {
        let sent = member(value, "vehicle")
            .zip(member(value, "kind"))
            .zip(member(value, "order"))
            .zip(member(value, "ordered"));
        let steps = member(value, "acknowledged")
            .zip(member(value, "scene"))
            .zip(member(value, "left"))
            .zip(member(value, "hospital"));
        let end = member(value, "ended").zip(member(value, "stood_down"));
        let members = sent.zip(steps).zip(end);
        match members {
            Some(((sent, steps), (ended, stood_down))) => {
                let (((callsign, kind), order), ordered) = sent;
                let (((acknowledged, scene), left), hospital) = steps;
                Some(TurnLine {
                    callsign,
                    kind,
                    order,
                    ordered,
                    acknowledged,
                    scene,
                    left,
                    hospital,
                    ended,
                    stood_down,
                })
            }
            None => None,
        }
    }
}

// The columns of the turns.
const TURNS: [Column; 9] = [
    Left(8),
    Right(10),
    Right(10),
    Right(7),
    Right(7),
    Right(7),
    Right(8),
    Right(7),
    Right(4),
];

impl Tabled for TurnLine {
    ghost table = { turn_table };

    fn layout() -> TableLayout {
        TableLayout {
            name: "turns",
            title: "Turns",
            titles: " vehicle       order    ordered    read   scene    left hospital   ended   by",
            columns: &TURNS,
        }
    }

    fn put(&self, alloc: Global, now: Moment, page: &mut Page) -> Result<(), AllocError> {
        let cells = [
            BoardCell::Text(self.callsign.as_str()),
            BoardCell::Number(u64::from(self.order.get())),
            since(self.ordered, now),
            after(self.ordered, self.acknowledged),
            after(self.ordered, self.scene),
            after(self.ordered, self.left),
            after(self.ordered, self.hospital),
            after(self.ordered, self.ended),
            BoardCell::Text(ended_by(self.ended, self.stood_down)),
        ];
        page.put_row(alloc, Paint::Plain, &TURNS, &cells)
    }
}

// Who ended a turn, the desk or the crew.
fn ended_by(ended: Option<Moment>, stood_down: bool) -> &'static str
    ensures { result.now ≡ ended_by ended stood_down }
{
    match ended {
        Some(_) if stood_down => "desk",
        Some(_) => "crew",
        None => "-",
    }
}
