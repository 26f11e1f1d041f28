//! The active incidents, read and shown.
ghost use Rattle.std.specs.Prelude.{◌≡◌, ◌-◌};
ghost use Rattle.dispatch_room_board.specs.BoardRows.{IsIncidentLine};
ghost use Rattle.dispatch_room_board.specs.BoardTables.{incident_table, lacks, served};

use crate::board_cells::{BoardCell, since};
use crate::board_pages::Page;
use crate::cell_layout::Column;
use crate::cell_layout::Column::{Left, Right};
use crate::json_members::{FromJson, member};
use crate::table_layouts::{TableLayout, Tabled, alarm};
use room_types::answers::IncidentLine;
use room_types::needs::Counts;
use room_types::numbers::{Moment, Need};
use serde_json::Value;
use std::alloc::{AllocError, Global};

impl FromJson for IncidentLine {
    ghost says = { IsIncidentLine };

    fn from_json(value: &Value) -> Option<IncidentLine> {
        let members = member(value, "number")
            .zip(member(value, "place"))
            .zip(member(value, "class"))
            .zip(member(value, "needs"))
            .zip(member(value, "lack"))
            .zip(member(value, "opened"))
            .zip(member(value, "calls"));
        match members {
            Some(((((((number, place), class), needs), lack), opened), calls)) => Some(
                IncidentLine {
                    number,
                    place,
                    class,
                    needs,
                    lack,
                    opened,
                    calls,
                },
            ),
            None => None,
        }
    }
}

// The columns of the incidents.
const INCIDENTS: [Column; 6] = [Right(10), Right(5), Left(14), Left(6), Left(6), Right(10)];

impl Tabled for IncidentLine {
    ghost table = { incident_table };

    fn layout() -> TableLayout {
        TableLayout {
            name: "incidents",
            title: "Incidents",
            titles: "   incident class place          needed served        age",
            columns: &INCIDENTS,
        }
    }

    fn put(&self, alloc: Global, now: Moment, page: &mut Page) -> Result<(), AllocError> {
        let cells = [
            BoardCell::Number(u64::from(self.number.get())),
            BoardCell::Number(u64::from(self.class.get())),
            BoardCell::Place(self.place),
            BoardCell::Counts(self.needs.counts()),
            BoardCell::Counts(served(self.needs.counts(), self.lack)),
            since(self.opened, now),
        ];
        page.put_row(alloc, alarm(lacks(self.lack)), &INCIDENTS, &cells)
    }
}

// Whether vehicles are lacking.
fn lacks(lack: Counts) -> bool
    ensures { result ≡ lacks lack }
{
    lack.ambulances.get() + lack.cars.get() + lack.support.get() > 0
}

// How many of the vehicles that are needed serve.
fn served(needs: Counts, lack: Counts) -> Counts
    ensures { result ≡ served needs lack }
{
    Counts {
        ambulances: rest(needs.ambulances, lack.ambulances),
        cars: rest(needs.cars, lack.cars),
        support: rest(needs.support, lack.support),
    }
}

fn rest(need: Need, lack: Need) -> Need
    ensures { result ≡ need - lack }
{
    Need::of(need.get().saturating_sub(lack.get()))
}
