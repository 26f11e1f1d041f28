//! The vehicles that a division holds, read and shown.
ghost use Rattle.std.specs.Prelude.{◌≡◌};
ghost use Rattle.dispatch_room_board.specs.BoardCells.{text_of};
ghost use Rattle.dispatch_room_board.specs.BoardRows.{IsVehicleLine};
ghost use Rattle.dispatch_room_board.specs.BoardTables.{is_overdue, sent_text, shift_text};
ghost use Rattle.dispatch_room_board.specs.BoardTables.{vehicle_table};

use crate::board_cells::{BoardCell, kind, left, status};
use crate::board_pages::Page;
use crate::cell_layout::Column;
use crate::cell_layout::Column::{Left, Right};
use crate::json_members::{FromJson, member};
use crate::table_layouts::{TableLayout, Tabled, alarm};
use room_types::answers::VehicleLine;
use room_types::numbers::Moment;
use serde_json::Value;
use std::alloc::{AllocError, Global};

impl FromJson for VehicleLine {
    ghost says = { IsVehicleLine };

    fn from_json(value: &Value) -> Option<VehicleLine> {
        let members = member(value, "vehicle")
            .zip(member(value, "home"))
            .zip(member(value, "incident"))
            .zip(member(value, "kind"))
            .zip(member(value, "place"))
            .zip(member(value, "post"))
            .zip(member(value, "shift_end"))
            .zip(member(value, "status"));
        match members {
            Some((((((((callsign, home), incident), kind), place), post), shift_end), status)) =>
                Some(VehicleLine {
                    callsign,
                    home,
                    incident,
                    kind,
                    place,
                    post,
                    shift_end,
                    status,
                }),
            None => None,
        }
    }
}

// The columns of the vehicles.
const VEHICLES: [Column; 7] = [
    Left(8),
    Left(9),
    Left(11),
    Left(14),
    Right(4),
    Left(19),
    Right(8),
];

impl Tabled for VehicleLine {
    ghost table = { vehicle_table };

    fn layout() -> TableLayout {
        TableLayout {
            name: "vehicles",
            title: "Vehicles",
            titles: " vehicle  kind      status      place          home sent to             min left",
            columns: &VEHICLES,
        }
    }

    fn put(&self, alloc: Global, now: Moment, page: &mut Page) -> Result<(), AllocError> {
        let cells = [
            BoardCell::Text(self.callsign.as_str()),
            kind(self.kind),
            status(self.status),
            BoardCell::Place(self.place),
            BoardCell::Number(u64::from(self.home.get())),
            sent_to(self),
            shift_left(self, now),
        ];
        page.put_row(alloc, alarm(is_overdue(self, now)), &VEHICLES, &cells)
    }
}

// The incident that a vehicle is sent to, or else the standby point.
fn sent_to(vehicle: &VehicleLine) -> BoardCell<'static>
    ensures { text_of result ≡ sent_text vehicle.now.incident vehicle.now.post }
{
    match (vehicle.incident, vehicle.post) {
        (Some(incident), _) => BoardCell::Named("incident", incident.get()),
        (None, Some(point)) => BoardCell::Named("point", point.get()),
        (None, None) => BoardCell::Text("-"),
    }
}

// How many minutes of its shift are left to a vehicle that is on duty.
fn shift_left(vehicle: &VehicleLine, now: Moment) -> BoardCell<'static>
    ensures { text_of result ≡ shift_text now vehicle.now.status vehicle.now.shift_end }
{
    if vehicle.status.is_off() {
        BoardCell::Text("-")
    } else {
        left(vehicle.shift_end, now)
    }
}

// Whether a vehicle is on duty after its shift.
fn is_overdue(vehicle: &VehicleLine, now: Moment) -> bool
    ensures { result ≡ is_overdue now vehicle.now.status vehicle.now.shift_end }
{
    !vehicle.status.is_off() && vehicle.shift_end.get() <= now.get()
}
