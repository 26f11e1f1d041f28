//! The rows of one division that its requests are decided on. A vehicle without its assignment, or
//! a turn without its vehicle, is a slice too, since a request may read one without the other: that
//! a busy vehicle has both is an agreement of the room.
ghost use Rattle.std.specs.Prelude.{◌≡◌, true, option_copied};
ghost use Rattle.std.specs.List.{list_all};
ghost use Rattle.room_types.specs.KeyedRows.{IsKeyed};
ghost use Rattle.room_types.specs.Keys.{callsign_cmp, numbered_cmp, vehicle_key, assignment_key};
ghost use Rattle.room_types.specs.Keys.{turn_key};
ghost use Rattle.room_types.specs.Slices.{is_share, are_owned, vehicle_agrees, assignment_agrees};
ghost use Rattle.room_types.specs.Slices.{turn_agrees, open_turn};

use crate::numbers::Number;
use crate::rows::{Part, Row, Rows};
use crate::sent_vehicles::parts_agree;
use crate::tables::{
    Assignment, Call, Division, Incident, Loan, Offer, Point, Report, Turn, Vehicle,
};
use room_place::plans::DivisionNumber;

/// A list of rows of each type. Those of the fleet's tables may be lent.
#[derive(Drop)]
pub struct DivisionRows<'a> {
    pub divisions: Part<'a, Division>,
    pub incidents: Rows<Incident>,
    pub calls: Rows<Call>,
    pub vehicles: Part<'a, Vehicle>,
    pub turns: Rows<Turn>,
    pub assignments: Part<'a, Assignment>,
    pub points: Part<'a, Point>,
    pub loans: Part<'a, Loan>,
    pub offers: Part<'a, Offer>,
    pub reports: Rows<Report>,
}

/// Rows of one division: all of them, or those that a request reads.
///
/// Those that are there agree. A vehicle with an assignment or an open turn is busy; both are for
/// one incident, which is active, and of the vehicle's last order. None of its turns has a later
/// order.
#[derive(Drop)]
pub struct Slice<'a> {
    pub division: DivisionNumber,
    pub rows: DivisionRows<'a>,
    pub ghost agrees: { is_share division rows ≡ true },
}

impl<'a> Slice<'a> {
    ghost use Rattle.std.specs.Prelude.{◌≡◌, ◌↔◌, IsSome, IfSome};
    ghost use Rattle.room_types.specs.Slices.{IsShare};

    /// A slice of just these rows. None exactly where a row is not the division's, or the rows
    /// disagree. Takes no memory.
    pub fn build(division: DivisionNumber, rows: DivisionRows<'a>) -> Option<Slice<'a>>
        ensures share { IsSome result ↔ IsShare division rows.entry }
        ensures rows { IfSome result (λ slice. (slice.division ≡ division)
            × (slice.rows ≡ rows.entry)) }
    {
        if rows.are_share_of(division) {
            Some(Slice { division, rows })
        } else {
            None
        }
    }
}

impl DivisionRows<'_> {
    ghost use Rattle.std.specs.Prelude.{◌≡◌, ◌↔◌, IsTrue};
    ghost use Rattle.room_types.specs.Slices.{IsShare};

    /// The open turn of a vehicle, which only its last order can have.
    pub fn open_turn(&self, vehicle: &Vehicle) -> Option<&Turn>
        ensures { option_copied result ≡ open_turn vehicle.now self.now }
    {
        let order = Number::new(vehicle.last_order.get())?;
        let turn = self.turns.get(&(vehicle.callsign, order))?;
        if turn.ended.is_none() {
            Some(turn)
        } else {
            None
        }
    }

    // Each of the three is asked before the `&&`, since it also says that its rows are in order.
    #[tactic(auto, unfolding(crate::specs::Slices::is_share))]
    fn are_share_of(&self, division: DivisionNumber) -> bool
        ensures test { result ≡ is_share division self.now }
        ensures share { IsTrue result ↔ IsShare division self.now }
    {
        let vehicles_agree = self.vehicles_agree();
        let assignments_agree = self.assignments_agree();
        let turns_agree = self.turns_agree();
        self.are_owned_by(division) && vehicles_agree && assignments_agree && turns_agree
    }

    fn are_owned_by(&self, division: DivisionNumber) -> bool
        ensures { result ≡ are_owned division self.now }
    {
        are_owned(self.divisions.as_slice(), division)
            && are_owned(self.incidents.as_slice(), division)
            && are_owned(self.calls.as_slice(), division)
            && are_owned(self.vehicles.as_slice(), division)
            && are_owned(self.turns.as_slice(), division)
            && are_owned(self.assignments.as_slice(), division)
            && are_owned(self.points.as_slice(), division)
            && are_owned(self.loans.as_slice(), division)
            && are_owned(self.offers.as_slice(), division)
            && are_owned(self.reports.as_slice(), division)
    }

    fn vehicles_agree(&self) -> bool
        ensures all { result ≡ list_all (vehicle_agrees self.now) self.now.vehicles }
        ensures in_order { IsKeyed callsign_cmp vehicle_key self.now.vehicles }
    {
        let mut vehicles = self.vehicles.as_slice().iter();
        vehicles.all(|vehicle| self.vehicle_agrees(vehicle))
    }

    fn assignments_agree(&self) -> bool
        ensures all { result ≡ list_all (assignment_agrees self.now) self.now.assignments }
        ensures in_order { IsKeyed callsign_cmp assignment_key self.now.assignments }
    {
        let mut assignments = self.assignments.as_slice().iter();
        assignments.all(|assignment| self.assignment_agrees(assignment))
    }

    fn turns_agree(&self) -> bool
        ensures all { result ≡ list_all (turn_agrees self.now) self.now.turns }
        ensures in_order { IsKeyed numbered_cmp turn_key self.now.turns }
    {
        let mut turns = self.turns.as_slice().iter();
        turns.all(|turn| self.turn_agrees(turn))
    }

    fn vehicle_agrees(&self, vehicle: &Vehicle) -> bool
        ensures { result ≡ vehicle_agrees self.now vehicle.now }
    {
        parts_agree(
            vehicle,
            self.assignments.get(&vehicle.callsign),
            self.open_turn(vehicle),
        )
    }

    fn assignment_agrees(&self, assignment: &Assignment) -> bool
        ensures { result ≡ assignment_agrees self.now assignment.now }
    {
        let incident = self
            .incidents
            .get(&(assignment.division, assignment.incident));
        match incident {
            Some(incident) => incident.state.is_active(),
            None => true,
        }
    }

    fn turn_agrees(&self, turn: &Turn) -> bool
        ensures { result ≡ turn_agrees self.now turn.now }
    {
        let order = turn.order.get();
        match self.vehicles.get(&turn.callsign) {
            Some(vehicle) => {
                let last_order = vehicle.last_order.get();
                if turn.ended.is_some() {
                    order <= last_order
                } else {
                    order == last_order
                }
            }
            None => true,
        }
    }
}

fn are_owned<R: Row>(rows: &[R], division: DivisionNumber) -> bool
    ensures { result ≡ list_all (R.owned division) rows.now }
{
    rows.iter().all(|row| row.owned_by(division))
}
