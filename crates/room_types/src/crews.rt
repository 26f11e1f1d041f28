//! The rows of one vehicle that its crew's requests are decided on.
ghost use Rattle.std.specs.Prelude.{◌≡◌, true};
ghost use Rattle.room_types.specs.Crews.{are_own, is_crew, is_own_assignment, is_own_loan};
ghost use Rattle.room_types.specs.Crews.{is_own_turn, passes};

use crate::sent_vehicles::sent_agrees;
use crate::tables::{Assignment, Loan, Turn, Vehicle};

/// A vehicle with its assignment, its open turn and its loan. Its status says whether it is
/// offered.
#[derive(Clone, Copy)]
pub struct CrewRows {
    pub vehicle: Vehicle,
    pub assignment: Option<Assignment>,
    pub turn: Option<Turn>,
    pub loan: Option<Loan>,
}

/// The rows of one vehicle, whichever division owns them. It has an assignment and an open turn
/// exactly where it is busy: its holder's, for one incident, of its last order.
#[derive(Clone, Copy)]
pub struct CrewSlice {
    pub rows: CrewRows,
    pub ghost agrees: { is_crew rows ≡ true },
}

impl CrewSlice {
    ghost use Rattle.std.specs.Prelude.{◌≡◌, ◌↔◌, IsSome, IfSome};
    ghost use Rattle.room_types.specs.Crews.{IsCrew};

    /// A slice of just these rows. None exactly where a row is another vehicle's, the turn is
    /// ended, or the rows disagree. Takes no memory.
    pub fn build(rows: CrewRows) -> Option<CrewSlice>
        ensures crew { IsSome result ↔ IsCrew rows }
        ensures rows { IfSome result (λ slice. slice.rows ≡ rows) }
    {
        if rows.are_crew() {
            Some(CrewSlice { rows })
        } else {
            None
        }
    }
}

impl CrewRows {
    ghost use Rattle.std.specs.Prelude.{◌≡◌, ◌↔◌, IsTrue};
    ghost use Rattle.room_types.specs.Crews.{IsCrew};

    #[tactic(auto, unfolding(crate::specs::Crews::is_crew))]
    fn are_crew(&self) -> bool
        ensures test { result ≡ is_crew self.now }
        ensures crew { IsTrue result ↔ IsCrew self.now }
    {
        self.are_own() && sent_agrees(&self.vehicle, self.assignment.as_ref(), self.turn.as_ref())
    }

    fn are_own(&self) -> bool
        ensures { result ≡ are_own self.now }
    {
        self.has_own_assignment() && self.has_own_turn() && self.has_own_loan()
    }

    // Whether the assignment, if there is one, is this vehicle's.
    fn has_own_assignment(&self) -> bool
        ensures { result ≡ passes (is_own_assignment self.now.vehicle.callsign)
            self.now.assignment }
    {
        match self.assignment {
            Some(assignment) => assignment.callsign == self.vehicle.callsign,
            None => true,
        }
    }

    // Whether the turn, if there is one, is this vehicle's and open.
    fn has_own_turn(&self) -> bool
        ensures { result ≡ passes (is_own_turn self.now.vehicle.callsign) self.now.turn }
    {
        match self.turn {
            Some(turn) => turn.callsign == self.vehicle.callsign && turn.ended.is_none(),
            None => true,
        }
    }

    // Whether the loan, if there is one, is this vehicle's.
    fn has_own_loan(&self) -> bool
        ensures { result ≡ passes (is_own_loan self.now.vehicle.callsign) self.now.loan }
    {
        match self.loan {
            Some(loan) => loan.callsign == self.vehicle.callsign,
            None => true,
        }
    }
}
