//! By which key each row is kept, and which divisions own it.
ghost use Rattle.std.specs.Prelude.{◌≡◌};
ghost use Rattle.room_types.specs.Keys.{is_party, division_key, incident_key, call_key};
ghost use Rattle.room_types.specs.Keys.{vehicle_key, turn_key, assignment_key, point_key, loan_key};
ghost use Rattle.room_types.specs.Keys.{offer_key, report_key, owns_division};
ghost use Rattle.room_types.specs.Keys.{owns_incident, owns_call, owns_vehicle, owns_turn};
ghost use Rattle.room_types.specs.Keys.{owns_assignment, owns_point, owns_loan, owns_offer};
ghost use Rattle.room_types.specs.Keys.{owns_report};
ghost use Rattle.room_types.specs.KeyLemmas.{exact_callsigns, exact_pair, exact_numbered};
ghost use Rattle.room_types.specs.KeyLemmas.{exact_number};

use crate::callsign::Callsign;
use crate::numbers::{Number, PointNumber, PositionNumber};
use crate::rows::Row;
use crate::tables::{
    Assignment, Call, Division, Incident, Loan, Offer, Point, Report, Turn, Vehicle,
};
use room_place::plans::DivisionNumber;

impl Row for Division {
    type Key = DivisionNumber;

    ghost key_of = { division_key };

    ghost owned = { owns_division };

    ghost exact = { exact_number };

    fn key(&self) -> DivisionNumber {
        self.number
    }

    fn owned_by(&self, division: DivisionNumber) -> bool {
        self.number == division
    }
}

impl Row for Incident {
    type Key = (DivisionNumber, Number);

    ghost key_of = { incident_key };

    ghost owned = { owns_incident };

    ghost exact = { exact_pair };

    fn key(&self) -> (DivisionNumber, Number) {
        (self.division, self.number)
    }

    fn owned_by(&self, division: DivisionNumber) -> bool {
        self.division == division
    }
}

impl Row for Call {
    type Key = (PositionNumber, Number);

    ghost key_of = { call_key };

    ghost owned = { owns_call };

    ghost exact = { exact_pair };

    fn key(&self) -> (PositionNumber, Number) {
        (self.position, self.serial)
    }

    fn owned_by(&self, division: DivisionNumber) -> bool {
        self.division == division
    }
}

impl Row for Vehicle {
    type Key = Callsign;

    ghost key_of = { vehicle_key };

    ghost owned = { owns_vehicle };

    ghost exact = { exact_callsigns };

    fn key(&self) -> Callsign {
        self.callsign
    }

    fn owned_by(&self, division: DivisionNumber) -> bool {
        self.holder == division
    }
}

impl Row for Turn {
    type Key = (Callsign, Number);

    ghost key_of = { turn_key };

    ghost owned = { owns_turn };

    ghost exact = { exact_numbered };

    fn key(&self) -> (Callsign, Number) {
        (self.callsign, self.order)
    }

    fn owned_by(&self, division: DivisionNumber) -> bool {
        self.division == division
    }
}

impl Row for Assignment {
    type Key = Callsign;

    ghost key_of = { assignment_key };

    ghost owned = { owns_assignment };

    ghost exact = { exact_callsigns };

    fn key(&self) -> Callsign {
        self.callsign
    }

    fn owned_by(&self, division: DivisionNumber) -> bool {
        self.division == division
    }
}

impl Row for Point {
    type Key = (DivisionNumber, PointNumber);

    ghost key_of = { point_key };

    ghost owned = { owns_point };

    ghost exact = { exact_pair };

    fn key(&self) -> (DivisionNumber, PointNumber) {
        (self.division, self.number)
    }

    fn owned_by(&self, division: DivisionNumber) -> bool {
        self.division == division
    }
}

impl Row for Loan {
    type Key = Callsign;

    ghost key_of = { loan_key };

    ghost owned = { owns_loan };

    ghost exact = { exact_callsigns };

    fn key(&self) -> Callsign {
        self.callsign
    }

    fn owned_by(&self, division: DivisionNumber) -> bool {
        is_party(self.lender, self.borrower, division)
    }
}

// Whether a division lends or borrows.
fn is_party(lender: DivisionNumber, borrower: DivisionNumber, division: DivisionNumber) -> bool
    ensures { result ≡ is_party lender borrower division }
{
    lender == division || borrower == division
}

impl Row for Offer {
    type Key = Callsign;

    ghost key_of = { offer_key };

    ghost owned = { owns_offer };

    ghost exact = { exact_callsigns };

    fn key(&self) -> Callsign {
        self.callsign
    }

    fn owned_by(&self, division: DivisionNumber) -> bool {
        is_party(self.lender, self.borrower, division)
    }
}

impl Row for Report {
    type Key = (Callsign, Number);

    ghost key_of = { report_key };

    ghost owned = { owns_report };

    ghost exact = { exact_numbered };

    fn key(&self) -> (Callsign, Number) {
        (self.callsign, self.number)
    }

    fn owned_by(&self, division: DivisionNumber) -> bool {
        self.division == division
    }
}
