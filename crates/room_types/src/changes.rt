//! What a decision does to the rows: a list of changes, made in its order.
ghost use Rattle.std.specs.Prelude.{◌≡◌, ◌+◌, ◌≤◌, ◌++◌, [], length};

use crate::answers::Listed;
use crate::callsign::Callsign;
use crate::numbers::LastNumber;
use crate::tables::{
    Assignment, Call, Division, Incident, Loan, Offer, Point, Report, Turn, Vehicle,
};
use arrayvec::ArrayVec;
use room_place::plans::DivisionNumber;
use std::marker::Model;

/// A row to put, a row to drop, or a vehicle to settle.
#[derive(Clone, Copy)]
pub enum Change {
    PutDivision(Division),
    PutIncident(Incident),
    PutCall(Call),
    PutVehicle(Vehicle),
    PutTurn(Turn),
    PutAssignment(Assignment),
    PutPoint(Point),
    PutLoan(Loan),
    PutOffer(Offer),
    PutReport(Report),
    DropAssignment(Callsign),
    DropLoan(Callsign),
    DropOffer(Callsign),
    /// That vehicle, where it is there, gets this holder and is available.
    Settle(Callsign, DivisionNumber),
}

impl Default for Change {
    /// What lies in the places of a list that are not used. No list shows it.
    fn default() -> Change {
        Change::PutDivision(Division {
            number: DivisionNumber::of(1),
            last_incident: LastNumber::of(0),
        })
    }
}

/// As many changes as a decision makes that is no merge. A report that ends a turn and a loan makes
/// the most: it puts itself, the turn and the vehicle, and drops the assignment and the loan.
const MOST_CHANGES: usize = 5;

/// Five changes at most, in their order. They lie in the value itself, so nothing of it takes
/// memory. A contract sees the list.
#[derive(Drop)]
pub struct FewChanges {
    held: ArrayVec<Change, MOST_CHANGES>,
}

impl Model for FewChanges {
    ghost use Rattle.std.specs.Prelude.{List};
    ghost use Rattle.room_types.specs.declared.changes.Change.{Change as ChangeModel};

    ghost Value = { List ChangeModel };

    ghost view = { λ c. c.held.items };
}

impl FewChanges {
    /// No changes yet.
    pub fn new() -> FewChanges
        ensures { result ≡ [] }
    {
        FewChanges {
            held: ArrayVec::new(),
        }
    }

    /// The changes of an array.
    pub fn of<const COUNT: usize>(changes: [Change; COUNT]) -> FewChanges
        requires { COUNT ≤ 5 }
        ensures { result ≡ changes.entry }
    {
        let mut held = ArrayVec::new();
        held.try_extend_from_slice(&changes).unwrap();
        FewChanges { held }
    }

    /// Adds changes at the end, for which there is room.
    pub fn add(&mut self, more: &[Change])
        requires { length self.old + length more.now ≤ 5 }
        ensures { self.new ≡ self.old ++ more.now }
    {
        self.held.try_extend_from_slice(more).unwrap();
    }

    fn as_slice(&self) -> &[Change]
        ensures { result.now ≡ self.now }
    {
        self.held.as_slice()
    }
}

/// The changes of any decision, in their order. A contract sees the list.
#[derive(Drop)]
pub struct Changes {
    held: HeldChanges,
}

#[derive(Drop)]
enum HeldChanges {
    Few(FewChanges),
    /// A merge moves as many calls as its incident has.
    Many(Listed<Change>),
}

impl Model for Changes {
    ghost use Rattle.std.specs.Prelude.{List};
    ghost use Rattle.room_types.specs.HeldChanges.{changes_in};
    ghost use Rattle.room_types.specs.declared.changes.Change.{Change as ChangeModel};

    ghost Value = { List ChangeModel };

    ghost view = { λ c. changes_in c.held };
}

impl Changes {
    /// These few changes.
    pub fn few(changes: FewChanges) -> Changes
        ensures { result ≡ changes }
    {
        Changes {
            held: HeldChanges::Few(changes),
        }
    }

    /// The changes of a list that has grown.
    pub fn many(changes: Listed<Change>) -> Changes
        ensures { result ≡ changes }
    {
        Changes {
            held: HeldChanges::Many(changes),
        }
    }

    /// The changes, in their order.
    pub fn as_slice(&self) -> &[Change]
        ensures { result.now ≡ self.now }
    {
        match &self.held {
            HeldChanges::Few(changes) => changes.as_slice(),
            HeldChanges::Many(changes) => changes.as_slice(),
        }
    }
}
