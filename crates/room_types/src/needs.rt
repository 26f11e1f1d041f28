//! How many vehicles of each kind.
ghost use Rattle.std.specs.Prelude.{◌≡◌, true};
ghost use Rattle.std.specs.Option.{SomeIff};
ghost use Rattle.room_types.specs.Needs.{is_some_need, need_of, larger};

use crate::codes::Kind;
use crate::numbers::Need;
use std::marker::Model;

/// A number for each kind of vehicle: what an incident lacks, say.
#[derive(Clone, Copy, PartialEq, Eq)]
pub struct Counts {
    pub ambulances: Need,
    pub cars: Need,
    pub support: Need,
}

impl Counts {
    /// The number for a kind.
    pub fn of(self, kind: Kind) -> Need
        ensures { result ≡ need_of self kind }
    {
        match kind {
            Kind::Ambulance => self.ambulances,
            Kind::Car => self.cars,
            Kind::Support => self.support,
        }
    }

    /// For each kind the larger of the two numbers.
    pub fn larger(self, other: Counts) -> Counts
        ensures { result ≡ larger self other }
    {
        Counts {
            ambulances: self.ambulances.max(other.ambulances),
            cars: self.cars.max(other.cars),
            support: self.support.max(other.support),
        }
    }
}

/// What an incident needs: a number for each kind, at least one vehicle in all. A contract sees
/// the numbers.
#[derive(Clone, Copy, PartialEq, Eq)]
pub struct Needs {
    counts: Counts,
}

impl Model for Needs {
    ghost use Rattle.std.specs.Prelude.{◌≡◌, true};
    ghost use Rattle.room_types.specs.declared.needs.Counts.{Counts};
    ghost use Rattle.room_types.specs.Needs.{is_some_need};

    ghost Value = { Counts };

    ghost view = { λ n. n.counts };

    ghost invariant = { λ n. is_some_need n.counts ≡ true };

    ghost inverse = { λ counts. record { counts = counts } };
}

impl Needs {
    /// These needs, where they are for a vehicle at all.
    pub fn new(counts: Counts) -> Option<Needs>
        ensures { SomeIff result (is_some_need counts ≡ true) counts }
    {
        let all = counts.ambulances.get() + counts.cars.get() + counts.support.get();
        if all < 1 {
            return None;
        }
        Some(Needs { counts })
    }

    /// The numbers for all kinds.
    pub fn counts(self) -> Counts
        ensures counts { result ≡ self }
        ensures some { is_some_need self ≡ true }
    {
        self.counts
    }

    /// How many vehicles of a kind are needed: 0 to 9.
    pub fn of(self, kind: Kind) -> Need
        ensures { result ≡ need_of self kind }
    {
        self.counts.of(kind)
    }

    /// For each kind the larger of the two needs.
    pub fn larger(self, other: Needs) -> Needs
        ensures { result ≡ larger self other }
    {
        Needs {
            counts: self.counts.larger(other.counts),
        }
    }
}
