//! Whole numbers that have their range in their type.
ghost use Rattle.std.specs.Prelude.{◌≡◌, ◌≤◌};
ghost use Rattle.std.specs.Option.{SomeIff};

use std::marker::Model;

/// A whole number from `LEAST` to `GREATEST`, both included. A contract sees it as the number.
#[derive(Clone, Copy, PartialEq, Eq, PartialOrd, Ord)]
pub struct Bounded<const LEAST: u32, const GREATEST: u32> {
    value: u32,
}

impl<const LEAST: u32, const GREATEST: u32> Model for Bounded<LEAST, GREATEST> {
    ghost use Rattle.std.specs.Prelude.{ℕ, ◌≤◌};

    ghost Value = { ℕ };

    ghost view = { λ w. w.value };

    ghost invariant = { λ w. (LEAST ≤ w.value) × (w.value ≤ GREATEST) };

    ghost inverse = { λ n. record { value = n } };
}

impl<const LEAST: u32, const GREATEST: u32> Bounded<LEAST, GREATEST> {
    /// The number, where it is in the range.
    pub fn new(value: u32) -> Option<Self>
        ensures { SomeIff result ((LEAST ≤ value) × (value ≤ GREATEST)) value }
    {
        if LEAST <= value && value <= GREATEST {
            Some(Bounded { value })
        } else {
            None
        }
    }

    /// The number, which the caller knows to be in the range.
    pub fn of(value: u32) -> Self
        requires least { LEAST ≤ value }
        requires greatest { value ≤ GREATEST }
        ensures { result ≡ value }
    {
        Bounded { value }
    }

    /// The plain number.
    pub fn get(self) -> u32
        ensures value { result ≡ self.entry }
        ensures least { LEAST ≤ self.entry }
        ensures greatest { self.entry ≤ GREATEST }
    {
        self.value
    }
}
