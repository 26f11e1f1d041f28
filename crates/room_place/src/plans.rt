//! The plan of the divisions: whose area a place is in, and in which time zone their days begin.
ghost use Rattle.std.specs.Prelude.{◌≡◌, true, string_bytes};
ghost use Rattle.room_place.specs.Plans.{is_plan};

use crate::bounded_numbers::Bounded;
use crate::lowest_division::lowest_division;
use crate::places::{Place, is_in_squares};
use crate::plan_faults::first_fault;
use std::alloc::Global;
use std::fmt;
use std::marker::Model;

/// A division of the service: 1 to 9.
pub type DivisionNumber = Bounded<1, 9>;

/// A plan has at most so many areas.
pub const MOST_AREAS: usize = 64;

/// The greatest number of a division.
pub const LAST_DIVISION: u32 = 9;

/// The most bytes of a zone's name.
pub const LONGEST_ZONE: usize = 64;

/// A rectangle with inclusive corners, in metres of easting and northing.
#[derive(Clone, Copy, PartialEq, Eq)]
pub struct Rect {
    pub west: u32,
    pub south: u32,
    pub east: u32,
    pub north: u32,
}

/// A rectangle of a division's area.
#[derive(Clone, Copy, PartialEq, Eq)]
pub struct Area {
    /// 1 to 9 in a plan.
    pub division: u32,
    /// Within the squares in a plan.
    pub rect: Rect,
}

/// Why areas and a zone are no plan. Of several reasons the first of this list is given.
#[derive(Clone, Copy, PartialEq, Eq)]
pub enum PlanFault {
    /// No area, or more than 64.
    Count,
    /// A division that is not 1 to 9.
    Number,
    /// A rectangle whose west is above its east, or south above its north, or that leaves the
    /// squares.
    Rectangle,
    /// A zone that is not 1 to 64 ASCII bytes.
    Zone,
    /// Memory was refused.
    Memory,
}

/// The areas of all divisions, and the time zone of their days.
/// It has 1 to 64 areas, each of a division 1 to 9 and within the squares that references are
/// read in, and a zone of 1 to 64 ASCII bytes. Areas may overlap.
#[derive(Drop)]
pub struct Plan {
    areas: Vec<Area>,
    zone: String,
    ghost sound: { is_plan areas.items (string_bytes zone) ≡ true },
}

impl Model for Plan {
    ghost use Rattle.std.specs.Prelude.{string_bytes};
    ghost use Rattle.room_place.specs.Plans.{Layout};

    ghost Value = { Layout };

    ghost view = { λ p. record {
      areas = p.areas.items;
      zone = string_bytes p.zone;
      sound = p.sound;
    } };
}

impl Rect {
    ghost use Rattle.std.specs.Prelude.{◌≡◌};
    ghost use Rattle.room_place.specs.Plans.{has_place, is_rectangle};

    // A place on an edge is in the rectangle.
    pub(crate) fn has(&self, place: &Place) -> bool
        ensures { result ≡ has_place place.now self.now }
    {
        let (east, north) = (place.east.get(), place.north.get());
        self.west <= east && east <= self.east && self.south <= north && north <= self.north
    }

    pub(crate) fn is_sound(&self) -> bool
        ensures { result ≡ is_rectangle self.now }
    {
        self.west <= self.east
            && self.south <= self.north
            && is_in_squares(self.west, self.south)
            && is_in_squares(self.east, self.north)
    }
}

impl Plan {
    ghost use Rattle.std.specs.Prelude.{◌≡◌, ◌↔◌, ◌≤◌, None, IsTrue, IfOk, IfErr, IfNone, IfSome};
    ghost use Rattle.std.specs.Prelude.{OnOk, All, Any};
    ghost use Rattle.room_place.specs.Plans.{Explains, plan_fault, has_place, has_division};
    ghost use Rattle.room_place.specs.Plans.{division_of as lowest_division};

    /// A plan of these areas and this zone, or its first fault; `Memory` only where it has no
    /// other.
    pub fn new(alloc: Global, areas: Vec<Area>, zone: &str) -> Result<Plan, PlanFault>
        ensures plan { IfOk result (λ plan. (plan.areas ≡ areas.items) × (plan.zone ≡ zone.now)) }
        ensures sound { OnOk result (plan_fault areas.items zone.now ≡ None) }
        ensures fault { IfErr result (Explains areas.items zone.now) }
    {
        if let Some(fault) = first_fault(areas.as_slice(), zone) {
            return Err(fault);
        }
        let zone = String::from_str(alloc, zone).map_err(|_| PlanFault::Memory)?;
        Ok(Plan { areas, zone })
    }

    /// The areas, in the order in which the plan was given them.
    pub fn areas(&self) -> &[Area]
        ensures { result.now ≡ self.now.areas }
    {
        self.areas.as_slice()
    }

    /// The division of a place: the lowest number among the areas that have it, none where none
    /// has.
    pub fn division_of(&self, place: Place) -> Option<DivisionNumber>
        ensures value { result ≡ lowest_division self.now.areas place }
        ensures outside { IfNone result (All (λ area.
            ¬ IsTrue (has_place place area.rect)) self.now.areas) }
        ensures inside { IfSome result (λ d. Any (λ area. (area.division ≡ d)
            × IsTrue (has_place place area.rect)) self.now.areas) }
        ensures lowest { IfSome result (λ d. All (λ area. IsTrue (has_place place area.rect)
            → d ≤ area.division) self.now.areas) }
    {
        match lowest_division(self.areas(), &place) {
            Some(division) => Some(DivisionNumber::of(division)),
            None => None,
        }
    }

    /// Whether an area is of the division.
    pub fn has(&self, division: DivisionNumber) -> bool
        ensures { result ≡ has_division self.now.areas division }
    {
        let division = division.get();
        self.areas.iter().any(|area| area.division == division)
    }

    /// The name of the time zone in which the days of all divisions begin.
    pub fn zone(&self) -> &str
        ensures { result.now ≡ self.now.zone }
    {
        self.zone.as_str()
    }
}

impl fmt::Display for PlanFault {
    fn fmt<W: fmt::Write>(&self, f: &mut fmt::Formatter<W>) -> fmt::Result {
        f.write_str(match self {
            PlanFault::Count => "the plan has no area, or more than 64",
            PlanFault::Number => "an area's division is not 1 to 9",
            PlanFault::Rectangle => "an area is turned round or leaves the squares",
            PlanFault::Zone => "the zone is not 1 to 64 ASCII bytes",
            PlanFault::Memory => "memory was refused",
        })
    }
}
