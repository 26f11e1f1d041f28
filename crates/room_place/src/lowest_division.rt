//! The lowest division among areas.
ghost use Rattle.std.specs.Prelude.{◌≡◌};
ghost use Rattle.room_place.specs.Plans.{division_of};

use crate::places::Place;
use crate::plans::Area;

/// The lowest division among the areas that have the place.
#[tactic(auto, unfolding(crate::specs::Plans::division_of))]
pub(crate) fn lowest_division(areas: &[Area], place: &Place) -> Option<u32>
    ensures { result ≡ division_of areas.now place.now }
{
    let mut lowest = None;
    for area in areas {
        if area.rect.has(place) {
            lowest = match lowest {
                Some(division) if division <= area.division => Some(division),
                _ => Some(area.division),
            };
        }
    }
    lowest
}
