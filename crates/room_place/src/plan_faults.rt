//! What makes areas and a zone no plan.
ghost use Rattle.std.specs.Prelude.{◌≡◌};
ghost use Rattle.room_place.specs.Plans.{plan_fault, has_sound_count as is_sound_count};
ghost use Rattle.room_place.specs.Plans.{are_of_divisions as all_of_divisions};
ghost use Rattle.room_place.specs.Plans.{are_rectangles as all_rectangles, is_zone as zone_test};
ghost use Rattle.room_place.specs.Plans.{is_ascii as ascii_test};

use crate::plans::{Area, LAST_DIVISION, LONGEST_ZONE, MOST_AREAS, PlanFault};

/// The first fault of a plan, each tested over the whole list before the next.
pub(crate) fn first_fault(areas: &[Area], zone: &str) -> Option<PlanFault>
    ensures { result ≡ plan_fault areas.now zone.now }
{
    if !has_sound_count(areas) {
        Some(PlanFault::Count)
    } else if !are_of_divisions(areas) {
        Some(PlanFault::Number)
    } else if !are_rectangles(areas) {
        Some(PlanFault::Rectangle)
    } else if !is_zone(zone) {
        Some(PlanFault::Zone)
    } else {
        None
    }
}

fn has_sound_count(areas: &[Area]) -> bool
    ensures { result ≡ is_sound_count areas.now }
{
    (1..=MOST_AREAS).contains(&areas.len())
}

fn are_of_divisions(areas: &[Area]) -> bool
    ensures { result ≡ all_of_divisions areas.now }
{
    areas
        .iter()
        .all(|area| (1..=LAST_DIVISION).contains(&area.division))
}

fn are_rectangles(areas: &[Area]) -> bool
    ensures { result ≡ all_rectangles areas.now }
{
    areas.iter().all(|area| area.rect.is_sound())
}

fn is_zone(zone: &str) -> bool
    ensures { result ≡ zone_test zone.now }
{
    (1..=LONGEST_ZONE).contains(&zone.len()) && is_ascii(zone)
}

fn is_ascii(text: &str) -> bool
    ensures { result ≡ ascii_test text.now }
{
    text.as_bytes().iter().all(|byte| byte.is_ascii())
}
