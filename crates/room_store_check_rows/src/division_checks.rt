//! Whether the plan's divisions and no others have their rows, and whether points are theirs.
ghost use Rattle.std.specs.Prelude.{◌≡◌};
ghost use Rattle.room_store_check_rows.specs.RowTests.{has_row};

use crate::disagreements::Disagreement;
use crate::first_disagreement::{Judged, unless};
use crate::room_checks::RoomRows;
use room_place::plans::{Area, DivisionNumber, Plan};
use room_types::tables::{Division, Point};

impl Judged for Area {
    ghost use Rattle.room_store_check_rows.specs.FirstFaults.{area_disagreement};

    ghost disagreement = { λ plan s a. area_disagreement s a };

    fn disagreement(&self, _: &Plan, rows: &RoomRows) -> Option<Disagreement> {
        unless(has_row(rows, self), Disagreement::NoDivision(self.division))
    }
}

fn has_row(rows: &RoomRows, area: &Area) -> bool
    ensures { result ≡ has_row rows.now area.now }
{
    match DivisionNumber::new(area.division) {
        Some(division) => rows.divisions.get(&division).is_some(),
        None => false,
    }
}

impl Judged for Division {
    ghost use Rattle.room_store_check_rows.specs.FirstFaults.{division_disagreement};

    ghost disagreement = { λ plan s d. division_disagreement plan d };

    fn disagreement(&self, plan: &Plan, _: &RoomRows) -> Option<Disagreement> {
        unless(plan.has(self.number), Disagreement::Division(self.number))
    }
}

impl Judged for Point {
    ghost use Rattle.room_store_check_rows.specs.FirstFaults.{point_disagreement};

    ghost disagreement = { λ plan s p. point_disagreement plan p };

    fn disagreement(&self, plan: &Plan, _: &RoomRows) -> Option<Disagreement> {
        unless(
            plan.has(self.division),
            Disagreement::Point(self.division, self.number),
        )
    }
}
