//! The first row of a table that disagrees with the rows that it names.
ghost use Rattle.std.specs.Prelude.{◌≡◌, List, Option};
ghost use Rattle.room_place.specs.declared.plans.Area.{Area};
ghost use Rattle.room_types.specs.declared.slices.DivisionRows.{DivisionRows};
ghost use Rattle.room_store_check_rows.specs.FirstFaults.{first_of, unless};
ghost use Rattle.room_store_check_rows.specs.declared.disagreements.Disagreement.{Disagreement};

use crate::disagreements::Disagreement;
use crate::room_checks::RoomRows;
use room_place::plans::Plan;

/// A row that the others are asked about.
pub trait Judged {
    ghost disagreement: { List Area → DivisionRows → Self → Option Disagreement };

    // What it disagrees in first; nothing where it agrees.
    fn disagreement(&self, plan: &Plan, rows: &RoomRows) -> Option<Disagreement>
        ensures { result ≡ disagreement plan.now.areas rows.now self.now };
}

/// What the first row of a table that disagrees at all disagrees in.
pub(crate) fn first_of<R: Judged>(plan: &Plan, rows: &RoomRows, table: &[R]) -> Option<Disagreement>
    ensures { result ≡ first_of (R.disagreement plan.now.areas rows.now) table.now }
{
    for row in table {
        let found = row.disagreement(plan, rows);
        if found.is_some() {
            return found;
        }
    }
    None
}

/// The fault, unless the row fits.
pub(crate) fn unless<F: Copy>(fits: bool, fault: F) -> Option<F>
    ensures { result ≡ unless fits fault }
{
    if fits { None } else { Some(fault) }
}
