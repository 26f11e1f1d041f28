//! The rows that a room leaves to a new one.
ghost use Rattle.std.specs.Prelude.{◌≡◌, IfOk, List};
ghost use Rattle.room_place.specs.declared.plans.Area.{Area};
ghost use Rattle.room_model.specs.Room.{IsInOrder};
ghost use Rattle.room_model.specs.RoomSlices.{room_of};
ghost use Rattle.dispatch_room_archive.specs.Composition.{puts};
ghost use Rattle.dispatch_room_archive.specs.Successor.{renewed};
ghost use Rattle.dispatch_room_archive.specs.Leftovers.{puts_kept};

use crate::past_rows::Past;
use crate::put_changes::{put_all, put_kept};
use room_types::changes::Change;
use room_types::numbers::Moment;
use room_types::slices::DivisionRows;
use std::alloc::{AllocError, Global};

/// The changes that put the rows which a new room gets from a room with these rows, renewed since a
/// moment.
pub fn puts_since(
    alloc: Global,
    since: Moment,
    rows: &DivisionRows,
) -> Result<Vec<Change>, AllocError>
    ensures { IfOk result (λ changes. (plan : List Area) → IsInOrder (room_of plan rows.now)
        → changes.items ≡ puts (renewed since (room_of plan rows.now))) }
{
    let past = Past::of(alloc, since, rows)?;
    puts_of(alloc, &past)
}

// The same, once it is known what is over.
fn puts_of(alloc: Global, past: &Past<'_>) -> Result<Vec<Change>, AllocError>
    ensures { IfOk result (λ changes. (plan : List Area)
        → changes.items ≡ puts_kept past.now.since (room_of plan past.now.rows.now)) }
{
    let rows = past.rows;
    let mut changes = Vec::new(alloc);
    put_all(&mut changes, &rows.divisions)?;
    put_kept(&mut changes, &rows.incidents, past)?;
    put_kept(&mut changes, &rows.calls, past)?;
    put_all(&mut changes, &rows.vehicles)?;
    put_kept(&mut changes, &rows.turns, past)?;
    put_all(&mut changes, &rows.assignments)?;
    put_all(&mut changes, &rows.points)?;
    put_all(&mut changes, &rows.loans)?;
    put_all(&mut changes, &rows.offers)?;
    put_kept(&mut changes, &rows.reports, past)?;
    Ok(changes)
}
