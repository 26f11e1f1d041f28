//! Whether the rows of all tables make a well-formed room, and else the first thing that is wrong.
ghost use Rattle.std.specs.Prelude.{◌≡◌, ◌↔◌, IfErr, IfOk, IsTrue};
ghost use Rattle.room_types.specs.declared.refusal_statuses.Refusal.TheVariants.{Memory};
ghost use Rattle.room_model.specs.Room.{IsInOrder};
ghost use Rattle.room_model.specs.RoomSlices.{room_of};
ghost use Rattle.room_model.specs.RoomAgreements.{IsWellFormed};
ghost use Rattle.room_store_check_rows.specs.FirstFaults.{first_disagreement, rows_disagreement};
ghost use Rattle.room_store_check_rows.specs.FirstFaults.{standing_disagreement};
ghost use Rattle.room_store_check_rows.specs.Disagreements.{Detects};

use crate::disagreements::Disagreement;
use crate::first_disagreement::first_of;
use crate::opening_calls::unopened;
use room_place::plans::Plan;
use room_types::refusal_statuses::Refusal;
use room_types::slices::DivisionRows;
use std::alloc::Global;

/// All the rows of a room: a list of each type. None is lent.
pub type RoomRows = DivisionRows<'static>;

/// Whether these rows make a well-formed room in a plan: whether they agree, at every key, in all
/// that each room of the machine agrees in. The one refusal is `Memory`.
pub fn is_well_formed(alloc: Global, plan: &Plan, rows: &RoomRows) -> Result<bool, Refusal>
    ensures test { IfOk result (λ fits. IsTrue fits
        ↔ IsWellFormed (room_of plan.now.areas rows.now)) }
    ensures memory { IfErr result (λ refusal. refusal ≡ Memory) }
{
    Ok(disagreement(alloc, plan, rows)?.is_none())
}

/// What is wrong first with the room that these rows make in a plan; nothing exactly where it is
/// well-formed. Tables are looked at one after another, each in key order, and incidents once more
/// for their openings. Each row looks up the rows that it names, and what calls give is put in
/// order once. The one refusal is `Memory`.
pub fn disagreement(
    alloc: Global,
    plan: &Plan,
    rows: &RoomRows,
) -> Result<Option<Disagreement>, Refusal>
    ensures detected { IfOk result (Detects (room_of plan.now.areas rows.now)) }
    ensures first { IfOk result (λ found. found ≡ first_disagreement plan.now.areas rows.now) }
    ensures memory { IfErr result (λ refusal. refusal ≡ Memory) }
{
    are_in_order(plan, rows);
    let unopened = unopened(alloc, rows)?;
    Ok(rows_disagreement(plan, rows).or(unopened))
}

// Rows are always in key order: this says it of all tables.
fn are_in_order(plan: &Plan, rows: &RoomRows)
    ensures { IsInOrder (room_of plan.now.areas rows.now) }
{
    rows.divisions.as_slice();
    rows.incidents.as_slice();
    rows.calls.as_slice();
    rows.vehicles.as_slice();
    rows.turns.as_slice();
    rows.assignments.as_slice();
    rows.points.as_slice();
    rows.loans.as_slice();
    rows.offers.as_slice();
    rows.reports.as_slice();
}

// The first row that disagrees with the rows that it names.
fn rows_disagreement(plan: &Plan, rows: &RoomRows) -> Option<Disagreement>
    ensures { result ≡ rows_disagreement plan.now.areas rows.now }
{
    standing_disagreement(plan, rows)
        .or(first_of(plan, rows, rows.turns.as_slice()))
        .or(first_of(plan, rows, rows.reports.as_slice()))
        .or(first_of(plan, rows, rows.calls.as_slice()))
        .or(first_of(plan, rows, rows.incidents.as_slice()))
}

// The first that disagrees of the plan's areas, divisions, points, and vehicles with what stands
// beside them.
pub(crate) fn standing_disagreement(plan: &Plan, rows: &RoomRows) -> Option<Disagreement>
    ensures { result ≡ standing_disagreement plan.now.areas rows.now }
{
    first_of(plan, rows, plan.areas())
        .or(first_of(plan, rows, rows.divisions.as_slice()))
        .or(first_of(plan, rows, rows.points.as_slice()))
        .or(first_of(plan, rows, rows.vehicles.as_slice()))
        .or(first_of(plan, rows, rows.loans.as_slice()))
        .or(first_of(plan, rows, rows.offers.as_slice()))
        .or(first_of(plan, rows, rows.assignments.as_slice()))
}
