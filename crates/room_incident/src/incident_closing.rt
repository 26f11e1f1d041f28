//! An incident closed.
ghost use Rattle.std.specs.Prelude.{◌≡◌, List, IfOk, IsSome};
ghost use Rattle.room_place.specs.Choice.{Among};
ghost use Rattle.room_place.specs.declared.plans.Area.{Area};
ghost use Rattle.room_types.specs.declared.tables.Turn.{Turn};
ghost use Rattle.room_model.specs.Incidents.{close};
ghost use Rattle.room_model.specs.RoomSlices.{room_of};

use crate::active_incidents::active;
use crate::served_needs::is_attended;
use room_types::changes::Change;
use room_types::codes::State;
use room_types::decisions::Decision;
use room_types::numbers::Number;
use room_types::refusal_statuses::Refusal;
use room_types::slices::Slice;
use room_types::tables::Incident;

/// Closes the division's incident.
///
/// Refused as `NoSuchIncident`, then as `IncidentNotOpen`, then as `StillAssigned` where it has an
/// open turn.
#[tactic(auto, unfolding(room_model::specs::Decisions::refuse_if, room_model::specs::Incidents::close))]
pub fn close(slice: &Slice, number: Number) -> Result<Decision, Refusal>
    ensures decides { (plan : List Area)
        → result ≡ close slice.now.division number (room_of plan slice.now.rows) }
    ensures ended { IfOk result (λ x. (t : Turn) → Among t slice.now.rows.turns
        → t.division ≡ slice.now.division → t.incident ≡ number → IsSome t.ended) }
{
    let incident = active(slice, number)?;
    if is_attended(&slice.rows.turns, slice.division, number) {
        return Err(Refusal::StillAssigned);
    }
    let closed = Incident {
        state: State::Closed,
        ..*incident
    };
    Ok(Decision::done([Change::PutIncident(closed)]))
}
