//! The incidents that vehicles are sent to.
ghost use Rattle.std.specs.Prelude.{◌≡◌, List, IfOk, MatchResult, Err};
ghost use Rattle.room_place.specs.declared.plans.Area.{Area};
ghost use Rattle.room_types.specs.declared.tables.Incident.{Incident};
ghost use Rattle.room_model.specs.Decisions.{Verdict, where_active};
ghost use Rattle.room_model.specs.Queries.{incident_of};
ghost use Rattle.room_model.specs.RoomSlices.{room_of};

use room_types::numbers::Number;
use room_types::refusal_statuses::Refusal;
use room_types::slices::Slice;
use room_types::tables::Incident;

/// The division's incident of this number, where it is active: what becomes of it is decided then.
///
/// Refused as `NoSuchIncident`, then as `IncidentNotOpen`.
#[tactic(auto, unfolding(room_model::specs::Decisions::refuse_if, room_model::specs::Queries::incident_of))]
pub fn active<'a>(slice: &'a Slice, number: Number) -> Result<&'a Incident, Refusal>
    // Whatever is decided of an active incident, in whichever plan.
    ensures decided { (plan : List Area) (decide : Incident → Verdict)
        → MatchResult result (λ i.
        where_active (incident_of slice.now.division number
        (room_of plan slice.now.rows)) decide ≡ decide i.now) (λ refusal.
        where_active (incident_of slice.now.division number
        (room_of plan slice.now.rows)) decide ≡ Err refusal) }
    ensures division { IfOk result (λ i. i.now.division ≡ slice.now.division) }
    ensures number { IfOk result (λ i. i.now.number ≡ number) }
{
    match slice.rows.incidents.get(&(slice.division, number)) {
        None => Err(Refusal::NoSuchIncident),
        Some(incident) if incident.state.is_active() => Ok(incident),
        Some(_) => Err(Refusal::IncidentNotOpen),
    }
}
