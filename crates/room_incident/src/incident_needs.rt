//! The needs of an incident changed.
ghost use Rattle.std.specs.Prelude.{◌≡◌, ◌≤◌, List, IfOk};
ghost use Rattle.room_place.specs.Choice.{Among};
ghost use Rattle.room_place.specs.declared.plans.Area.{Area};
ghost use Rattle.room_types.specs.Needs.{need_of};
ghost use Rattle.room_types.specs.declared.changes.Change.TheVariants.{PutIncident};
ghost use Rattle.room_types.specs.declared.codes.Kind.{Kind};
ghost use Rattle.room_types.specs.declared.tables.Incident.{Incident};
ghost use Rattle.room_model.specs.Incidents.{change_needs, is_below};
ghost use Rattle.room_model.specs.Queries.{served};
ghost use Rattle.room_model.specs.RoomSlices.{room_of};

use crate::active_incidents::active;
use crate::served_needs::served;
use room_types::changes::Change;
use room_types::codes::Kind;
use room_types::decisions::Decision;
use room_types::needs::Needs;
use room_types::numbers::Number;
use room_types::refusal_statuses::Refusal;
use room_types::slices::Slice;
use room_types::tables::Incident;

/// Changes the needs of the division's incident.
///
/// Refused as `NoSuchIncident`, then as `IncidentNotOpen`, then as `BelowServed` where a need is
/// below the number of vehicles of that kind that serve the incident.
#[tactic(auto, unfolding(room_model::specs::Decisions::refuse_if, room_model::specs::Incidents::change_needs))]
pub fn change_needs(slice: &Slice, number: Number, needs: Needs) -> Result<Decision, Refusal>
    ensures decides { (plan : List Area)
        → result ≡ change_needs slice.now.division number needs (room_of plan slice.now.rows) }
    // No need that is put is below what the incident got of that kind.
    ensures served { IfOk result (λ x. (i : Incident) (plan : List Area) (k : Kind)
        → Among (PutIncident i) x.changes
        → served slice.now.division number k (room_of plan slice.now.rows) ≤ need_of i.needs k) }
{
    let incident = active(slice, number)?;
    if is_below(slice, number, needs) {
        return Err(Refusal::BelowServed);
    }
    let changed = Incident { needs, ..*incident };
    Ok(Decision::done([Change::PutIncident(changed)]))
}

fn is_below(slice: &Slice, number: Number, needs: Needs) -> bool
    ensures { (plan : List Area) → result ≡ is_below needs (λ k.
        served slice.now.division number k (room_of plan slice.now.rows)) }
{
    let turns = &slice.rows.turns;
    (needs.of(Kind::Ambulance).get() as usize)
        < served(turns, slice.division, number, Kind::Ambulance)
        || (needs.of(Kind::Car).get() as usize) < served(turns, slice.division, number, Kind::Car)
        || (needs.of(Kind::Support).get() as usize)
            < served(turns, slice.division, number, Kind::Support)
}
