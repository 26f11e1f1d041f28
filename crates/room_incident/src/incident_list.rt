//! What a desk sees of its division's incidents.
ghost use Rattle.std.specs.List.{list_any};
ghost use Rattle.std.specs.Prelude.{◌≡◌, ◌<◌, List, IfErr, IfOk, OnErr, get_or, length, map, true};
ghost use Rattle.room_place.specs.declared.plans.Area.{Area};
ghost use Rattle.room_types.specs.Codes.{is_active};
ghost use Rattle.room_types.specs.declared.refusal_statuses.Refusal.TheVariants.{Memory};
ghost use Rattle.room_model.specs.DayTimes.{show_times};
ghost use Rattle.room_model.specs.Decisions.{Decides};
ghost use Rattle.room_model.specs.Incidents.{incident_line, show_incidents};
ghost use Rattle.room_model.specs.Queries.{active_incidents};
ghost use Rattle.room_model.specs.RoomSlices.{room_of};
ghost use Rattle.room_incident.specs.Tallies.{AreTallies};
ghost use Rattle.room_incident.specs.DayIncidents.{is_opened_between};

use crate::day_times::times;
use crate::incident_tallies::Tallies;
use crate::served_needs::lacking;
use room_types::answers::{Answer, IncidentLine, Listed};
use room_types::codes::Kind;
use room_types::decisions::Decision;
use room_types::needs::Counts;
use room_types::refusal_statuses::Refusal;
use room_types::rows::Rows;
use room_types::slices::Slice;
use room_types::tables::Incident;
use std::alloc::Global;

/// Shows the division's active incidents in number order, each with the number of its calls and
/// what it lacks. The one refusal is `Memory`, where there is such an incident.
#[tactic(auto, unfolding(room_model::specs::Incidents::show_incidents))]
pub fn incidents(alloc: Global, slice: &Slice) -> Result<Decision, Refusal>
    ensures decides { (plan : List Area) → Decides
        (show_incidents slice.now.division (room_of plan slice.now.rows)) result }
    ensures listing { OnErr result (list_any (λ i.
        is_active i.state) slice.now.rows.incidents ≡ true) }
{
    let lines = incident_lines(alloc, slice)?;
    Ok(Decision::show(Answer::Incidents(lines)))
}

fn incident_lines(alloc: Global, slice: &Slice) -> Result<Listed<IncidentLine>, Refusal>
    ensures lines { IfOk result (λ lines. (plan : List Area)
        → let r = room_of plan slice.now.rows in lines ≡ map
        (incident_line slice.now.division r) (active_incidents slice.now.division r)) }
    ensures memory { IfErr result (λ refusal. refusal ≡ Memory) }
    ensures listing { OnErr result (list_any (λ i.
        is_active i.state) slice.now.rows.incidents ≡ true) }
{
    if !has_active(&slice.rows.incidents) {
        return Ok(Listed::new(alloc));
    }
    let tallies = Tallies::of(alloc, slice)?;
    let mut lines = Listed::new(alloc);
    for (at, incident) in slice.rows.incidents.as_slice().iter().enumerate() {
        if incident.division == slice.division && incident.state.is_active() {
            lines.push(incident_line(slice, &tallies, at, incident))?;
        }
    }
    Ok(lines)
}

fn has_active(incidents: &Rows<Incident>) -> bool
    ensures { result ≡ list_any (λ i. is_active i.state) incidents.now }
{
    incidents.iter().any(|incident| incident.state.is_active())
}

// The line of the incident at a place.
fn incident_line(slice: &Slice, tallies: &Tallies, at: usize, incident: &Incident) -> IncidentLine
    requires tallies { AreTallies slice.now.division slice.now.rows tallies.now }
    requires place { at < length slice.now.rows.incidents }
    requires incident { incident.now ≡ get_or slice.now.rows.incidents at incident.now }
    requires division { incident.now.division ≡ slice.now.division }
    ensures { (plan : List Area) → result ≡ incident_line slice.now.division
        (room_of plan slice.now.rows) incident.now }
{
    IncidentLine {
        number: incident.number,
        place: incident.place,
        class: incident.class,
        needs: incident.needs,
        lack: Counts {
            ambulances: lacking(incident.needs.of(Kind::Ambulance), tallies.ambulances[at]),
            cars: lacking(incident.needs.of(Kind::Car), tallies.cars[at]),
            support: lacking(incident.needs.of(Kind::Support), tallies.support[at]),
        },
        opened: incident.opened,
        calls: tallies.calls[at] as u64,
    }
}

/// Shows the times of the division's active and closed incidents that were opened from one second
/// (of UTC since 1970) and before another, in number order. The one refusal is `Memory`, where
/// there is such an incident.
#[tactic(auto, unfolding(room_model::specs::DayTimes::show_times))]
pub fn day_times(alloc: Global, slice: &Slice, from: i64, to: i64) -> Result<Decision, Refusal>
    ensures decides { (plan : List Area) → Decides
        (show_times slice.now.division from to (room_of plan slice.now.rows)) result }
    ensures listing { OnErr result
        (list_any (is_opened_between from to) slice.now.rows.incidents ≡ true) }
{
    let times = times(alloc, &slice.rows.incidents, from, to)?;
    Ok(Decision::show(Answer::Times(times)))
}
