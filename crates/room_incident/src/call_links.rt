//! To which incident a call is linked.
ghost use Rattle.std.specs.Prelude.{◌≡◌, List, IfSome, filter, option_copied, true};
ghost use Rattle.room_place.specs.Choice.{least};
ghost use Rattle.room_place.specs.declared.plans.Area.{Area};
ghost use Rattle.room_types.specs.Codes.{is_active};
ghost use Rattle.room_model.specs.Queries.{is_nearer, link_target};
ghost use Rattle.room_model.specs.RoomSlices.{room_of};
ghost use Rattle.room_incident.specs.CallLinks.{IsLinkTarget, is_open_near};

use room_place::places::{Place, distance};
use room_types::link_limits::{LINK_METRES, LINK_SECONDS};
use room_types::numbers::Moment;
use room_types::rows::Rows;
use room_types::slices::Slice;
use room_types::tables::Incident;

/// The incident that a call at this place and moment is linked to: the nearest of the division's
/// active ones that lie near enough and were opened late enough, of equally near ones that of the
/// lowest number. None where there is no such incident.
pub fn link_target<'a>(slice: &'a Slice, place: &Place, at: Moment) -> Option<&'a Incident>
    ensures target { (plan : List Area)
        → option_copied result ≡ link_target slice.now.division place.now at
        (room_of plan slice.now.rows) }
    ensures nearest { IsLinkTarget slice.now.division place.now at slice.now.rows.incidents
        (option_copied result) }
    ensures active { IfSome result (λ i. is_active i.now.state ≡ true) }
    ensures division { IfSome result (λ i. i.now.division ≡ slice.now.division) }
{
    nearest(&slice.rows.incidents, place, at)
}

// Of all these incidents, whichever division's they are.
fn nearest<'a>(incidents: &'a Rows<Incident>, place: &Place, at: Moment) -> Option<&'a Incident>
    ensures { option_copied result ≡ least (is_nearer place.now)
        (filter (is_open_near place.now at) incidents.now) }
{
    let mut nearest: Option<&Incident> = None;
    for incident in incidents.as_slice() {
        if is_open_near(incident, place, at) {
            nearest = match nearest {
                Some(other) if !is_nearer(place, incident, other) => Some(other),
                _ => Some(incident),
            };
        }
    }
    nearest
}

fn is_open_near(incident: &Incident, place: &Place, at: Moment) -> bool
    ensures { result ≡ is_open_near place.now at incident.now }
{
    incident.state.is_active()
        && distance(incident.place, *place) <= LINK_METRES
        && at.get().saturating_sub(incident.opened.get()) <= LINK_SECONDS
}

fn is_nearer(place: &Place, one: &Incident, other: &Incident) -> bool
    ensures { result ≡ is_nearer place.now one.now other.now }
{
    let near = distance(one.place, *place);
    let far = distance(other.place, *place);
    near < far || near == far && one.number < other.number
}
