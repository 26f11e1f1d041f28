//! Incidents of a day that are over: found by vehicle or by place, a page at a time.
ghost use Rattle.std.specs.List.{list_any};
ghost use Rattle.std.specs.Prelude.{◌≡◌, ◌==◌, List, IfErr, IfOk, filter};
ghost use Rattle.room_place.specs.declared.plans.Area.{Area};
ghost use Rattle.room_types.specs.declared.refusal_statuses.Refusal.TheVariants.{Memory};
ghost use Rattle.room_model.specs.ClosedIncidents.{is_sought, page_of, show_closed};
ghost use Rattle.room_model.specs.Decisions.{Decides};
ghost use Rattle.room_model.specs.RoomSlices.{room_of};
ghost use Rattle.room_incident.specs.ClosedPages.{is_on_pages, is_over_between, is_turn_of};

use room_place::places::distance;
use room_place::plans::DivisionNumber;
use room_types::answers::{Answer, ClosedPage, Listed};
use room_types::asks::{Search, Sought};
use room_types::callsign::Callsign;
use room_types::decisions::Decision;
use room_types::numbers::Number;
use room_types::refusal_statuses::Refusal;
use room_types::slices::Slice;
use room_types::tables::{Incident, Turn};
use std::alloc::Global;

/// The most incidents that a page has, so that an answer is small however long the day was.
const PAGE: usize = 100;

/// Shows those of the division's incidents that are closed or were merged, were opened from one
/// second (of UTC since 1970) and before another, and are sought: a page of them in number order.
/// The one refusal is `Memory`.
#[tactic(auto, unfolding(room_model::specs::ClosedIncidents::show_closed))]
pub fn closed(
    alloc: Global,
    slice: &Slice,
    from: i64,
    to: i64,
    search: &Search,
) -> Result<Decision, Refusal>
    ensures { (plan : List Area) → Decides (show_closed slice.now.division from to search.now
        (room_of plan slice.now.rows)) result }
{
    let page = page_of(alloc, slice, from, to, search)?;
    Ok(Decision::show(Answer::Closed(page)))
}

fn page_of(
    alloc: Global,
    slice: &Slice,
    from: i64,
    to: i64,
    search: &Search,
) -> Result<ClosedPage, Refusal>
    ensures page { IfOk result (λ page. page ≡ page_of (filter
        (is_on_pages slice.now.division slice.now.rows.turns from to search.now)
        slice.now.rows.incidents)) }
    ensures memory { IfErr result (λ refusal. refusal ≡ Memory) }
{
    let mut incidents = Listed::new(alloc);
    for incident in slice.rows.incidents.as_slice() {
        if is_on_pages(slice, incident, from, to, search) {
            if incidents.len() == PAGE {
                let next = Some(incident.number);
                return Ok(ClosedPage { incidents, next });
            }
            incidents.push(*incident)?;
        }
    }
    let next = None;
    Ok(ClosedPage { incidents, next })
}

// What takes long is asked last.
fn is_on_pages(slice: &Slice, incident: &Incident, from: i64, to: i64, search: &Search) -> bool
    ensures { result ≡ is_on_pages slice.now.division slice.now.rows.turns from to search.now
        incident.now }
{
    is_over_between(incident, slice.division, from, to)
        && search.first <= incident.number
        && is_sought(slice, incident, &search.sought)
}

fn is_over_between(incident: &Incident, division: DivisionNumber, from: i64, to: i64) -> bool
    ensures { result ≡ is_over_between division from to incident.now }
{
    let opened = i64::from(incident.opened.get());
    incident.division == division && !incident.state.is_active() && from <= opened && opened < to
}

fn is_sought(slice: &Slice, incident: &Incident, sought: &Sought) -> bool
    ensures { result ≡ is_sought sought.now
        (λ c. filter (is_turn_of slice.now.division c) slice.now.rows.turns) incident.now }
{
    match sought {
        Sought::All => true,
        Sought::Sent(callsign) => was_sent(slice, callsign, incident.number),
        Sought::Near(place, metres) => distance(incident.place, *place) <= metres.get(),
    }
}

// Whether a vehicle was sent to the incident.
fn was_sent(slice: &Slice, callsign: &Callsign, number: Number) -> bool
    ensures { result ≡ list_any (λ t. t.incident == number)
        (filter (is_turn_of slice.now.division callsign.now) slice.now.rows.turns) }
{
    slice
        .rows
        .turns
        .iter()
        .filter(|turn| is_turn_of(turn, slice.division, callsign))
        .any(|turn| turn.incident == number)
}

fn is_turn_of(turn: &Turn, division: DivisionNumber, callsign: &Callsign) -> bool
    ensures { result ≡ is_turn_of division callsign.now turn.now }
{
    turn.division == division && *callsign == turn.callsign
}
