//! The nearest candidates, searched ring by ring of cells round the incident, so that the distances
//! of those in later rings need not be known. The search ends where all candidates were seen, or
//! where enough were found and the worst that is kept is strictly nearer than the floor of the
//! rings that are left: one just as far could stand before it by its callsign. Those that don't
//! break cover are searched first.
ghost use Rattle.std.specs.Prelude.{◌≡◌, ◌≤◌, IfErr, IfOk, None, filter, map, take};
ghost use Rattle.room_place.specs.Choice.{AreFirst};
ghost use Rattle.room_place.specs.Places.{IsInSquares};
ghost use Rattle.room_types.specs.KeyedRows.{IsKeyed};
ghost use Rattle.room_types.specs.declared.refusal_statuses.Refusal.TheVariants.{Memory};
ghost use Rattle.room_model.specs.Proposals.{is_before};
ghost use Rattle.room_model.specs.RoomSlices.{unplanned};
ghost use Rattle.room_alloc.specs.Nearness.{nearness_cmp, proposal_with, whole};
ghost use Rattle.room_alloc.specs.Rings.{AreApart, AreByRing, AreOfKind, ArePlaced, IsByRing};
ghost use Rattle.room_alloc.specs.Rings.{IsPlaced, IsSearched, candidate_of, candidates_round};
ghost use Rattle.room_alloc.specs.Rings.{is_breaking, is_candidate, is_enough, nearness_of};
ghost use Rattle.room_alloc.specs.Rings.{proposal_at};

use crate::cover::{breaks_cover, eligible};
use crate::nearness::{Candidate, Nearness};
use room_place::grid_cells::{cell_of, ring_floor, ring_of};
use room_place::places::{Place, distance};
use room_place::plans::DivisionNumber;
use room_types::answers::{Listed, Proposal};
use room_types::codes::Kind;
use room_types::numbers::Moment;
use room_types::refusal_statuses::Refusal;
use room_types::rows::Rows;
use room_types::slices::Slice;
use room_types::tables::{Incident, Vehicle};
use std::alloc::{AllocError, Global};

/// The division's eligible vehicles of a kind, in callsign order, each with its ring round the
/// incident. The one refusal is `Memory`.
pub(crate) fn candidates_round(
    alloc: Global,
    slice: &Slice,
    incident: &Incident,
    kind: Kind,
    at: Moment,
) -> Result<Vec<Candidate>, Refusal>
    ensures ok { IfOk result (λ all. all.items
        ≡ candidates_round slice.now.division incident.now kind at (unplanned slice.now.rows)
        slice.now.rows.vehicles) }
    ensures placed { IfOk result (λ all. ArePlaced incident.now all.items) }
    ensures memory { IfErr result (λ refusal. refusal ≡ Memory) }
{
    let mut all = Vec::new(alloc);
    for vehicle in slice.rows.vehicles.as_slice() {
        if is_candidate(vehicle, slice.division, kind, at) {
            all.push(candidate(slice, incident, vehicle, at))?;
        }
    }
    Ok(all)
}

// Whether the division may send the vehicle, which is of the kind.
fn is_candidate(vehicle: &Vehicle, division: DivisionNumber, kind: Kind, at: Moment) -> bool
    ensures { result ≡ is_candidate division at kind vehicle.now }
{
    eligible(vehicle, division, at) && vehicle.kind == kind
}

fn candidate(slice: &Slice, incident: &Incident, vehicle: &Vehicle, at: Moment) -> Candidate
    ensures value { result
        ≡ candidate_of slice.now.division incident.now at (unplanned slice.now.rows) vehicle.now }
    ensures placed { IsPlaced incident.now result }
{
    // A place is in the squares, which bounds its ring and ties its distance to that.
    in_squares(&vehicle.place);
    in_squares(&incident.place);
    Candidate {
        ring: ring_of(cell_of(vehicle.place), cell_of(incident.place)),
        breaks: breaks_cover(slice, vehicle, at),
        vehicle: *vehicle,
    }
}

fn in_squares(place: &Place)
    ensures { IsInSquares place.now }
{
    let _east = place.east.get();
    let _north = place.north.get();
}

/// The first `count` of the candidates that break cover, or of those that don't.
pub(crate) fn nearest(
    alloc: Global,
    candidates: &[Candidate],
    incident: &Incident,
    kind: Kind,
    breaks: bool,
    count: usize,
) -> Result<Listed<Proposal>, Refusal>
    requires placed { ArePlaced incident.now candidates.now }
    requires kind { AreOfKind kind candidates.now }
    requires apart { AreApart candidates.now }
    ensures ok { IfOk result (λ few.
        AreFirst is_before count None
        (map (proposal_at incident.now) (filter (is_breaking breaks) candidates.now)) few) }
    ensures memory { IfErr result (λ refusal. refusal ≡ Memory) }
{
    let by_ring = by_ring(alloc, candidates, breaks)?;
    let found = search(alloc, by_ring.as_slice(), incident, count)?;
    let few = first_of(alloc, &found, kind, breaks, count)?;
    Ok(few)
}

// The candidates that break cover, or those that don't, in the order of their rings.
fn by_ring(
    alloc: Global,
    candidates: &[Candidate],
    breaks: bool,
) -> Result<Vec<Candidate>, AllocError>
    ensures { IfOk result
        (λ all. AreByRing (filter (is_breaking breaks) candidates.now) all.items) }
{
    let mut all = breaking(alloc, candidates, breaks)?;
    all.sort_unstable_by_key(|candidate| candidate.ring);
    Ok(all)
}

fn breaking(
    alloc: Global,
    candidates: &[Candidate],
    breaks: bool,
) -> Result<Vec<Candidate>, AllocError>
    ensures { IfOk result
        (λ breaking. breaking.items ≡ filter (is_breaking breaks) candidates.now) }
{
    let mut breaking = Vec::new(alloc);
    for candidate in candidates {
        if is_breaking(candidate, breaks) {
            breaking.push(*candidate)?;
        }
    }
    Ok(breaking)
}

fn is_breaking(candidate: &Candidate, breaks: bool) -> bool
    ensures { result ≡ is_breaking breaks candidate.now }
{
    if breaks {
        candidate.breaks
    } else {
        !candidate.breaks
    }
}

// Goes from ring to ring. The search ends where all candidates were seen, or where enough were
// found and the worst that is kept is nearer than any of the rings that are left can be.
fn search(
    alloc: Global,
    candidates: &[Candidate],
    incident: &Incident,
    count: usize,
) -> Result<Rows<Nearness>, Refusal>
    requires placed { ArePlaced incident.now candidates.now }
    requires rising { IsByRing candidates.now }
    ensures ok { IfOk result (λ found. IsSearched count incident.now candidates.now found) }
    ensures memory { IfErr result (λ refusal. refusal ≡ Memory) }
{
    let mut found = Rows::new(alloc);
    for candidate in candidates {
        if is_enough(&found, count, candidate.ring) {
            return Ok(found);
        }
        found.put(nearness_of(candidate, incident))?;
    }
    Ok(found)
}

fn nearness_of(candidate: &Candidate, incident: &Incident) -> Nearness
    ensures { result ≡ nearness_of incident.now candidate.now }
{
    Nearness {
        distance: distance(candidate.vehicle.place, incident.place),
        callsign: candidate.vehicle.callsign,
    }
}

// Whether no candidate of this ring or a later one can be among the first: one as far away as the
// worst could stand before it by its callsign, so the worst has to be nearer than the ring's floor.
fn is_enough(found: &Rows<Nearness>, count: usize, ring: u32) -> bool
    requires { ring ≤ 200 }
    ensures { result ≡ is_enough count ring found.now }
{
    if count == 0 {
        return true;
    }
    match found.as_slice().get(count - 1) {
        Some(worst) => worst.distance < ring_floor(ring),
        None => false,
    }
}

fn first_of(
    alloc: Global,
    found: &Rows<Nearness>,
    kind: Kind,
    breaks: bool,
    count: usize,
) -> Result<Listed<Proposal>, AllocError>
    ensures few { IfOk result (λ few.
        few ≡ map (proposal_with breaks kind) (take count found.now)) }
    ensures in_order { IsKeyed nearness_cmp whole found.now }
{
    let rows = found.as_slice();
    let mut few = Listed::new(alloc);
    for near in &rows[..count.min(rows.len())] {
        few.push(Proposal {
            breaks,
            distance: near.distance,
            kind,
            callsign: near.callsign,
        })?;
    }
    Ok(few)
}
