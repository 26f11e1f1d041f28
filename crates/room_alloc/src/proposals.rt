//! Which vehicles are proposed for an incident.
ghost use Rattle.std.specs.Prelude.{◌≡◌, ◌++◌, List, IfOk, IfErr, None, OnOk, Some, map};
ghost use Rattle.room_place.specs.Choice.{AreFirst};
ghost use Rattle.room_place.specs.declared.plans.Area.{Area};
ghost use Rattle.room_types.specs.declared.refusal_statuses.Refusal.TheVariants.{Memory};
ghost use Rattle.room_types.specs.declared.tables.Incident.{Incident};
ghost use Rattle.room_model.specs.Decisions.{Decides};
ghost use Rattle.room_model.specs.Proposals.{all_proposed, is_before, propose, proposed};
ghost use Rattle.room_model.specs.Queries.{incident_of};
ghost use Rattle.room_model.specs.Room.{IsInOrder};
ghost use Rattle.room_model.specs.RoomSlices.{room_of, unplanned};
ghost use Rattle.room_alloc.specs.ProposalAnswers.{AreForIncident};
ghost use Rattle.room_alloc.specs.Rings.{AreApart, AreOfKind, ArePlaced, proposal_at};

use crate::nearness::Candidate;
use crate::ring_search::{candidates_round, nearest};
use room_incident::active_incidents::active;
use room_incident::served_needs::lack;
use room_types::answers::{Answer, Listed, Proposal};
use room_types::codes::Kind;
use room_types::decisions::Decision;
use room_types::numbers::{Moment, Number};
use room_types::refusal_statuses::Refusal;
use room_types::slices::{DivisionRows, Slice};
use room_types::tables::Incident;
use std::alloc::{AllocError, Global};

/// The proposals for an active incident: of each kind as many of the eligible vehicles as it
/// lacks, or all where there are fewer; those first that don't break cover, then the nearer, then
/// by callsign.
///
/// Refused as `active` refuses, or as `Memory`.
#[tactic(auto, unfolding(room_model::specs::Proposals::propose))]
pub fn propose(
    alloc: Global,
    slice: &Slice,
    number: Number,
    at: Moment,
) -> Result<Decision, Refusal>
    ensures decides { (plan : List Area) → Decides
        (propose slice.now.division number at (room_of plan slice.now.rows)) result }
    ensures first { IfOk result (λ x. (plan : List Area) (i : Incident)
        → incident_of slice.now.division number (room_of plan slice.now.rows) ≡ Some i
        → AreForIncident slice.now.division i at (room_of plan slice.now.rows) x.answer) }
{
    lemma_in_order(&slice.rows);
    let incident = active(slice, number)?;
    let proposals = of_all_kinds(alloc, slice, incident, at)?;
    Ok(Decision::show(Answer::Proposals(proposals)))
}

fn of_all_kinds(
    alloc: Global,
    slice: &Slice,
    incident: &Incident,
    at: Moment,
) -> Result<Listed<Proposal>, Refusal>
    requires { incident.now.division ≡ slice.now.division }
    ensures ok { IfOk result (λ all.
        all ≡ all_proposed slice.now.division incident.now at (unplanned slice.now.rows)) }
    ensures memory { IfErr result (λ e. e ≡ Memory) }
{
    let ambulances = of_kind(alloc, slice, incident, Kind::Ambulance, at)?;
    let cars = of_kind(alloc, slice, incident, Kind::Car, at)?;
    let support = of_kind(alloc, slice, incident, Kind::Support, at)?;
    joined(ambulances, &cars, &support)
}

// What is proposed of a kind.
fn of_kind(
    alloc: Global,
    slice: &Slice,
    incident: &Incident,
    kind: Kind,
    at: Moment,
) -> Result<Listed<Proposal>, Refusal>
    requires { incident.now.division ≡ slice.now.division }
    ensures ok { IfOk result (λ few.
        few ≡ proposed slice.now.division incident.now at (unplanned slice.now.rows) kind) }
    ensures memory { IfErr result (λ e. e ≡ Memory) }
{
    lemma_in_order(&slice.rows);
    let count = lack(incident, &slice.rows.turns, kind).get();
    let all = candidates_round(alloc, slice, incident, kind, at)?;
    let few = first_of_both(alloc, all.as_slice(), incident, kind, count as usize)?;
    Ok(few)
}

// Those first that don't break cover, and then, where they are too few, the others.
fn first_of_both(
    alloc: Global,
    candidates: &[Candidate],
    incident: &Incident,
    kind: Kind,
    count: usize,
) -> Result<Listed<Proposal>, Refusal>
    requires placed { ArePlaced incident.now candidates.now }
    requires kind { AreOfKind kind candidates.now }
    requires apart { AreApart candidates.now }
    ensures ok { IfOk result (λ few.
        AreFirst is_before count None (map (proposal_at incident.now) candidates.now) few) }
    ensures memory { IfErr result (λ e. e ≡ Memory) }
{
    let mut few = nearest(alloc, candidates, incident, kind, false, count)?;
    let left = count.saturating_sub(few.len());
    let others = nearest(alloc, candidates, incident, kind, true, left)?;
    append(&mut few, &others)?;
    Ok(few)
}

// A slice's rows are in order, which each list's type says.
fn lemma_in_order(rows: &DivisionRows)
    ensures { (plan : List Area) → IsInOrder (room_of plan rows.now) }
{
    let _divisions = rows.divisions.as_slice();
    let _incidents = rows.incidents.as_slice();
    let _calls = rows.calls.as_slice();
    let _vehicles = rows.vehicles.as_slice();
    let _turns = rows.turns.as_slice();
    let _assignments = rows.assignments.as_slice();
    let _points = rows.points.as_slice();
    let _loans = rows.loans.as_slice();
    let _offers = rows.offers.as_slice();
    let _reports = rows.reports.as_slice();
}

fn joined(
    ambulances: Listed<Proposal>,
    cars: &Listed<Proposal>,
    support: &Listed<Proposal>,
) -> Result<Listed<Proposal>, Refusal>
    ensures ok { IfOk result (λ all. all ≡ ambulances ++ (cars.now ++ support.now)) }
    ensures memory { IfErr result (λ e. e ≡ Memory) }
{
    let mut all = ambulances;
    append(&mut all, cars)?;
    append(&mut all, support)?;
    Ok(all)
}

fn append(all: &mut Listed<Proposal>, more: &Listed<Proposal>) -> Result<(), AllocError>
    ensures { OnOk result (all.new ≡ all.old ++ more.now) }
{
    for proposal in more.as_slice() {
        all.push(*proposal)?;
    }
    Ok(())
}
