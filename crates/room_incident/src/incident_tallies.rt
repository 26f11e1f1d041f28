//! How many of some numbers are those of each incident.
ghost use Rattle.std.specs.Prelude.{◌≡◌, IfErr, IfOk, map};
ghost use Rattle.room_types.specs.Keys.{incident_key, pair_cmp};
ghost use Rattle.room_types.specs.declared.refusal_statuses.Refusal.TheVariants.{Memory};
ghost use Rattle.room_types.specs.KeyedRows.{IsAt, IsGapFor, IsKeyed};
ghost use Rattle.room_incident.specs.Tallies.{AreTallies, call_numbers, served_numbers};
ghost use Rattle.room_incident.specs.Tallies.{serves_here, times};

use crate::served_needs::counts;
use room_place::plans::DivisionNumber;
use room_types::codes::Kind;
use room_types::numbers::Number;
use room_types::refusal_statuses::Refusal;
use room_types::rows::{Row, Rows};
use room_types::slices::Slice;
use room_types::tables::{Call, Incident, Turn};
use std::alloc::Global;

/// How many calls each incident has, and how many vehicles of each kind it got, in their order.
#[derive(Drop)]
pub(crate) struct Tallies {
    pub calls: Vec<usize>,
    pub ambulances: Vec<usize>,
    pub cars: Vec<usize>,
    pub support: Vec<usize>,
}

impl Tallies {
    /// Those of a division's incidents. The one refusal is `Memory`.
    pub fn of(alloc: Global, slice: &Slice) -> Result<Tallies, Refusal>
        ensures ok { IfOk result (AreTallies slice.now.division slice.now.rows) }
        ensures memory { IfErr result (λ e. e ≡ Memory) }
    {
        let calls = call_numbers(alloc, &slice.rows.calls, slice.division)?;
        Ok(Tallies {
            calls: tally(alloc, &slice.rows.incidents, slice.division, &calls)?,
            ambulances: tally_served(alloc, slice, Kind::Ambulance)?,
            cars: tally_served(alloc, slice, Kind::Car)?,
            support: tally_served(alloc, slice, Kind::Support)?,
        })
    }
}

// How many vehicles of a kind each incident got. The one refusal is `Memory`.
fn tally_served(alloc: Global, slice: &Slice, kind: Kind) -> Result<Vec<usize>, Refusal>
    ensures ok { IfOk result (λ counts. counts.items
        ≡ map (times slice.now.division (served_numbers slice.now.division kind
        slice.now.rows.turns)) slice.now.rows.incidents) }
    ensures memory { IfErr result (λ e. e ≡ Memory) }
{
    let numbers = served_numbers(alloc, &slice.rows.turns, slice.division, kind)?;
    tally(alloc, &slice.rows.incidents, slice.division, &numbers)
}

// For each incident, in their order, how many of the division's numbers are its own. It takes
// a search for each number. The one refusal is `Memory`.
fn tally(
    alloc: Global,
    incidents: &Rows<Incident>,
    division: DivisionNumber,
    numbers: &[Number],
) -> Result<Vec<usize>, Refusal>
    ensures ok { IfOk result (λ counts.
        counts.items ≡ map (times division numbers.now) incidents.now) }
    ensures memory { IfErr result (λ e. e ≡ Memory) }
{
    let rows = incidents.as_slice();
    let mut counts = vec![in alloc; 0; rows.len()]?;
    for number in numbers {
        if let Ok(at) = place_of(rows, &(division, *number)) {
            counts[at] += 1;
        }
    }
    Ok(counts)
}

// The incidents' numbers of the division's calls. The one refusal is `Memory`.
fn call_numbers(
    alloc: Global,
    calls: &Rows<Call>,
    division: DivisionNumber,
) -> Result<Vec<Number>, Refusal>
    ensures ok { IfOk result (λ numbers.
        numbers.items ≡ call_numbers division calls.now) }
    ensures memory { IfErr result (λ e. e ≡ Memory) }
{
    let mut numbers = Vec::new(alloc);
    for call in calls.as_slice() {
        if call.division == division {
            numbers.push(call.incident)?;
        }
    }
    Ok(numbers)
}

// The incidents' numbers of the division's turns of a kind that count for what an incident got.
// The one refusal is `Memory`.
fn served_numbers(
    alloc: Global,
    turns: &Rows<Turn>,
    division: DivisionNumber,
    kind: Kind,
) -> Result<Vec<Number>, Refusal>
    ensures ok { IfOk result (λ numbers.
        numbers.items ≡ served_numbers division kind turns.now) }
    ensures memory { IfErr result (λ e. e ≡ Memory) }
{
    let mut numbers = Vec::new(alloc);
    for turn in turns.as_slice() {
        if serves_here(turn, division, kind) {
            numbers.push(turn.incident)?;
        }
    }
    Ok(numbers)
}

// Whether a turn is the division's, of a kind, and counts for what its incident got.
fn serves_here(turn: &Turn, division: DivisionNumber, kind: Kind) -> bool
    ensures { result ≡ serves_here division kind turn.now }
{
    turn.division == division && turn.kind == kind && counts(turn)
}

// Where the incident of a key is, or where it would go.
fn place_of(incidents: &[Incident], key: &(DivisionNumber, Number)) -> Result<usize, usize>
    requires { IsKeyed pair_cmp incident_key incidents.now }
    ensures found { IfOk result (IsAt pair_cmp incident_key incidents.now key.now) }
    ensures absent { IfErr result (IsGapFor pair_cmp incident_key incidents.now key.now) }
{
    incidents.binary_search_by_key(key, |incident| incident.key())
}
