//! What is known of the incidents that a request reads: calls and turns of those that their list
//! showed, and the numbers of the others.
ghost use Rattle.std.specs.Prelude.{◌≡◌, ◌==◌, ◌&&◌, ℕ, Bool, filter, map, not, IfErr, IfOk};
ghost use Rattle.room_tables_schema.specs.declared.database_faults.Fault.TheVariants.{Memory};
ghost use Rattle.room_model.specs.Room.{IsInOrder, Room};
ghost use Rattle.room_store_cache.specs.ShownLists.{AreShownListsOf, has, is_among};
ghost use Rattle.room_store_reads.specs.KnownParts.{IsKeptPart, IsKnownPart};
ghost use Rattle.room_store_reads.specs.RequestReads.{is_read};

use crate::incident_reads::numbers_read;
use crate::request_reads::{Incidents, Reads};
use room_place::plans::DivisionNumber;
use room_store_cache::cached_rows::put;
use room_store_cache::shown_lists::{ShownList, ShownLists, is_among};
use room_tables_schema::database_faults::Fault;
use room_types::numbers::Number;
use room_types::rows::{Row, Rows};
use room_types::tables::{Call, Incident, Turn};
use std::alloc::Global;

/// What is known of the incidents that a request reads.
#[derive(Drop)]
pub struct KnownPart {
    /// Their calls and turns that are known.
    pub calls: Rows<Call>,
    pub turns: Rows<Turn>,
    /// The numbers whose calls and turns the tables have to give.
    pub numbers: Vec<Number>,
}

/// What is known of the incidents that a request reads. The one fault is `Memory`.
pub fn known_part(
    alloc: Global,
    division: DivisionNumber,
    reads: &Reads,
    incidents: &Rows<Incident>,
    lists: &ShownLists,
) -> Result<KnownPart, Fault>
    ensures part { IfOk result (λ part. (room : Room) (at : ℕ) → IsInOrder room
        → AreShownListsOf lists.now.kept.items room
        → incidents.now ≡ filter (λ i. i.division == division && is_read reads.now.incidents at i)
        room.incidents
        → (known : ℕ → Bool) × IsKnownPart division reads.now room known part) }
    ensures memory { IfErr result (λ e. e ≡ Memory) }
{
    if let Incidents::Active = reads.incidents
        && let Some(list) = lists.get(&division)
    {
        return kept_part(alloc, list, reads.calls, incidents);
    }
    Ok(KnownPart {
        calls: Rows::new(alloc),
        turns: Rows::new(alloc),
        numbers: numbers_read(alloc, &reads.incidents, incidents)?,
    })
}

// What a list keeps of some incidents of its division. The one fault is `Memory`.
fn kept_part(
    alloc: Global,
    list: &ShownList,
    reads_calls: bool,
    incidents: &Rows<Incident>,
) -> Result<KnownPart, Fault>
    ensures part { IfOk result (IsKeptPart list.now reads_calls incidents.now) }
    ensures memory { IfErr result (λ e. e ≡ Memory) }
{
    Ok(KnownPart {
        calls: calls_of(alloc, list, reads_calls, incidents)?,
        turns: rows_of(alloc, &list.turns, list.division, incidents)?,
        numbers: numbers_missing(alloc, list, incidents)?,
    })
}

// The calls that a list keeps of some incidents, where they are read. The one fault is `Memory`.
fn calls_of(
    alloc: Global,
    list: &ShownList,
    is_read: bool,
    incidents: &Rows<Incident>,
) -> Result<Rows<Call>, Fault>
    ensures calls { IfOk result (λ x. x ≡ filter (λ c. is_read
        && is_among list.now.division incidents.now c.incident) list.now.calls) }
    ensures memory { IfErr result (λ e. e ≡ Memory) }
{
    if is_read {
        rows_of(alloc, &list.calls, list.division, incidents)
    } else {
        Ok(Rows::new(alloc))
    }
}

// A row that is of an incident.
trait OfIncident: Row {
    // The number of its incident.
    ghost incident_of: { Self → ℕ };

    fn incident(&self) -> Number
        ensures { result ≡ incident_of self.now };
}

impl OfIncident for Call {
    ghost incident_of = { λ c. c.incident };

    fn incident(&self) -> Number {
        self.incident
    }
}

impl OfIncident for Turn {
    ghost incident_of = { λ t. t.incident };

    fn incident(&self) -> Number {
        self.incident
    }
}

// Those of a division's rows that are of some incidents. The one fault is `Memory`.
fn rows_of<R: OfIncident>(
    alloc: Global,
    rows: &Rows<R>,
    division: DivisionNumber,
    incidents: &Rows<Incident>,
) -> Result<Rows<R>, Fault>
    ensures rows { IfOk result (λ x. x ≡ filter (λ y.
        is_among division incidents.now (R.incident_of y)) rows.now) }
    ensures memory { IfErr result (λ e. e ≡ Memory) }
{
    let mut found = Rows::new(alloc);
    for row in rows.as_slice() {
        if is_among(division, incidents, row.incident()) {
            put(&mut found, row)?;
        }
    }
    Ok(found)
}

// The numbers of incidents that a list hasn't. The one fault is `Memory`.
fn numbers_missing(
    alloc: Global,
    list: &ShownList,
    incidents: &Rows<Incident>,
) -> Result<Vec<Number>, Fault>
    ensures numbers { IfOk result (λ numbers. numbers.items ≡ map (λ i. i.number)
        (filter (λ i. not (has list.now i.number)) incidents.now)) }
    ensures memory { IfErr result (λ e. e ≡ Memory) }
{
    let mut numbers = Vec::new(alloc);
    for incident in incidents.as_slice() {
        if !list.has(incident.number) {
            numbers.push(incident.number)?;
        }
    }
    Ok(numbers)
}
