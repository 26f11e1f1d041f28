//! The incidents of a division that a request reads, and the numbers of those whose turns it reads.
ghost use Rattle.std.specs.Prelude.{◌≡◌, ◌&&◌, ◌==◌, ◌||◌, ℕ, filter, map, not, IfErr, IfOk, OnOk};
ghost use Rattle.std.specs.List.{list_any};
ghost use Rattle.room_tables.specs.FoundRows.{Finds};
ghost use Rattle.room_tables_schema.specs.FileConnections.{HasRoomSchema, StandsOpen};
ghost use Rattle.room_tables_schema.specs.declared.database_faults.Fault.TheVariants.{Memory};
ghost use Rattle.room_tables_schema.specs.Outcomes.{ReadsOnly};
ghost use Rattle.room_model.specs.Room.{IsInOrder, Room};
ghost use Rattle.room_store_cache.specs.IncidentNumbers.{contains};
ghost use Rattle.room_store_cache.specs.RecentIncidents.{AreRecent};
ghost use Rattle.room_store_reads.specs.Partitions.{AreKnown};
ghost use Rattle.room_store_reads.specs.RequestReads.{is_merged, is_read, reads_turns};

use crate::partitions::{Partition, load_parts};
use crate::request_reads::Incidents;
use room_place::plans::DivisionNumber;
use room_store_cache::cache::Cache;
use room_store_cache::cached_rows::own_rows;
use room_tables::incident_table::{active_incidents, incidents_opened};
use room_tables_schema::database_faults::Fault;
use room_types::numbers::{Moment, Number};
use room_types::rows::Rows;
use room_types::tables::{Call, Incident};
use sqlite::{Alter, Connection};
use std::alloc::{AllocError, Global};

/// The incidents of a division that a request at a moment reads. Where a call is placed, those that
/// were opened last are known from then on.
pub fn load_incidents<S: Alter>(
    alloc: Global,
    conn: &mut Connection<S>,
    division: DivisionNumber,
    incidents: &Incidents,
    at: Moment,
    cache: &mut Cache,
) -> Result<Rows<Incident>, Fault>
    requires room { HasRoomSchema S.Store conn.old }
    requires open { StandsOpen S.Store conn.old }
    ensures rows { Finds S.Store conn.old conn.new result (λ room x. IsInOrder room
        → AreKnown cache.old room
        → x ≡ filter (λ i. i.division == division && is_read incidents.now at i) room.incidents) }
    ensures recent_incidents { Finds S.Store conn.old conn.new result (λ room _.
        AreRecent cache.old.recent_incidents room → AreRecent cache.new.recent_incidents room) }
    ensures others { cache.new
        ≡ record cache.old { recent_incidents = cache.new.recent_incidents } }
    ensures reads { ReadsOnly S.Store conn.old conn.new result }
{
    match *incidents {
        Incidents::Nothing => Ok(Rows::new(alloc)),
        Incidents::Active => match cache.queue_views.get(&division) {
            Some(queue_view) => own_rows(alloc, &queue_view.incidents, division),
            None => active_incidents(alloc, conn, division),
        },
        Incidents::Opened(from, to) => incidents_opened(alloc, conn, from, to, division),
        Incidents::Near(form) => cache
            .recent_incidents
            .near(alloc, conn, division, &form, at),
        Incidents::One(number) => Incident::load_part(alloc, conn, cache, division, &number),
        Incidents::Two(number, into) => {
            let none = Rows::new(alloc);
            load_parts::<Incident, S>(alloc, conn, cache, division, &[number, into], none)
        }
    }
}

/// The numbers of the incidents whose turns a request reads: of those that are active or named.
pub fn numbers_read(
    alloc: Global,
    incidents: &Incidents,
    rows: &Rows<Incident>,
) -> Result<Vec<Number>, Fault>
    ensures ok { IfOk result (λ numbers. (division at : ℕ) (room : Room) → IsInOrder room
        → rows.now ≡ filter (λ i. i.division == division && is_read incidents.now at i)
        room.incidents
        → (n : ℕ) → contains n numbers.items ≡ reads_turns division incidents.now room n) }
    ensures memory { IfErr result (λ e. e ≡ Memory) }
{
    match *incidents {
        Incidents::Active => numbers_of(alloc, rows),
        Incidents::One(number) => Ok(vec![in alloc; number]?),
        Incidents::Two(number, into) => Ok(vec![in alloc; number, into]?),
        Incidents::Nothing | Incidents::Opened(_, _) | Incidents::Near(_) => Ok(Vec::new(alloc)),
    }
}

/// The numbers of the incidents that were merged into one: of its calls, those that were given
/// another.
pub fn numbers_merged(
    alloc: Global,
    number: Number,
    calls: &Rows<Call>,
) -> Result<Vec<Number>, Fault>
    ensures ok { IfOk result (λ numbers. (n : ℕ)
        → contains n numbers.items ≡ is_merged number calls.now n) }
    ensures memory { IfErr result (λ e. e ≡ Memory) }
{
    let mut numbers = Vec::new(alloc);
    for call in calls.as_slice() {
        add_merged(&mut numbers, number, call.given)?;
    }
    Ok(numbers)
}

// Adds the number that a call of an incident was given, where that is another's and not yet there.
fn add_merged(numbers: &mut Vec<Number>, number: Number, given: Number) -> Result<(), AllocError>
    ensures { OnOk result ((n : ℕ) → contains n numbers.new.items
        ≡ contains n numbers.old.items || (not (number == n) && given == n)) }
{
    if is_known(numbers.as_slice(), number, given) {
        return Ok(());
    }
    numbers.push(given)?;
    Ok(())
}

// Whether it is the incident's own number, or there.
fn is_known(numbers: &[Number], number: Number, given: Number) -> bool
    ensures { result ≡ number == given || list_any (λ one. one == given) numbers.now }
{
    number == given || is_there(numbers, given)
}

// Whether it is one of them.
fn is_there(numbers: &[Number], given: Number) -> bool
    ensures { result ≡ list_any (λ one. one == given) numbers.now }
{
    numbers.iter().any(|one| *one == given)
}

// The numbers of incidents.
fn numbers_of(alloc: Global, rows: &Rows<Incident>) -> Result<Vec<Number>, Fault>
    ensures ok { IfOk result (λ numbers. numbers.items ≡ map (λ i. i.number) rows.now) }
    ensures memory { IfErr result (λ e. e ≡ Memory) }
{
    let mut numbers = Vec::new(alloc);
    for incident in rows.as_slice() {
        numbers.push(incident.number)?;
    }
    Ok(numbers)
}
