//! Incidents that desks named last, each with all its turns.
ghost use Rattle.std.specs.Prelude.{◌≡◌, ◌==◌, ◌&&◌, ℕ, true, IfErr, IfOk};
ghost use Rattle.room_types.specs.declared.asks.Ask.TheVariants.{Queue};
ghost use Rattle.room_types.specs.declared.asks.Ask.{Ask};
ghost use Rattle.room_model.specs.Room.{IsInOrder, Room};
ghost use Rattle.room_model.specs.WorkingRows.{reads_number};
ghost use Rattle.room_tables_schema.specs.declared.database_faults.Fault.TheVariants.{Memory};
ghost use Rattle.room_store_cache.specs.HistoryRows.{AreHistoryRows};
ghost use Rattle.room_store_cache.specs.EntryLemmas.{exact_pair};
ghost use Rattle.room_store_cache.specs.IncidentViews.{AreIncidentViewsOf, IsIncidentViewOf};

use crate::cached_rows::{put, put_if};
use crate::entries::{Entries, Entry};
use crate::history_rows::HistoryRows;
use room_place::plans::DivisionNumber;
use room_tables_schema::database_faults::Fault;
use room_types::changes::Change;
use room_types::numbers::Number;
use room_types::rows::Rows;
use room_types::tables::{Incident, Turn};
use std::alloc::Global;

// At most so many incidents of a queue are kept with their turns; of a longer queue none is.
const MOST_SHOWN: usize = 32;

/// What a division has under an incident's number: the incident, if there is one, and its turns.
#[derive(Drop)]
pub struct IncidentView {
    pub division: DivisionNumber,
    pub number: Number,
    pub incident: Option<Incident>,
    pub turns: Rows<Turn>,
}

/// Some incident views of the room that are known.
pub type IncidentViews = Entries<IncidentView>;

impl Entries<IncidentView> {
    /// Keeps the incidents that a queue shows, with their turns, where they are few.
    pub fn fill_shown(&mut self, alloc: Global, division: DivisionNumber, rows: &HistoryRows)
        ensures { (room : Room) (at : ℕ) → IsInOrder room
            → AreHistoryRows division Queue at room rows.now
            → AreIncidentViewsOf self.old.kept.items room
            → AreIncidentViewsOf self.new.kept.items room }
    {
        if rows.incidents.len() > MOST_SHOWN {
            return;
        }
        for incident in rows.incidents.as_slice() {
            self.fill(alloc, division, incident.number, rows);
        }
    }

    /// Keeps what a division has under a number, out of the rows of a request that reads its turns,
    /// where it isn't known.
    pub fn fill(
        &mut self,
        alloc: Global,
        division: DivisionNumber,
        number: Number,
        rows: &HistoryRows,
    )
        ensures { (room : Room) (ask : Ask) (at : ℕ) → IsInOrder room
            → reads_number division ask room number ≡ true
            → AreHistoryRows division ask at room rows.now
            → AreIncidentViewsOf self.old.kept.items room
            → AreIncidentViewsOf self.new.kept.items room }
    {
        if self.get(&(division, number)).is_some() {
            return;
        }
        if let Ok(incident_view) = incident_view_of(alloc, division, number, rows) {
            self.put(incident_view);
        }
    }
}

impl Entry for IncidentView {
    type Key = (DivisionNumber, Number);

    ghost is_so = { IsIncidentViewOf };

    ghost key_of = { λ x. (x.division, x.number) };

    fn key(&self) -> (DivisionNumber, Number) {
        (self.division, self.number)
    }

    fn apply(&mut self, change: &Change) -> Result<(), Fault> {
        match change {
            Change::PutIncident(incident) => {
                if self.is_of(incident.division, incident.number) {
                    self.incident = Some(*incident);
                }
                Ok(())
            }
            Change::PutTurn(turn) => {
                let is_own = self.is_of(turn.division, turn.incident);
                put_if(is_own, &mut self.turns, turn)
            }
            _ => Ok(()),
        }
    }

    ghost exact = { exact_pair };
}

impl IncidentView {
    // Whether it is what a division has under a number.
    fn is_of(&self, division: DivisionNumber, number: Number) -> bool
        ensures { result ≡ self.now.division == division && self.now.number == number }
    {
        self.division == division && self.number == number
    }
}

// What rows have under an incident's number whose turns are read. The one fault is `Memory`.
fn incident_view_of(
    alloc: Global,
    division: DivisionNumber,
    number: Number,
    rows: &HistoryRows,
) -> Result<IncidentView, Fault>
    ensures incident_view { IfOk result (λ incident_view. (room : Room) (ask : Ask) (at : ℕ)
        → IsInOrder room → reads_number division ask room number ≡ true
        → AreHistoryRows division ask at room rows.now
        → IsIncidentViewOf incident_view room) }
    ensures memory { IfErr result (λ e. e ≡ Memory) }
{
    let mut turns = Rows::new(alloc);
    for turn in rows.turns.as_slice() {
        if turn.incident == number {
            put(&mut turns, turn)?;
        }
    }
    Ok(IncidentView {
        division,
        number,
        incident: rows.incidents.get(&(division, number)).copied(),
        turns,
    })
}
