//! The incidents that a division's list showed last, with all their calls and turns.
ghost use Rattle.std.specs.Prelude.{◌≡◌, ◌==◌, ◌&&◌, ℕ, IfErr, IfOk};
ghost use Rattle.room_types.specs.declared.asks.Ask.TheVariants.{Incidents};
ghost use Rattle.room_model.specs.Room.{IsInOrder, Room};
ghost use Rattle.room_tables_schema.specs.declared.database_faults.Fault.TheVariants.{Memory};
ghost use Rattle.room_store_cache.specs.HistoryRows.{AreHistoryRows};
ghost use Rattle.room_store_cache.specs.EntryLemmas.{exact_number};
ghost use Rattle.room_store_cache.specs.ShownLists.{AreShownListsOf, IsShownListOf, has, is_among};

use crate::cached_rows::{own_rows, put_if};
use crate::entries::{Entries, Entry};
use crate::history_rows::HistoryRows;
use room_place::plans::DivisionNumber;
use room_tables_schema::database_faults::Fault;
use room_types::changes::Change;
use room_types::numbers::Number;
use room_types::rows::Rows;
use room_types::tables::{Call, Incident, Turn};
use std::alloc::Global;

/// All calls and turns of some incidents of a division. An incident that was closed or merged since
/// is still among them.
#[derive(Drop)]
pub struct ShownList {
    pub division: DivisionNumber,
    /// The incidents, as they were shown.
    pub incidents: Rows<Incident>,
    pub calls: Rows<Call>,
    pub turns: Rows<Turn>,
}

/// The lists of some divisions that are known, with no more incidents than each showed.
pub type ShownLists = Entries<ShownList>;

impl ShownList {
    /// Whether the division's incident of a number is among them.
    pub fn has(&self, number: Number) -> bool
        ensures { result ≡ has self.now number }
    {
        is_among(self.division, &self.incidents, number)
    }

    // Whether it has the calls and turns of a division's incident.
    fn keeps(&self, division: DivisionNumber, number: Number) -> bool
        ensures { result ≡ division == self.now.division && has self.now number }
    {
        division == self.division && self.has(number)
    }

    // Whether all these incidents of the division are among them.
    fn has_all(&self, incidents: &Rows<Incident>) -> bool {
        incidents.iter().all(|incident| self.has(incident.number))
    }
}

impl Entries<ShownList> {
    /// Keeps the incidents that a division's list shows, out of the rows that it reads, where they
    /// aren't all known.
    pub fn fill(&mut self, alloc: Global, division: DivisionNumber, rows: &HistoryRows)
        ensures { (room : Room) (at : ℕ) → IsInOrder room
            → AreHistoryRows division Incidents at room rows.now
            → AreShownListsOf self.old.kept.items room → AreShownListsOf self.new.kept.items room }
    {
        if let Some(list) = self.get(&division)
            && list.has_all(&rows.incidents)
        {
            return;
        }
        if let Ok(list) = list_of(alloc, division, rows) {
            self.put(list);
        }
    }
}

impl Entry for ShownList {
    type Key = DivisionNumber;

    ghost is_so = { IsShownListOf };

    ghost key_of = { λ x. x.division };

    fn key(&self) -> DivisionNumber {
        self.division
    }

    // Of an incident that was opened since, nothing is kept before the next list shows it.
    fn apply(&mut self, change: &Change) -> Result<(), Fault> {
        match change {
            Change::PutCall(call) => {
                let is_kept = self.keeps(call.division, call.incident);
                put_if(is_kept, &mut self.calls, call)
            }
            Change::PutTurn(turn) => {
                let is_kept = self.keeps(turn.division, turn.incident);
                put_if(is_kept, &mut self.turns, turn)
            }
            _ => Ok(()),
        }
    }

    ghost exact = { exact_number };
}

// What a list shows, out of the rows that it reads. The one fault is `Memory`.
fn list_of(alloc: Global, division: DivisionNumber, rows: &HistoryRows) -> Result<ShownList, Fault>
    ensures list { IfOk result (λ list. (room : Room) (at : ℕ) → IsInOrder room
        → AreHistoryRows division Incidents at room rows.now
        → IsShownListOf list room) }
    ensures division { IfOk result (λ list. list.division ≡ division) }
    ensures memory { IfErr result (λ e. e ≡ Memory) }
{
    Ok(ShownList {
        division,
        incidents: own_rows(alloc, &rows.incidents, division)?,
        calls: own_rows(alloc, &rows.calls, division)?,
        turns: own_rows(alloc, &rows.turns, division)?,
    })
}

/// Whether a division's incident of a number is one of some.
pub fn is_among(division: DivisionNumber, incidents: &Rows<Incident>, number: Number) -> bool
    ensures { result ≡ is_among division incidents.now number }
{
    incidents.get(&(division, number)).is_some()
}
