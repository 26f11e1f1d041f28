//! What waits in a division: its active incidents and its uncleared exceptions.
ghost use Rattle.std.specs.Prelude.{◌≡◌, ℕ, IfErr, IfOk};
ghost use Rattle.room_types.specs.declared.asks.Ask.TheVariants.{Queue};
ghost use Rattle.room_model.specs.Room.{Room};
ghost use Rattle.room_tables_schema.specs.declared.database_faults.Fault.TheVariants.{Memory};
ghost use Rattle.room_store_cache.specs.HistoryRows.{AreHistoryRows};
ghost use Rattle.room_store_cache.specs.EntryLemmas.{exact_number};
ghost use Rattle.room_store_cache.specs.QueueViews.{AreQueueViewsOf, IsQueueViewOf};
ghost use Rattle.room_store_cache.specs.QueueViews.{is_own_exception, is_waiting};

use crate::cached_rows::{own_rows, put_if};
use crate::entries::{Entries, Entry};
use crate::history_rows::HistoryRows;
use room_place::plans::DivisionNumber;
use room_tables_schema::database_faults::Fault;
use room_types::changes::Change;
use room_types::rows::Rows;
use room_types::tables::{Incident, Report};
use std::alloc::Global;

/// What waits in a division.
#[derive(Drop)]
pub struct QueueView {
    pub division: DivisionNumber,
    pub incidents: Rows<Incident>,
    pub exceptions: Rows<Report>,
}

/// What is known of what waits, of some divisions.
pub type QueueViews = Entries<QueueView>;

impl Entries<QueueView> {
    /// Keeps what waits in a division, out of the rows that its queue reads, where it isn't known.
    pub fn fill(&mut self, alloc: Global, division: DivisionNumber, rows: &HistoryRows)
        ensures { (room : Room) (at : ℕ)
            → AreHistoryRows division Queue at room rows.now
            → AreQueueViewsOf self.old.kept.items room → AreQueueViewsOf self.new.kept.items room }
    {
        if self.get(&division).is_some() {
            return;
        }
        if let Ok(queue_view) = queue_view_of(alloc, division, rows) {
            self.put(queue_view);
        }
    }
}

impl Entry for QueueView {
    type Key = DivisionNumber;

    ghost is_so = { IsQueueViewOf };

    ghost key_of = { λ x. x.division };

    fn key(&self) -> DivisionNumber {
        self.division
    }

    fn apply(&mut self, change: &Change) -> Result<(), Fault> {
        match change {
            Change::PutIncident(incident) => {
                let is_shown = is_waiting(self.division, incident);
                put_if(is_shown, &mut self.incidents, incident)
            }
            Change::PutReport(report) => {
                let is_shown = is_own_exception(self.division, report);
                put_if(is_shown, &mut self.exceptions, report)
            }
            _ => Ok(()),
        }
    }

    ghost exact = { exact_number };
}

// What waits in a division, out of the rows that its queue reads. The one fault is `Memory`.
fn queue_view_of(
    alloc: Global,
    division: DivisionNumber,
    rows: &HistoryRows,
) -> Result<QueueView, Fault>
    ensures queue_view { IfOk result (λ queue_view. (room : Room) (at : ℕ)
        → AreHistoryRows division Queue at room rows.now
        → IsQueueViewOf queue_view room) }
    ensures memory { IfErr result (λ e. e ≡ Memory) }
{
    Ok(QueueView {
        division,
        incidents: own_rows(alloc, &rows.incidents, division)?,
        exceptions: own_rows(alloc, &rows.reports, division)?,
    })
}

// Whether an incident is the division's and active.
fn is_waiting(division: DivisionNumber, incident: &Incident) -> bool
    ensures { result ≡ is_waiting division incident.now }
{
    incident.division == division && incident.state.is_active()
}

// Whether a report is the division's, and an exception.
fn is_own_exception(division: DivisionNumber, report: &Report) -> bool
    ensures { result ≡ is_own_exception division report.now }
{
    report.division == division && report.is_exception()
}
