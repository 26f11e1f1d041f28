//! The views of incidents that a request fills, with what it has read.
ghost use Rattle.std.specs.Prelude.{◌≡◌, ℕ};
ghost use Rattle.room_types.specs.declared.asks.Ask.{Ask as AskModel};
ghost use Rattle.room_model.specs.Room.{IsInOrder, Room};
ghost use Rattle.room_store_cache.specs.HistoryRows.{AreHistoryRows};
ghost use Rattle.room_store_cache.specs.IncidentViews.{AreIncidentViewsOf};
ghost use Rattle.room_store_cache.specs.QueueViews.{AreQueueViewsOf};
ghost use Rattle.room_store_cache.specs.ShownLists.{AreShownListsOf};
ghost use Rattle.room_store_reads.specs.RequestReads.{Selects};

use crate::request_reads::{Incidents, Reads, Reports};
use room_place::plans::DivisionNumber;
use room_store_cache::cache::Cache;
use room_store_cache::history_rows::HistoryRows;
use std::alloc::Global;

/// Keeps what a queue or a list shows, or the one incident that was named, where it isn't known.
pub(crate) fn fill_views(
    alloc: Global,
    cache: &mut Cache,
    division: DivisionNumber,
    reads: &Reads,
    rows: &HistoryRows,
)
    ensures queue_views { (room : Room) (ask : AskModel) (at : ℕ) → Selects division ask reads.now
        → AreHistoryRows division ask at room rows.now
        → AreQueueViewsOf cache.old.queue_views.kept.items room
        → AreQueueViewsOf cache.new.queue_views.kept.items room }
    ensures incident_views { (room : Room) (ask : AskModel) (at : ℕ) → IsInOrder room
        → Selects division ask reads.now
        → AreHistoryRows division ask at room rows.now
        → AreIncidentViewsOf cache.old.incident_views.kept.items room
        → AreIncidentViewsOf cache.new.incident_views.kept.items room }
    ensures shown_lists { (room : Room) (ask : AskModel) (at : ℕ) → IsInOrder room
        → Selects division ask reads.now
        → AreHistoryRows division ask at room rows.now
        → AreShownListsOf cache.old.shown_lists.kept.items room
        → AreShownListsOf cache.new.shown_lists.kept.items room }
    ensures fleet { cache.new.fleet ≡ cache.old.fleet }
    ensures recent_incidents { cache.new.recent_incidents ≡ cache.old.recent_incidents }
{
    if let Reports::Uncleared = reads.reports {
        cache.queue_views.fill(alloc, division, rows);
        cache.incident_views.fill_shown(alloc, division, rows);
        return;
    }
    match reads.incidents {
        Incidents::Active => {
            if reads.calls {
                cache.shown_lists.fill(alloc, division, rows);
            }
        }
        Incidents::One(number) => cache.incident_views.fill(alloc, division, number, rows),
        _ => {}
    }
}
