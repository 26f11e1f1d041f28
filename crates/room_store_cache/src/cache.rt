//! What is known of a room beside its tables, and what becomes of it by an event.
ghost use Rattle.room_model.specs.Room.{IsInOrder, Room, apply};
ghost use Rattle.room_store_cache.specs.Cache.{IsCacheOf, KnowsNothing};

use crate::fleets::Fleet;
use crate::incident_views::IncidentViews;
use crate::queue_views::QueueViews;
use crate::recent_incidents::RecentIncidents;
use crate::shown_lists::ShownLists;
use crate::views::View;
use room_types::changes::Change;
use std::alloc::Global;

/// What is known of a room: a copy, which each commit is applied to. The room is what the tables
/// stand for, and each part of the copy is filled from them where it is not known.
#[derive(Drop)]
pub struct Cache {
    pub fleet: Fleet,
    pub queue_views: QueueViews,
    pub incident_views: IncidentViews,
    pub recent_incidents: RecentIncidents,
    pub shown_lists: ShownLists,
}

impl Cache {
    /// Nothing is known yet.
    pub fn new(alloc: Global) -> Cache
        ensures { KnowsNothing result }
    {
        Cache {
            fleet: Fleet::new(alloc),
            queue_views: QueueViews::new(alloc),
            incident_views: IncidentViews::new(alloc),
            recent_incidents: RecentIncidents::new(),
            shown_lists: ShownLists::new(alloc),
        }
    }

    /// Nothing is known from now on.
    pub fn forget(&mut self)
        ensures { KnowsNothing self.new }
    {
        self.fleet.forget();
        self.queue_views.forget();
        self.incident_views.forget();
        self.recent_incidents.forget();
        self.shown_lists.forget();
    }

    /// Makes changes of the room that were committed. What memory is refused for is not known any
    /// more.
    pub fn apply(&mut self, changes: &[Change])
        ensures { (room : Room) → IsInOrder room → IsCacheOf self.old room
            → IsCacheOf self.new (apply room changes.now) }
    {
        for change in changes {
            self.fleet.apply(change);
            self.queue_views.apply(change);
            self.incident_views.apply(change);
            self.recent_incidents.apply(change);
            self.shown_lists.apply(change);
        }
    }
}
