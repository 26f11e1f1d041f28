//! Until when the reads of a connection may wait.
ghost use Rattle.std.specs.Prelude.{◌≡◌, ◌≢◌, ◌-◌, ◌+◌, ◌<◌, ◌≤◌, ◌==◌, IfSome, IsSome, IsSomeAnd};
ghost use Rattle.std.specs.Prelude.{None, Some, min, if◌then◌else◌};
ghost use Rattle.std.specs.Duration.{as_nanos, max_nanos};
ghost use Rattle.room_http_messages.specs.declared.limits.TheConstants.{INBOX_ROOM};

use crate::timeouts::{Waits, until_at_most};
use room_http_messages::limits::INBOX_ROOM;
use std::time::Duration;

/// Until when the reads of a connection may wait. A read is given all the room that the inbox has
/// left, so the room shows how many bytes of a message are there: none where it is the whole inbox.
#[derive(Clone, Copy)]
pub struct Pace {
    waits: Waits,
    ends: Duration,
    here: usize,
    until: Duration,
}

impl Pace {
    /// The pace of a connection that has said nothing, and whose turn ends at a moment.
    pub fn new(waits: Waits, ends: Duration) -> Pace
        ensures { result ≡ record { waits = waits; ends = ends; here = 0; until = ends } }
    {
        Pace {
            waits,
            ends,
            here: 0,
            until: ends,
        }
    }

    /// Until when the next read may wait, which is made now and has so much room: none where the
    /// clock can't be read. Within a message
    /// it is the message's patience, from its first byte, or where that came with the message
    /// before, from the first read after the answer to that. Between messages it is the idle wait,
    /// within the turn. Where the turn is over, no more is read but of a message that had begun.
    pub fn next(&mut self, room: usize, now: Option<Duration>) -> Option<Duration>
        ensures unknown { now ≡ None → result ≡ None }
        ensures goes_on { IsSome now → room < INBOX_ROOM → INBOX_ROOM - room ≡ self.old.here
            → (result ≡ Some self.old.until) × (self.new.until ≡ self.old.until) }
        ensures over { IfSome now (λ now. as_nanos self.old.ends ≤ as_nanos now
            → (room < INBOX_ROOM → INBOX_ROOM - room ≢ self.old.here) → result ≡ None) }
        ensures between { IfSome now (λ now. as_nanos now < as_nanos self.old.ends
            → INBOX_ROOM ≤ room → IsSomeAnd result (λ until. as_nanos until
            ≡ min (min (as_nanos now + as_nanos self.old.waits.idle) max_nanos)
            (as_nanos self.old.ends))) }
        ensures begins { IfSome now (λ now. as_nanos now < as_nanos self.old.ends
            → room < INBOX_ROOM → INBOX_ROOM - room ≢ self.old.here
            → IsSomeAnd result (λ until. (until ≡ self.new.until) × (as_nanos until
            ≡ min (as_nanos now + as_nanos self.old.waits.patience) max_nanos))) }
        ensures here { IfSome result (λ _. self.new.here ≡ INBOX_ROOM - room) }
        ensures kept { self.new ≡
            record self.old { here = self.new.here; until = self.new.until } }
    {
        let now = now?;
        let here = INBOX_ROOM.saturating_sub(room);
        if here != 0 && here == self.here {
            return Some(self.until);
        }
        self.here = here;
        if self.ends.saturating_sub(now).is_zero() {
            return None;
        }
        if here == 0 {
            return Some(until_at_most(now, self.waits.idle, self.ends));
        }
        self.until = now.saturating_add(self.waits.patience);
        Some(self.until)
    }

    /// Notes how much the read gave. Where it gave the first bytes of a message, the next read
    /// finds more here than was noted, and times the message.
    pub fn gave(&mut self, count: usize)
        ensures { self.new ≡ record self.old {
          here = if self.old.here == 0 then 0 else min (self.old.here + count) usize.MAX;
        } }
    {
        if self.here != 0 {
            self.here = self.here.saturating_add(count);
        }
    }
}
