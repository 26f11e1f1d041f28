//! Closing connections: the writing side of each is shut, and what the peer still sends is read and
//! thrown away between looks at the others, so that nobody waits for it.
ghost use Rattle.std.specs.Prelude.{◌⊎◌, ◌≤◌, ◌<◌, All, true};
ghost use Rattle.std.specs.Duration.{as_nanos};
ghost use Rattle.std.specs.VecDeque.{deque_len, deque_capacity};
ghost use Rattle.std.specs.Prelude.{◌≡◌, None, false, filter, if◌then◌else◌};
ghost use Rattle.dispatch_room_sockets.specs.Departures.{is_due, is_resting};
ghost use Rattle.dispatch_room_sockets.specs.Pauses.{looked_at_by};
ghost use Rattle.dispatch_room_sockets.specs.Verdicts.{is_over};

use crate::entrances::Entrance;
use crate::kept_callers::is_over;
use crate::timeouts::earlier;
use std::collections::VecDeque;
use std::time::Duration;

// How many milliseconds one who leaves may stay longer than it rests where nobody else moves: to be
// woken for each as soon as it is due would cost as much as to serve another.
const SLACK: u64 = 100;

/// One who is parted from, until they are gone, or until a moment.
#[derive(Drop)]
pub struct ClosingConnection<C> {
    pub caller: C,
    pub until: Duration,
    /// Until when nobody looks at it, since most are gone a moment later: none once somebody did.
    pub rests: Option<Duration>,
}

impl<C> ClosingConnection<C> {
    // Whether it is looked at now, which is noted.
    fn is_due(&mut self, now: Duration) -> bool
        ensures due { result ≡ is_due self.old.rests now }
        ensures rests { self.new.rests ≡ (if result then None else self.old.rests) }
        ensures same { (self.new.until ≡ self.old.until) × (self.new.caller ≡ self.old.caller) }
    {
        match self.rests {
            Some(rests) if !is_over(now, rests) => false,
            _ => {
                self.rests = None;
                true
            }
        }
    }

    /// When it is looked at at the latest, whether anybody moves or not.
    pub(crate) fn next(&self) -> Duration
        ensures { as_nanos result ≡ looked_at_by self.now.rests self.now.until }
    {
        match self.rests {
            Some(rests) => {
                let latest = rests.saturating_add(Duration::from_millis(SLACK));
                earlier(latest, self.until)
            }
            None => self.until,
        }
    }
}

/// Throws away what each of them still says. Who has said all, or whose time is over, is dropped.
/// Who rests stays as it is, in their order.
pub(crate) fn throw_away_all<E: Entrance>(
    entrance: &mut E,
    closing_connections: &mut VecDeque<ClosingConnection<E::Caller>>,
    now: Duration,
)
    requires room { deque_len closing_connections.old ≤ deque_capacity closing_connections.old }
    ensures in_time { All (λ l. as_nanos now < as_nanos l.until) closing_connections.new.items }
    ensures rest { filter (is_resting now) closing_connections.new.items
        ≡ filter (is_resting now) closing_connections.old.items }
    ensures same { E.seen entrance.new ≡ E.seen entrance.old }
    ensures bound { deque_len closing_connections.new ≤ deque_len closing_connections.old }
    ensures capacity { deque_capacity closing_connections.new ≡ deque_capacity closing_connections.old }
{
    for _leaver in 0..closing_connections.len() {
        if let Some(mut leaver) = closing_connections.pop_front() {
            if stays(entrance, &mut leaver, now) {
                closing_connections.push_back_reserved(leaver);
            }
        }
    }
}

// Throws away what one of them still says, where it is due, and returns whether it stays.
fn stays<E: Entrance>(
    entrance: &mut E,
    leaver: &mut ClosingConnection<E::Caller>,
    now: Duration,
) -> bool
    ensures in_time { result ≡ true → as_nanos now < as_nanos leaver.new.until }
    ensures rests { is_resting now leaver.old ≡ true → (result ≡ true) × (leaver.new ≡ leaver.old) }
    ensures due { is_resting now leaver.old ≡ false → is_resting now leaver.new ≡ false }
    ensures gone { result ≡ false → (is_over now leaver.old.until ≡ true)
        ⊎ E.has_gone leaver.old.caller leaver.new.caller }
    ensures same { E.seen entrance.new ≡ E.seen entrance.old }
{
    if is_over(now, leaver.until) {
        return false;
    }
    !leaver.is_due(now) || entrance.throw_away(&mut leaver.caller)
}
