//! How long a connection is waited for.
ghost use Rattle.std.specs.Prelude.{◌≡◌, ◌+◌, ◌-◌, ◌*◌, ◌/◌, ◌<◌, ◌≤◌, None, min};
ghost use Rattle.std.specs.Duration.{as_nanos, max_nanos};
ghost use Rattle.dispatch_room_sockets.specs.TimesLeft.{IsLeft, IsTimeUntil};

use crate::monotonic_clocks::MonotonicClock;
use std::time::Duration;

// A connection's turn lasts so many times as long as a pause and a message may take.
const TURN: u32 = 5;

// The nanoseconds of a millisecond.
const NANOS: u32 = 1_000_000;

/// How long a connection is waited for.
#[derive(Clone, Copy)]
pub struct Waits {
    /// For the first byte of a message.
    pub idle: Duration,
    /// From the first byte of a message until it is whole, and from the first of an answer until
    /// the connection is parted from or says more.
    pub patience: Duration,
}

impl Waits {
    /// When a turn ends that begins now: after five times as long as a pause and a message take.
    pub(crate) fn turn_ends(self, now: Duration) -> Duration
        ensures { as_nanos result ≡ min (as_nanos now
            + min (min (as_nanos self.idle + as_nanos self.patience) max_nanos * 5) max_nanos)
            max_nanos }
    {
        now.saturating_add(self.idle.saturating_add(self.patience).saturating_mul(TURN))
    }
}

/// The earlier of two moments.
pub(crate) fn earlier(one: Duration, other: Duration) -> Duration
    ensures { as_nanos result ≡ min (as_nanos one) (as_nanos other) }
{
    if one.saturating_sub(other).is_zero() {
        one
    } else {
        other
    }
}

/// Until when something is waited for that begins now: so long, but not after a last moment.
pub(crate) fn until_at_most(now: Duration, wait: Duration, last: Duration) -> Duration
    ensures { as_nanos result ≡
        min (min (as_nanos now + as_nanos wait) max_nanos) (as_nanos last) }
{
    earlier(now.saturating_add(wait), last)
}

/// How long it is until a moment of a clock; none where the moment has come, or where the clock
/// can't be read.
pub(crate) fn time_until<C: MonotonicClock>(clock: &C, moment: Duration) -> Option<Duration>
    ensures { IsTimeUntil (C.shows clock.now) moment result }
{
    left_until(clock.now()?, moment)
}

// How long it is from now until a moment, rounded down to milliseconds where it is one at least;
// none where the moment has come.
fn left_until(now: Duration, moment: Duration) -> Option<Duration>
    ensures { IsLeft now moment result }
{
    let left = moment.saturating_sub(now);
    if left.is_zero() {
        None
    } else {
        Some(in_millis(left))
    }
}

// The whole milliseconds of a wait, where it has some: so waits that get one after the other are
// mostly equal, and only the first is set in the system.
fn in_millis(wait: Duration) -> Duration
    ensures whole { 1_000_000 ≤ as_nanos wait
        → as_nanos result ≡ as_nanos wait / 1_000_000 * 1_000_000 }
    ensures short { as_nanos wait < 1_000_000 → result ≡ wait }
{
    let rest = Duration::from_nanos(u64::from(wait.subsec_nanos() % NANOS));
    let whole = wait.saturating_sub(rest);
    if whole.is_zero() { wait } else { whole }
}
