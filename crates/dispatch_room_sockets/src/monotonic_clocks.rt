//! The clock by which all that is waited for is timed.
ghost use Rattle.std.specs.Prelude.{Option};
ghost use Rattle.std.specs.declared.time.Duration.{Duration as Moment};

use std::thread;
use std::time::{Clock, Duration};

/// A clock that never goes back. What is timed by one is generic over it: so it can be timed only
/// from a moment that the clock showed.
pub trait MonotonicClock {
    // What it may show, as far as that is known: none where it can't be read.
    ghost shows: { Self → Option Moment → Type 0 };

    /// The moment that it is: none where the clock can't be read.
    fn now(&self) -> Option<Duration>
        ensures { shows self.now result };

    /// Lets some time go by.
    fn rest(&self, time: Duration);
}

// What the system's clock shows no contract can say.
impl MonotonicClock for HostRuntime {
    ghost use Rattle.std.specs.Prelude.{⊤};

    ghost shows = { λ _ _. ⊤ };

    fn now(&self) -> Option<Duration> {
        self.monotonic().ok()
    }

    fn rest(&self, time: Duration) {
        thread::sleep(self, time)
    }
}
