//! What gives the moment, in whole seconds of UTC since 1970.
ghost use Rattle.std.specs.Prelude.{◌≡◌, ◌<◌, ◌/◌, ℕ, List, [], ◌∷◌, Bool, true, false, Option};
ghost use Rattle.std.specs.Prelude.{Some, None, MatchOption, replicate};
ghost use Rattle.std.specs.Io.KnownBytes.{Appends, Keeps};
ghost use Rattle.std.specs.Time.{system_time_nanos};

use std::time::{self, SystemTime, UNIX_EPOCH};

/// What gives the moment.
pub trait Clock {
    // The moments that it has given, where they are known.
    ghost given: { Self → Option (List ℕ) };

    // Whether its last answer was none.
    ghost was_none: { Self → Bool };

    /// The moment, or none where the clock gives none.
    fn now(&mut self) -> Option<u64>
        ensures moments { MatchOption result (Keeps (given self.old) (given self.new)) (λ at.
            Appends (given self.old) (given self.new) (at ∷ [])) }
        ensures none { MatchOption result (was_none self.new ≡ true) (λ at.
            was_none self.new ≡ false) };
}

/// The clock of the machine: it answers none where it can't be read, or is set before 1970.
#[derive(Drop)]
pub struct MachineClock<'a, R> {
    machine: &'a R,
    was_none: bool,
}

impl<'a, R: time::Clock> MachineClock<'a, R> {
    /// The clock of this machine.
    pub fn new(machine: &'a R) -> MachineClock<'a, R>
        ensures { result.was_none ≡ false }
    {
        MachineClock {
            machine,
            was_none: false,
        }
    }
}

impl<'a, R: time::Clock> Clock for MachineClock<'a, R> {
    ghost given = { λ _. None };

    ghost was_none = { λ clock. clock.was_none };

    fn now(&mut self) -> Option<u64> {
        let moment = SystemTime::now(self.machine).ok().and_then(moment_of);
        self.was_none = moment.is_none();
        moment
    }
}

// The whole seconds from 1970 to a time that the system gave: it gives none before 1970.
fn moment_of(time: SystemTime) -> Option<u64>
    ensures { result ≡ Some (system_time_nanos time / 1_000_000_000) }
{
    let since = time.duration_since(UNIX_EPOCH).ok()?;
    Some(since.as_secs())
}

/// A clock that gives `MOMENT` each time, and none once its count is at its last value.
#[derive(Clone, Copy)]
pub struct FixedClock<const MOMENT: u64> {
    count: u64,
    was_none: bool,
}

impl<const MOMENT: u64> FixedClock<MOMENT> {
    /// A clock that has given nothing yet.
    pub fn new() -> FixedClock<MOMENT>
        ensures { result ≡ record { count = 0; was_none = false } }
    {
        FixedClock {
            count: 0,
            was_none: false,
        }
    }
}

impl<const MOMENT: u64> Clock for FixedClock<MOMENT> {
    ghost given = { λ clock. Some (replicate clock.count MOMENT) };

    ghost was_none = { λ clock. clock.was_none };

    fn now(&mut self) -> Option<u64>
        ensures moments { let old = Some (replicate self.old.count MOMENT) in let new = Some
            (replicate self.new.count MOMENT) in
            MatchOption result (Keeps old new) (λ at. Appends old new (at ∷ [])) }
        ensures none { MatchOption result (self.new.was_none ≡ true) (λ at.
            self.new.was_none ≡ false) }
        ensures moment { self.old.count < u64.MAX → result ≡ Some MOMENT }
    {
        self.was_none = self.count == u64::MAX;
        if self.was_none {
            return None;
        }
        self.count += 1;
        Some(MOMENT)
    }
}
