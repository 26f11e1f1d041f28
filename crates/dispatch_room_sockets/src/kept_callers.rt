//! One who called and is kept until a request of theirs is served.
ghost use Rattle.std.specs.Prelude.{◌≡◌};
ghost use Rattle.dispatch_room_sockets.specs.Sweeps.{IsNoted};
ghost use Rattle.dispatch_room_sockets.specs.Verdicts.{is_over, verdict_on};

use std::time::Duration;

/// What one who called has said, as a look finds it.
#[derive(Clone, Copy, PartialEq, Eq)]
pub enum Heard {
    /// Nothing, and it may still speak.
    Nothing,
    /// A part of a request.
    Part,
    /// A request that is whole, or all that will ever be said of one.
    Whole,
    /// Nothing, and it has gone.
    Gone,
}

/// What becomes of one that was looked at.
#[derive(Clone, Copy)]
pub enum Verdict {
    /// It waits on.
    Waits,
    /// It is served.
    Served,
    /// It is closed, and not answered.
    Closed,
}

/// One who called and is kept.
#[derive(Drop)]
pub struct Kept<C> {
    /// Each who calls has a number of its own.
    pub number: u64,
    pub caller: C,
    /// Whether a part of a request was heard.
    pub has_begun: bool,
    /// Until when it is kept: as long as it may be silent, and from the first part of a request on
    /// as long as that may take.
    pub until: Duration,
}

impl<C> Kept<C> {
    /// Notes what a look found now, and returns what becomes of the caller.
    pub(crate) fn note(&mut self, heard: Heard, now: Duration, patience: Duration) -> Verdict
        ensures noted { IsNoted now patience
            (record { before = self.old; heard = heard; after = self.new }) }
        ensures caller { self.new.caller ≡ self.old.caller }
        ensures verdict { result ≡ verdict_on heard (is_over now self.new.until) }
    {
        if heard == Heard::Part && !self.has_begun {
            self.has_begun = true;
            self.until = now.saturating_add(patience);
        }
        verdict_on(heard, is_over(now, self.until))
    }
}

// Whether a moment has come.
pub(crate) fn is_over(now: Duration, until: Duration) -> bool
    ensures { result ≡ is_over now until }
{
    until.saturating_sub(now).is_zero()
}

// What becomes of one who has said so much, and whose time is over or not.
fn verdict_on(heard: Heard, is_over: bool) -> Verdict
    ensures { result ≡ verdict_on heard is_over }
{
    match heard {
        Heard::Whole => Verdict::Served,
        Heard::Gone => Verdict::Closed,
        Heard::Part if is_over => Verdict::Served,
        Heard::Nothing if is_over => Verdict::Closed,
        _ => Verdict::Waits,
    }
}
