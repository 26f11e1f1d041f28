//! A socket that is written to.
ghost use Rattle.std.specs.Prelude.{◌≡◌, ◌≤◌, ◌+◌, min, IfOk, IfSome, IsSome, None, OnOk, Some};
ghost use Rattle.std.specs.Prelude.{length, nat_lt, true, false, ◌||◌, IsSomeAnd, MatchOption};
ghost use Rattle.std.specs.Prelude.{if◌then◌else◌};
ghost use Rattle.std.specs.Duration.{as_nanos, max_nanos};
ghost use Rattle.std.specs.Io.KnownBytes.{WriteAppends};
ghost use Rattle.room_http_messages.specs.Streams.{took_none};

use crate::monotonic_clocks::MonotonicClock;
use crate::retries::write_until;
use crate::timeouts::until_at_most;
use room_http_messages::sinks::{Sink, WriteFailed};
use std::io::Write;
use std::net::{OpenStream, Shutdown};
use std::time::Duration;

/// A socket that is written to. An answer has its patience from its first write, until all of it is
/// written and the connection is parted from, and all answers end by a last moment.
#[derive(Drop)]
pub struct SocketWriter<'a, T, C> {
    stream: T,
    clock: &'a C,
    patience: Duration,
    last: Duration,
    // Until when the last write might wait.
    until: Option<Duration>,
    // How long a write waits, as it was set last in the system.
    last_wait: Option<Duration>,
    // Whether it left a part of its answer.
    within: bool,
    // Whether a write failed.
    failed: bool,
}

impl<'a, T: Write + OpenStream, C: MonotonicClock> SocketWriter<'a, T, C> {
    /// A socket to which nothing was written yet. Its answers have so much patience, and none is
    /// waited for after a last moment.
    pub fn new(
        stream: T,
        clock: &'a C,
        patience: Duration,
        last: Duration,
    ) -> SocketWriter<'a, T, C>
        ensures stream { result.stream ≡ stream }
        ensures times { (result.patience ≡ patience) × (result.last ≡ last) }
        ensures unwritten { (result.until ≡ None) × (result.within ≡ false)
            × (result.last_wait ≡ None) }
        ensures sound { result.failed ≡ false }
    {
        SocketWriter {
            stream,
            clock,
            patience,
            last,
            until: None,
            last_wait: None,
            within: false,
            failed: false,
        }
    }

    // Until when a write may wait that begins now, which is noted: as long as the one before it,
    // where that left a part of its answer, and else the answer's patience. None where the clock
    // can't be read.
    fn begin(&mut self, now: Option<Duration>) -> Option<Duration>
        ensures goes_on { self.old.within ≡ true → result ≡ self.old.until }
        ensures begins { self.old.within ≡ false → MatchOption now (result ≡ None) (λ now.
            IsSomeAnd result (λ moment. as_nanos moment ≡ min (min (as_nanos now
            + as_nanos self.old.patience) max_nanos) (as_nanos self.old.last))) }
        ensures noted { IfSome result (λ moment. self.new.until ≡ Some moment) }
        ensures kept { self.new ≡ record self.old { until = self.new.until } }
    {
        if self.within {
            return self.until;
        }
        self.until = Some(until_at_most(now?, self.patience, self.last));
        self.until
    }

    // Notes what a write took of so many bytes: whether it left a part of its answer, and whether
    // it failed.
    fn note(&mut self, taken: Result<usize, WriteFailed>, size: usize)
        ensures within { IfOk taken (λ n. self.new.within ≡ nat_lt n size) }
        ensures failed { self.new.failed ≡ (self.old.failed || took_none taken size) }
        ensures kept { self.new ≡
            record self.old { within = self.new.within; failed = self.new.failed } }
    {
        match taken {
            Ok(count) => {
                self.within = count < size;
                if count == 0 && size != 0 {
                    self.failed = true;
                }
            }
            Err(_) => self.failed = true,
        }
    }

    /// Until when the last answer may wait for its peer: none where none was written, or where a
    /// write failed.
    pub(crate) fn answered(&self) -> Option<Duration>
        ensures { result ≡ (if self.now.failed then None else self.now.until) }
    {
        if self.failed { None } else { self.until }
    }

    /// Shuts the writing side, and returns whether that succeeded.
    pub(crate) fn shut(&self) -> bool {
        self.stream.shutdown(Shutdown::Write).is_ok()
    }
}

impl<'a, T: Write + OpenStream, C: MonotonicClock> Sink for SocketWriter<'a, T, C> {
    ghost held = { λ w. T.contents w.stream };

    ghost has_failed = { λ w. w.failed };

    // Beside what each sink ensures: whether some of its answer is left, and until when it waits.
    fn write(&mut self, buf: &[u8]) -> Result<usize, WriteFailed>
        ensures bound { IfOk result (λ n. n ≤ length buf.now) }
        ensures bytes { WriteAppends (T.contents self.old.stream) (T.contents self.new.stream)
            result buf.now }
        ensures failed { self.new.failed ≡
            (self.old.failed || took_none result (length buf.now)) }
        ensures within { IfOk result (λ n. self.new.within ≡ nat_lt n (length buf.now)) }
        ensures goes_on { self.old.within ≡ true → OnOk result (self.new.until ≡ self.old.until) }
        ensures noted { OnOk result (IsSome self.new.until) }
    {
        let Some(moment) = self.begin(self.clock.now()) else {
            self.failed = true;
            return Err(WriteFailed);
        };
        let taken = write_until(
            &mut self.stream,
            self.clock,
            &mut self.last_wait,
            moment,
            buf,
        );
        self.note(taken, buf.len());
        taken
    }
}
