//! A socket that is read from.
ghost use Rattle.std.specs.Prelude.{◌≡◌, ◌≤◌, ◌<◌, ◌-◌, ◌+◌, IfOk, false, not, is_err, min, length};
ghost use Rattle.std.specs.Prelude.{◌==◌, ◌||◌, None, Some, true, if◌then◌else◌};
ghost use Rattle.std.specs.Io.KnownBytes.{ReadConsumes};
ghost use Rattle.room_http_messages.specs.Streams.{found_end, known_count, CountsBy};
ghost use Rattle.room_http_messages.specs.declared.limits.TheConstants.{INBOX_ROOM};
ghost use Rattle.dispatch_room_sockets.specs.LingeringClose.{ThrowsAway};
ghost use Rattle.dispatch_room_sockets.specs.TimesLeft.{IsAwaited};

use crate::monotonic_clocks::MonotonicClock;
use crate::read_deadlines::Pace;
use crate::retries::read_until;
use crate::timeouts::{Waits, until_at_most};
use room_http_messages::sources::{ReadFailed, Source};
use std::io::Read;
use std::net::OpenStream;
use std::time::Duration;

// How many bytes are thrown away by one read.
const PIECE: usize = 4096;

/// A socket that is read from, each read until a moment that its pace gives.
#[derive(Drop)]
pub struct SocketReader<'a, T, C> {
    stream: T,
    clock: &'a C,
    pace: Pace,
    idle: Duration,
    // How long a read waits, as it was set last in the system.
    last_wait: Option<Duration>,
    reads: u32,
    // Whether a read failed, where it was not made too: the turn was over.
    failed: bool,
    // Whether a read found the end.
    ended: bool,
    // Whether a read failed that was made.
    lost: bool,
}

impl<'a, T: Read + OpenStream, C: MonotonicClock> SocketReader<'a, T, C> {
    /// A socket from which nothing was read yet, and whose turn ends at a moment of the clock.
    pub fn new(stream: T, clock: &'a C, waits: Waits, ends: Duration) -> SocketReader<'a, T, C>
        ensures stream { result.stream ≡ stream }
        ensures unread { (result.reads ≡ 0) × (result.last_wait ≡ None) }
        ensures pace { result.pace ≡ record { waits = waits; ends = ends; here = 0; until = ends } }
        ensures idle { result.idle ≡ waits.idle }
        ensures sound { result.failed ≡ false }
    {
        SocketReader {
            stream,
            clock,
            pace: Pace::new(waits, ends),
            idle: waits.idle,
            last_wait: None,
            reads: 0,
            failed: false,
            ended: false,
            lost: false,
        }
    }
}

impl<'a, T: Read + OpenStream, C: MonotonicClock> Source for SocketReader<'a, T, C> {
    ghost left = { λ r. T.remaining r.stream };

    ghost reads = { λ r. known_count r.reads };

    ghost has_failed = { λ r. r.failed };

    ghost has_ended = { λ r. r.ended };

    // Beside what each source ensures: the pace knows how much of a message is there.
    fn read(&mut self, buf: &mut [u8]) -> Result<usize, ReadFailed>
        ensures bound { IfOk result (λ n. n ≤ length buf.new) }
        ensures bytes { ReadConsumes (T.remaining self.old.stream) (T.remaining self.new.stream)
            result buf.new }
        ensures count { CountsBy 1 (known_count self.old.reads) (known_count self.new.reads) }
        ensures failed { self.new.failed ≡ (self.old.failed || is_err result) }
        ensures ended { self.new.ended ≡
            (self.old.ended || found_end result (length buf.new)) }
        ensures paced { IfOk result (λ n. let here = INBOX_ROOM - length buf.new in
            self.new.pace.here ≡ (if here == 0 then 0 else min (here + n) usize.MAX)) }
    {
        self.reads = self.reads.saturating_add(1);
        let Some(moment) = self.pace.next(buf.len(), self.clock.now()) else {
            self.failed = true;
            return Err(ReadFailed);
        };
        let given = read_until(
            &mut self.stream,
            self.clock,
            &mut self.last_wait,
            moment,
            buf,
        );
        self.note(given, buf.len());
        given
    }
}

impl<'a, T: Read + OpenStream, C: MonotonicClock> SocketReader<'a, T, C> {
    // Notes what a read gave that was made and had so much room: how much of a message is there
    // then, whether the peer has ended, and whether it is lost.
    fn note(&mut self, given: Result<usize, ReadFailed>, room: usize)
        ensures paced { IfOk given (λ n. self.new.pace ≡ record self.old.pace {
          here = if self.old.pace.here == 0 then 0 else min (self.old.pace.here + n) usize.MAX;
        }) }
        ensures kept { self.new ≡ record self.old {
          pace = self.new.pace;
          lost = self.old.lost || is_err given;
          failed = self.old.failed || is_err given;
          ended = self.old.ended || found_end given room;
        } }
    {
        match given {
            Ok(count) => {
                self.pace.gave(count);
                if count == 0 && room != 0 {
                    self.ended = true;
                }
            }
            Err(_) => {
                self.failed = true;
                self.lost = true;
            }
        }
    }

    /// Whether the peer may still send: no read has failed or found the end.
    pub(crate) fn is_open(&self) -> bool
        ensures { result ≡ not (self.now.lost || self.now.ended) }
    {
        !self.lost && !self.ended
    }

    /// Reads a piece of what still comes and throws it away, and returns whether more may come. It
    /// waits until a moment, and no longer than a connection may idle.
    pub(crate) fn throw_away(&mut self, moment: Duration) -> bool
        ensures thrown { ThrowsAway 4096 (T.remaining self.old.stream)
            (T.remaining self.new.stream) }
        ensures waits { result ≡ true → IsAwaited (C.shows self.old.clock.now) self.old.idle moment
            self.new.last_wait }
    {
        let Some(now) = self.clock.now() else {
            return false;
        };
        let silent = until_at_most(now, self.idle, moment);
        let mut piece = [0; PIECE];
        match read_until(
            &mut self.stream,
            self.clock,
            &mut self.last_wait,
            silent,
            &mut piece,
        ) {
            Ok(0) | Err(_) => false,
            Ok(_) => true,
        }
    }
}
