//! A connection is served in pieces: each is whole requests, and between two of them others are
//! served.
ghost use Rattle.std.specs.Prelude.{◌≡◌, ◌⊎◌, ◌+◌, ◌*◌, ◌-◌, ◌≤◌, ◌||◌, IfOk, IfSome, None, Some};
ghost use Rattle.std.specs.Prelude.{Err, OnErr, false, is_err, length, true, ◌&&◌, ◌≢◌, min, not};
ghost use Rattle.std.specs.Prelude.{option_map, take, if◌then◌else◌};
ghost use Rattle.std.specs.Duration.{as_nanos, max_nanos};
ghost use Rattle.std.specs.Io.KnownBytes.{ReadConsumes, prepend_known};
ghost use Rattle.dispatch_room_sockets.specs.Lookaheads.{StandsAhead, StaysInFront};
ghost use Rattle.dispatch_room_sockets.specs.Pieces.{Begins, GivesAhead, GivesFront, IsPieceRead};
ghost use Rattle.dispatch_room_sockets.specs.Pieces.{given_of};
ghost use Rattle.dispatch_room_sockets.specs.PieceTurns.{BeginsTurn, GivesPiece, HearsPiece};
ghost use Rattle.dispatch_room_sockets.specs.PieceTurns.{TakesBack};
ghost use Rattle.dispatch_room_sockets.specs.Turns.{is_turn_over};
ghost use Rattle.dispatch_room_sockets.specs.declared.lookaheads.Lookahead.TheVariants.{Nothing};
ghost use Rattle.dispatch_room_sockets.specs.declared.nonblocking_streams.NoBytes.{NoBytes};
ghost use Rattle.room_http_messages.specs.Streams.{CountsBy, found_end, known_count};

use crate::acceptors::{Acceptor, Client, PAUSE};
use crate::entrances::Entrance;
use crate::kept_callers::{Kept, is_over};
use crate::lookaheads::{Lookahead, look_ahead};
use crate::monotonic_clocks::MonotonicClock;
use crate::nonblocking_streams::{NonblockingListener, NonblockingStream};
use crate::readiness::readable_before;
use crate::shared_streams::SharedStream;
use crate::socket_writers::SocketWriter;
use crate::unserved_bytes::UnservedBytes;
use crate::waiting_callers::Waiting;
use room_http_messages::limits::INBOX_ROOM;
use room_http_messages::sources::{ReadFailed, Source};
use std::os::fd::{AsRawFd, RawFd};
use std::time::Duration;

// How many milliseconds one who asks without a pause is served while others move.
const TURN: u64 = 50;

// How many reads a piece has at most.
const MOST_READS: u32 = 50_000;

/// A piece of a stream, which is read from: it ends where the next request isn't whole, or where
/// its turn is over. None of the bytes of a request is given before that is whole, its time is over
/// or it can't be whole any more.
#[derive(Drop)]
pub struct PieceReader<'a, C, T> {
    clock: &'a C,
    kept: Kept<Client<T>>,
    // What can be read from once someone else moves.
    elsewhere: RawFd,
    // Until when it goes on while nobody else moves.
    only_until: Duration,
    // Until when it goes on all the same.
    turn_ends: Duration,
    // How many bytes of a request that is whole are not given yet. Of what is refused, or can't be
    // whole any more, all that comes is given.
    left: usize,
    // Whether nothing was given yet.
    is_first: bool,
    reads: u32,
    // Whether a read failed.
    failed: bool,
    // Whether the end of the piece or of the stream was found.
    ended: bool,
    // Whether the piece ended, and the stream may go on.
    is_paused: bool,
}

// Takes what comes next of a stream: what was read ahead of it, and where all that is served, what
// can be read of it now.
fn take_from<T: NonblockingStream>(
    unserved: &mut UnservedBytes,
    stream: &mut T,
    buf: &mut [u8],
) -> Result<usize, ReadFailed>
    ensures bound { IfOk result (λ n. n ≤ length buf.new) }
    ensures bytes { ReadConsumes (prepend_known unserved.old (T.left stream.old))
        (prepend_known unserved.new (T.left stream.new)) result buf.new }
    ensures ahead { GivesAhead unserved.old unserved.new result buf.new }
    ensures lost { OnErr result ((e : NoBytes) × T.gives stream.new (Err e)) }
{
    if !unserved.is_empty() {
        return Ok(unserved.give(buf));
    }
    match stream.receive(buf) {
        Ok(count) => Ok(count),
        Err(_) => Err(ReadFailed),
    }
}

// How many bytes are given of what stands ahead: none where the piece ends before it.
fn given_of(ahead: Lookahead, is_first: bool) -> Option<usize>
    ensures { result ≡ given_of ahead is_first }
{
    match ahead {
        Lookahead::Whole(size) => Some(size),
        Lookahead::Last | Lookahead::End => Some(usize::MAX),
        // It was given only as its time is over: the reader reports why.
        Lookahead::Part if is_first => Some(usize::MAX),
        Lookahead::Part | Lookahead::Nothing => None,
    }
}

// Whether a turn is over after so many reads: it goes on while nobody else moves, and else until
// its end.
fn is_turn_over(reads: u32, now: Duration, only_until: Duration, turn_ends: Duration) -> bool
    ensures { result ≡ is_turn_over reads now only_until turn_ends }
{
    reads > MOST_READS || is_over(now, only_until) && is_over(now, turn_ends)
}

impl<'a, C: MonotonicClock, T: NonblockingStream + AsRawFd> PieceReader<'a, C, T> {
    // The piece that begins with what stands ahead, and whose turn begins now. It goes on so long
    // while nobody else moves.
    fn new(
        clock: &'a C,
        kept: Kept<Client<T>>,
        elsewhere: RawFd,
        pause: Duration,
        now: Duration,
    ) -> PieceReader<'a, C, T>
        ensures sound { result.failed ≡ false }
        ensures kept { result.kept ≡ kept }
        ensures begins { (result.is_first ≡ true) × (result.is_paused ≡ false)
            × (result.ended ≡ false) × (result.reads ≡ 0) }
        ensures turn { (as_nanos result.only_until ≡ min (as_nanos now + as_nanos pause) max_nanos)
            × (as_nanos result.turn_ends ≡ min (as_nanos now + 50_000_000) max_nanos) }
    {
        PieceReader {
            clock,
            kept,
            elsewhere,
            only_until: now.saturating_add(pause),
            turn_ends: now.saturating_add(Duration::from_millis(TURN)),
            left: 0,
            is_first: true,
            reads: 0,
            failed: false,
            ended: false,
            is_paused: false,
        }
    }

    // Whether another request begins, or the last of the stream, and how much of it is given.
    fn begins(&mut self, room: &mut [u8]) -> bool
        ensures begins { Begins self.new.kept.caller.ahead self.old.is_first self.new.left result }
        ensures first { self.new.is_first ≡ (self.old.is_first && not result) }
        ensures kept { self.old.is_first ≡ true → self.new.kept ≡ self.old.kept }
        ensures number { self.new.kept.number ≡ self.old.kept.number }
        ensures front { StaysInFront self.old.kept.caller.unserved self.new.kept.caller.unserved }
        ensures seen { self.old.is_first ≡ false → self.new.kept.caller.ahead ≢ Nothing
            → StandsAhead (length room.old) (T.gives self.new.kept.caller.stream)
            (T.left self.new.kept.caller.stream) self.new.kept.caller.unserved
            self.new.kept.caller.ahead }
        ensures turn { self.old.is_first ≡ false → self.new.kept.caller.ahead ≢ Nothing
            → self.new.reads ≤ 50_000 }
        ensures same { (self.new.failed ≡ self.old.failed) × (self.new.ended ≡ self.old.ended)
            × (self.new.reads ≡ self.old.reads) × (self.new.is_paused ≡ self.old.is_paused) }
    {
        if self.is_first {
            return self.begins_with(self.kept.caller.ahead, true);
        }
        let ahead = self.next(room);
        self.begins_with(ahead, false)
    }

    // Whether what stands ahead is given, and how much of it.
    fn begins_with(&mut self, ahead: Lookahead, is_first: bool) -> bool
        ensures begins { Begins self.new.kept.caller.ahead is_first self.new.left result }
        ensures first { self.new.is_first ≡ (self.old.is_first && not result) }
        ensures kept { self.new.kept ≡ record self.old.kept {
          caller = record self.old.kept.caller { ahead = ahead };
        } }
        ensures same { (self.new.failed ≡ self.old.failed) × (self.new.ended ≡ self.old.ended)
            × (self.new.reads ≡ self.old.reads) × (self.new.is_paused ≡ self.old.is_paused) }
    {
        self.kept.caller.ahead = ahead;
        match given_of(ahead, is_first) {
            Some(size) => {
                self.left = size;
                self.is_first = false;
                true
            }
            None => false,
        }
    }

    // What stands ahead after a request. Where nothing was read of it, it is waited for while
    // nobody else moves.
    fn next(&mut self, room: &mut [u8]) -> Lookahead
        ensures seen { result ≢ Nothing → StandsAhead (length room.old)
            (T.gives self.new.kept.caller.stream) (T.left self.new.kept.caller.stream)
            self.new.kept.caller.unserved result }
        ensures front { StaysInFront self.old.kept.caller.unserved self.new.kept.caller.unserved }
        ensures turn { result ≢ Nothing → self.new.reads ≤ 50_000 }
        ensures same { (self.new.failed ≡ self.old.failed) × (self.new.ended ≡ self.old.ended)
            × (self.new.reads ≡ self.old.reads) × (self.new.is_paused ≡ self.old.is_paused) }
        ensures first { self.new.is_first ≡ self.old.is_first }
        ensures number { self.new.kept.number ≡ self.old.kept.number }
    {
        let Some(now) = self.clock.now() else {
            return Lookahead::Nothing;
        };
        let is_empty = self.kept.caller.unserved.is_empty();
        let most = if is_empty {
            self.only_until.saturating_sub(now)
        } else {
            Duration::ZERO
        };
        let stream = self.kept.caller.stream.as_raw_fd();
        let (is_readable, is_elsewhere) = readable_before(stream, self.elsewhere, most);
        if is_elsewhere {
            self.only_until = now;
        }
        if is_empty && !is_readable || self.has_had_its_turn() {
            return Lookahead::Nothing;
        }
        let client = &mut self.kept.caller;
        look_ahead(&mut client.unserved, &mut client.stream, room)
    }

    // Whether others are served before it goes on.
    fn has_had_its_turn(&self) -> bool
        ensures { result ≡ false → self.now.reads ≤ 50_000 }
    {
        match self.clock.now() {
            Some(now) => is_turn_over(self.reads, now, self.only_until, self.turn_ends),
            None => true,
        }
    }

    // Takes what comes next, of a request that is whole no more than its bytes. Nobody is waited
    // for.
    fn take(&mut self, buf: &mut [u8]) -> Result<usize, ReadFailed>
        ensures bound { IfOk result (λ n. n ≤ length buf.new) }
        ensures most { IfOk result (λ n. n ≤ self.old.left) }
        ensures left { IfOk result (λ n. self.new.left ≡ self.old.left - n) }
        ensures ahead { GivesAhead self.old.kept.caller.unserved self.new.kept.caller.unserved
            result (take self.old.left buf.new) }
        ensures lost { OnErr result ((e : NoBytes) × T.gives self.new.kept.caller.stream (Err e)) }
        ensures same { (self.new.failed ≡ self.old.failed) × (self.new.ended ≡ self.old.ended)
            × (self.new.reads ≡ self.old.reads) × (self.new.is_paused ≡ self.old.is_paused) }
        ensures begun { (self.new.is_first ≡ self.old.is_first)
            × (self.new.kept.caller.ahead ≡ self.old.kept.caller.ahead)
            × (self.new.kept.number ≡ self.old.kept.number) }
    {
        let most = buf.len().min(self.left);
        let client = &mut self.kept.caller;
        let count = take_from(&mut client.unserved, &mut client.stream, &mut buf[..most])?;
        self.left = self.left.saturating_sub(count);
        Ok(count)
    }

    // Gives what comes next: nothing where the piece has ended.
    fn give(&mut self, buf: &mut [u8]) -> Result<usize, ReadFailed>
        ensures bound { IfOk result (λ n. n ≤ length buf.new) }
        ensures piece { IsPieceRead (length buf.old) self.old self.new result }
        ensures front { GivesFront (length buf.old) self.old self.new result buf.new }
        ensures lost { OnErr result ((e : NoBytes) × T.gives self.new.kept.caller.stream (Err e)) }
        ensures same { (self.new.failed ≡ self.old.failed) × (self.new.ended ≡ self.old.ended)
            × (self.new.reads ≡ self.old.reads) }
    {
        if buf.len() == INBOX_ROOM && !self.begins(buf) {
            self.is_paused = true;
            return Ok(0);
        }
        self.take(buf)
    }

    // Notes what a read gave that had so much room.
    fn note(&mut self, given: Result<usize, ReadFailed>, room: usize)
        ensures failed { self.new.failed ≡ (self.old.failed || is_err given) }
        ensures ended { self.new.ended ≡ (self.old.ended || found_end given room) }
        ensures same { (self.new.reads ≡ self.old.reads) × (self.new.kept ≡ self.old.kept)
            × (self.new.left ≡ self.old.left) × (self.new.is_first ≡ self.old.is_first)
            × (self.new.is_paused ≡ self.old.is_paused) }
    {
        match given {
            Ok(count) => {
                if count == 0 && room != 0 {
                    self.ended = true;
                }
            }
            Err(_) => self.failed = true,
        }
    }

    // Whether the peer may still be written to, and may say more.
    fn is_open(&self) -> bool
        ensures { result ≡ not (self.now.failed || self.now.ended) }
    {
        !self.failed && !self.ended
    }
}

impl<'a, C: MonotonicClock, T: NonblockingStream + AsRawFd> Source for PieceReader<'a, C, T> {
    ghost left = { λ _. None };

    ghost reads = { λ r. known_count r.reads };

    ghost has_failed = { λ r. r.failed };

    ghost has_ended = { λ r. r.ended };

    // Beside what each source ensures: where the piece pauses, how much is given at most, that no
    // byte that was read ahead is lost or given twice, and that it fails only where the stream gave
    // nothing.
    fn read(&mut self, buf: &mut [u8]) -> Result<usize, ReadFailed>
        ensures bound { IfOk result (λ n. n ≤ length buf.new) }
        ensures bytes { ReadConsumes None None result buf.new }
        ensures count { CountsBy 1 (known_count self.old.reads) (known_count self.new.reads) }
        ensures failed { self.new.failed ≡ (self.old.failed || is_err result) }
        ensures ended { self.new.ended ≡ (self.old.ended || found_end result (length buf.new)) }
        ensures piece { IsPieceRead (length buf.old) self.old self.new result }
        ensures front { GivesFront (length buf.old) self.old self.new result buf.new }
        ensures lost { OnErr result ((e : NoBytes) × T.gives self.new.kept.caller.stream (Err e)) }
    {
        self.reads = self.reads.saturating_add(1);
        let given = self.give(buf);
        self.note(given, buf.len());
        given
    }
}

/// What is written to in a piece.
pub type PieceWriter<'a, C, T> = SocketWriter<'a, SharedStream<T>, C>;

// What is written to in a turn of one who is to be served, and the moment that it is. Without
// memory or a clock nobody can be served for a while.
fn begin_turn<C: MonotonicClock, T: NonblockingStream + AsRawFd>(
    clock: &C,
    client: &Client<T>,
) -> Option<(SharedStream<T>, Duration)>
    ensures shown { IfSome result (λ it. C.shows clock.now (Some it.1)) }
    ensures same { IfSome result (λ it. T.is_same it.0.stream client.now.stream) }
    ensures none { result ≡ None → T.is_full client.now.stream ⊎ C.shows clock.now None }
{
    match (SharedStream::new(&client.stream), clock.now()) {
        (Some(stream), Some(now)) => Some((stream, now)),
        _ => {
            clock.rest(Duration::from_millis(PAUSE));
            None
        }
    }
}

/// The two sides of the next piece, where someone is to be served: what is written goes to whom it
/// is read from. Nobody is given only where nobody is to be served once all were looked at, or
/// where the clock can't be read or there is no memory.
pub fn next_piece<'a, C: MonotonicClock, L: NonblockingListener>(
    clock: &'a C,
    waiting: &mut Waiting<Acceptor<'a, C, L>, Client<L::Stream>>,
    patience: Duration,
) -> Option<(PieceReader<'a, C, L::Stream>, PieceWriter<'a, C, L::Stream>)>
    ensures reader { IfSome result (λ sides. sides.0.failed ≡ false) }
    ensures begins { IfSome result (λ sides. (sides.0.is_first ≡ true)
        × (sides.0.is_paused ≡ false) × (sides.0.ended ≡ false) × (sides.0.reads ≡ 0)) }
    ensures writer { IfSome result (λ sides. sides.1.failed ≡ false) }
    ensures patient { IfSome result (λ sides. (sides.1.patience ≡ patience)
        × (as_nanos sides.1.last ≡ u64.MAX * 1_000_000_000)) }
    ensures same_stream { IfSome result (λ sides.
        L.Stream.is_same sides.1.stream.stream sides.0.kept.caller.stream) }
    ensures given { GivesPiece (C.shows clock.now) L.Stream.is_full waiting.old.line.items
        waiting.new.line.items waiting.old.ready.items waiting.new.ready.items waiting.old.next
        waiting.new.next (option_map (λ sides. sides.0.kept) result) }
    ensures hears { HearsPiece ⟦<Acceptor<'a, C, L> as Entrance>⟧ waiting.old waiting.new
        (option_map (λ sides. sides.0.kept) result) }
    ensures turn { IfSome result (λ sides. BeginsTurn (C.shows clock.now)
        waiting.new.line.items waiting.new.ready.items waiting.new.closing_connections.items
        sides.0.only_until sides.0.turn_ends) }
    ensures times { (waiting.new.keep ≡ waiting.old.keep)
        × (waiting.new.patience ≡ waiting.old.patience) }
{
    waiting.hear();
    let (stream, now) = begin_turn(clock, &waiting.first()?.caller)?;
    let mut kept = waiting.next()?;
    let pause = if waiting.is_awaited() {
        Duration::ZERO
    } else {
        waiting.pause(now)
    };
    let door = waiting.entrance();
    door.release(&mut kept.caller);
    let elsewhere = door.set();
    // Each answer has its patience: there is no last moment for all of them.
    let last = Duration::from_secs(u64::MAX);
    let writer = SocketWriter::new(stream, clock, patience, last);
    Some((PieceReader::new(clock, kept, elsewhere, pause, now), writer))
}

/// Takes the sides of a piece back that was served. Where the stream may go on, its next request is
/// waited for among the others; else it is parted from. Who got no answer is dropped.
pub fn take_back<'a, C: MonotonicClock, L: NonblockingListener>(
    waiting: &mut Waiting<Acceptor<'a, C, L>, Client<L::Stream>>,
    reader: PieceReader<'a, C, L::Stream>,
    writer: PieceWriter<'a, C, L::Stream>,
)
    ensures taken { TakesBack (C.shows waiting.old.entrance.clock.now) L.Stream.is_stuck
        waiting.old.keep
        reader.entry.kept reader.entry.is_paused (not (reader.entry.failed || reader.entry.ended))
        (if writer.entry.failed then None else writer.entry.until) waiting.old.line.items
        waiting.new.line.items waiting.old.ready.items waiting.old.next
        waiting.old.closing_connections.items waiting.new.closing_connections.items }
    ensures same { (waiting.new.ready.items ≡ waiting.old.ready.items)
        × (waiting.new.next ≡ waiting.old.next) }
    ensures times { (waiting.new.keep ≡ waiting.old.keep)
        × (waiting.new.patience ≡ waiting.old.patience) }
{
    let Some(until) = writer.answered() else {
        return;
    };
    let is_open = reader.is_open();
    let PieceReader {
        mut kept,
        is_paused,
        ..
    } = reader;
    kept.caller.is_fresh = true;
    if is_paused {
        waiting.take_back(kept);
    } else if is_open && kept.caller.stream.shut() {
        waiting.part(kept, until);
    }
}
