//! How a connection is closed so that its last answer arrives: a lingering close.
ghost use Rattle.std.specs.Prelude.{◌≡◌, ◌||◌, [], ◌∷◌, List, ℕ, Bool, Option, None, not};
ghost use Rattle.std.specs.Prelude.{if◌then◌else◌};
ghost use Rattle.std.specs.declared.time.Duration.{Duration as Time};
ghost use Rattle.room_http_messages.specs.Streams.{Grows};
ghost use Rattle.dispatch_room_sockets.specs.LingeringClose.{IsDrained, IsParted, Step, ThrowsAway};
ghost use Rattle.dispatch_room_sockets.specs.LingeringClose.{drains_until, shut, threw};

use crate::monotonic_clocks::MonotonicClock;
use crate::socket_readers::SocketReader;
use crate::socket_writers::SocketWriter;
use std::io::{Read, Write};
use std::net::OpenStream;
use std::time::Duration;

// How many pieces are thrown away, at most.
const MOST_PIECES: u32 = 4096;

/// A peer whose connection is being closed.
pub trait Closing {
    // The bytes that it still sends, where they are known.
    ghost left: { Self → Option (List ℕ) };

    // What was done to part from it, where that is known.
    ghost done: { Self → Option (List Step) };

    // Whether it may still send.
    ghost is_open: { Self → Bool };

    // Until when the last answer may wait for it.
    ghost answered: { Self → Option Time };

    /// Whether it may still send: no read has failed or found the end.
    fn is_open(&self) -> bool
        ensures { result ≡ is_open self.now };

    /// Until when the last answer may wait for it: none where none was written, or where a write
    /// failed.
    fn answered(&self) -> Option<Duration>
        ensures { result ≡ answered self.now };

    /// Shuts the writing side, and returns whether that succeeded.
    fn shut(&mut self) -> bool
        ensures left { left self.new ≡ left self.old }
        ensures done { Grows (done self.old) (done self.new) (shut result ∷ []) };

    /// Reads a piece of what still comes and throws it away, and returns whether more may come. It
    /// waits until a moment at most.
    fn throw_away(&mut self, moment: Duration) -> bool
        ensures thrown { ThrowsAway 4096 (left self.old) (left self.new) }
        ensures done { Grows (done self.old) (done self.new) (threw moment result ∷ []) };
}

/// Closes a connection so that its last answer arrives: the writing side is shut, what still comes
/// is read and thrown away, and then the connection is dropped (RFC 9112, section 9.6). A
/// connection with bytes that nobody reads would be reset as it is dropped, and the system would
/// throw away what it has not sent yet. All this takes no longer than the answer may wait.
pub fn part<P: Closing>(peer: &mut P)
    ensures parted { (steps : List Step) × Grows (P.done peer.old) (P.done peer.new) steps
        × IsParted (drains_until (P.is_open peer.old) (P.answered peer.old)) steps }
    ensures thrown { ThrowsAway 16777216 (P.left peer.old) (P.left peer.new) }
{
    let Some(moment) = drains_until(peer.is_open(), peer.answered()) else {
        return;
    };
    if peer.shut() {
        drain(peer, moment);
    }
}

// Until when a peer is read from that is parted from: as long as its answer may wait, and not at
// all where it sends no more.
fn drains_until(is_open: bool, answered: Option<Duration>) -> Option<Duration>
    ensures { result ≡ drains_until is_open answered }
{
    if is_open { answered } else { None }
}

// Throws away what still comes until a moment: until no more comes, or so many pieces.
fn drain<P: Closing>(peer: &mut P, moment: Duration)
    ensures drained { (steps : List Step) × Grows (P.done peer.old) (P.done peer.new) steps
        × IsDrained moment steps }
    ensures thrown { ThrowsAway 16777216 (P.left peer.old) (P.left peer.new) }
{
    for _piece in 0..MOST_PIECES {
        if !peer.throw_away(moment) {
            return;
        }
    }
}

/// The peer of a socket.
#[derive(Drop)]
pub struct Peer<'a, T, C> {
    reader: SocketReader<'a, T, C>,
    writer: SocketWriter<'a, T, C>,
}

impl<'a, T: Read + Write + OpenStream, C: MonotonicClock> Peer<'a, T, C> {
    /// The peer from which one side was read, and to which the other was written.
    pub fn new(reader: SocketReader<'a, T, C>, writer: SocketWriter<'a, T, C>) -> Peer<'a, T, C>
        ensures { result ≡ record { reader = reader.entry; writer = writer.entry } }
    {
        Peer { reader, writer }
    }
}

// What was done with a socket no contract can say.
impl<'a, T: Read + Write + OpenStream, C: MonotonicClock> Closing for Peer<'a, T, C> {
    ghost left = { λ peer. T.remaining peer.reader.stream };

    ghost done = { λ _. None };

    ghost is_open = { λ peer. not (peer.reader.lost || peer.reader.ended) };

    ghost answered = { λ peer. if peer.writer.failed then None else peer.writer.until };

    fn is_open(&self) -> bool {
        self.reader.is_open()
    }

    fn answered(&self) -> Option<Duration> {
        self.writer.answered()
    }

    fn shut(&mut self) -> bool {
        self.writer.shut()
    }

    fn throw_away(&mut self, moment: Duration) -> bool {
        self.reader.throw_away(moment)
    }
}
