//! The door of a room: its sockets, and the system's set of those that move.
ghost use Rattle.std.specs.Prelude.{◌≡◌, ◌+◌, ◌-◌, ◌||◌, ◌↔◌, ◌≤ℤ◌, [], Err, IfSome, IsTrue, None};
ghost use Rattle.std.specs.Prelude.{false, length, min, pos, true, if◌then◌else◌};
ghost use Rattle.std.specs.Duration.{as_nanos, max_nanos};
ghost use Rattle.dispatch_room_sockets.specs.Lookaheads.{StandsAhead, heard_of, may_grow};
ghost use Rattle.dispatch_room_sockets.specs.Departures.{IsSpent};
ghost use Rattle.dispatch_room_sockets.specs.Moves.{IsDeaf, IsDone, has_moved};
ghost use Rattle.dispatch_room_sockets.specs.declared.nonblocking_streams.NoBytes.TheVariants.{Yet};

use crate::entrances::Entrance;
use crate::kept_callers::{Heard, is_over};
use crate::lookaheads::{Lookahead, look_ahead};
use crate::monotonic_clocks::MonotonicClock;
use crate::nonblocking_streams::{NoBytes, NonblockingListener, NonblockingStream};
use crate::readiness::is_readable;
use crate::timeouts::earlier;
use crate::unserved_bytes::UnservedBytes;
use libc::types::rlimit;
use libc::{RLIMIT_NOFILE, getrlimit};
use mio::event::Events;
use mio::unix::SourceFd;
use mio::{Interest, Poll, Token};
use room_http_messages::limits::INBOX_ROOM;
use std::alloc::Global;
use std::io::{self, Error, ErrorKind};
use std::net::{TcpListener, TcpStream};
use std::os::fd::{AsRawFd, OwnedFd, RawFd};
use std::time::Duration;

// How many slots note which connections have moved. Two may share one: then both are looked at
// where either has moved.
const SLOTS: usize = 4096;

// How many of those that move are reported by one wait.
const MOST_EVENTS: usize = 1100;

/// How many milliseconds nobody is accepted after a connection that the system could not give, as
/// where too many files are open: it would say the same again at once.
pub const PAUSE: u64 = 100;

// How many descriptors are left to the room itself, as to its files.
const SPARE: u64 = 8;

// How many bytes one read throws away, and how many reads one look makes: a connection that sends
// more than that meanwhile is closed.
const PIECE: usize = 4096;

const MOST_PIECES: u32 = 4096;

/// A connection of one who called.
#[derive(Drop)]
pub struct Client<T> {
    pub(crate) stream: T,
    pub(crate) unserved: UnservedBytes,
    // What stood ahead when it was looked at last.
    pub(crate) ahead: Lookahead,
    slot: usize,
    // Whether the next look includes it in any case.
    pub(crate) is_fresh: bool,
    // Whether it is in the set of those whose moves are reported.
    is_watched: bool,
}

impl<T: NonblockingStream> Client<T> {
    // A connection that was not looked at yet: none without memory.
    fn new(alloc: Global, stream: T, slot: usize) -> Option<Client<T>>
        ensures { IfSome result (λ it. (it.unserved ≡ []) × (it.is_fresh ≡ true)
            × (it.is_watched ≡ false)) }
    {
        Some(Client {
            stream,
            unserved: UnservedBytes::new(alloc).ok()?,
            ahead: Lookahead::Nothing,
            slot,
            is_fresh: true,
            is_watched: false,
        })
    }

    // Throws away what has come, and returns whether more may come: none after its end, or once it
    // is lost, and none is waited for after so many pieces.
    fn throw_away(&mut self) -> bool
        ensures yet { result ≡ true → T.gives self.new.stream (Err Yet) }
        ensures gone { result ≡ false → IsSpent (T.gives self.new.stream)
            (T.left self.old.stream) (T.left self.new.stream) }
        ensures same { (self.new.is_fresh ≡ self.old.is_fresh)
            × (self.new.is_watched ≡ self.old.is_watched) }
    {
        let mut piece = [0; PIECE];
        for _piece in 0..MOST_PIECES {
            match self.stream.receive(&mut piece) {
                Ok(0) => return false,
                Ok(_) => {}
                Err(NoBytes::Yet) => return true,
                Err(NoBytes::Ever) => return false,
            }
        }
        false
    }
}

// The first of the descriptors that are left to the room itself: the system gives the lowest that
// is free. Where it can't be known how many there are, the system says when there are no more.
fn first_spare() -> RawFd {
    let mut limit = rlimit {
        rlim_cur: 0,
        rlim_max: 0,
    };
    if getrlimit(RLIMIT_NOFILE, &mut limit) != 0 {
        return RawFd::MAX;
    }
    spare_from(limit.rlim_cur)
}

// The first of them, where there are so many descriptors.
fn spare_from(limit: u64) -> RawFd
    ensures { result ≡ pos (min (limit - 8) 2_147_483_647) }
{
    match RawFd::try_from(limit.saturating_sub(SPARE)) {
        Ok(first) => first,
        Err(_) => RawFd::MAX,
    }
}

// Until when nobody is accepted from now on.
fn deaf_until(now: Duration) -> Duration
    ensures { as_nanos result ≡ min (as_nanos now + 100_000_000) max_nanos }
{
    now.saturating_add(Duration::from_millis(PAUSE))
}

/// A door at which those who call are accepted.
#[derive(Drop)]
pub struct Acceptor<'a, C, L> {
    clock: &'a C,
    alloc: Global,
    listener: L,
    // What a look reads comes here first.
    room: Vec<u8>,
    poll: Poll,
    events: Events<Global>,
    // Which wait reported last that something moved in a slot.
    moved: Vec<u64>,
    wait: u64,
    // The slot of the next who calls.
    slot: usize,
    // Whether someone may be calling.
    is_called: bool,
    // Whether who may still speak is watched once it was looked at.
    watches: bool,
    // Until when nobody is accepted.
    deaf_until: Duration,
    // Whether the last who was accepted has a descriptor that is to be left to the room itself, or
    // there was no memory for it.
    is_full: bool,
    // Up to this one descriptors are not left to the room itself.
    known: RawFd,
}

// Lets each answer of those who are accepted leave at once: they inherit it from what listens.
fn set_nodelay(listener: &TcpListener) -> io::Result<()> {
    TcpStream::from(OwnedFd::from(listener.try_clone()?)).set_nodelay(true)
}

// The system's set, in which the one that listens is watched.
fn poll_of(rt: &HostRuntime, listener: &TcpListener) -> io::Result<Poll> {
    let poll = Poll::new(rt)?;
    let fd = listener.as_raw_fd();
    poll.registry()
        .register(&mut SourceFd(&fd), Token(SLOTS), Interest::READABLE)?;
    Ok(poll)
}

impl<'a> Acceptor<'a, HostRuntime, TcpListener> {
    /// The door where this listens.
    pub fn new(
        rt: &'a HostRuntime,
        alloc: Global,
        listener: TcpListener,
    ) -> io::Result<Acceptor<'a, HostRuntime, TcpListener>> {
        listener.set_nonblocking(true)?;
        set_nodelay(&listener)?;
        let poll = poll_of(rt, &listener)?;
        Ok(Acceptor {
            clock: rt,
            alloc,
            listener,
            room: vec![in alloc; 0; INBOX_ROOM]?,
            poll,
            events: Events::with_capacity(alloc, MOST_EVENTS)?,
            moved: vec![in alloc; 0; SLOTS]?,
            wait: 0,
            slot: 0,
            is_called: true,
            watches: false,
            deaf_until: Duration::ZERO,
            is_full: false,
            known: 0,
        })
    }
}

impl<'a, C: MonotonicClock, L: NonblockingListener> Acceptor<'a, C, L> {
    /// What can be read from once someone moves who is watched, or calls.
    pub(crate) fn set(&self) -> RawFd {
        self.poll.as_raw_fd()
    }

    // Whether the last wait reported that something moved in this slot.
    fn has_moved(&self, slot: usize) -> bool
        ensures { result ≡ has_moved self.now.moved.items self.now.wait slot }
    {
        match self.moved.get(slot) {
            Some(wait) => *wait == self.wait,
            None => true,
        }
    }

    // Lets the moves of one be reported. Where that can't be, it is looked at whoever has moved.
    fn watch(&self, client: &mut Client<L::Stream>)
        ensures same { (client.new.unserved ≡ client.old.unserved)
            × (client.new.ahead ≡ client.old.ahead) × (client.new.stream ≡ client.old.stream) }
        ensures again { client.new.is_watched ≡ false → client.new.is_fresh ≡ true }
    {
        if client.is_watched {
            return;
        }
        let fd = client.stream.as_raw_fd();
        let registered = self
            .poll
            .registry()
            .register(&mut SourceFd(&fd), Token(client.slot), Interest::READABLE);
        client.is_watched = registered.is_ok();
        client.is_fresh = registered.is_err();
    }

    // Looks at what stands ahead of one now. Who may still speak is looked at again, whoever has
    // moved, until its moves are reported.
    fn look_anew(&mut self, client: &mut Client<L::Stream>)
        ensures seen { StandsAhead (length self.old.room.items) (L.Stream.gives client.new.stream)
            (L.Stream.left client.new.stream) client.new.unserved client.new.ahead }
        ensures again { may_grow client.new.ahead ≡ true → client.new.is_watched ≡ false
            → client.new.is_fresh ≡ true }
    {
        let room = self.room.as_mut_slice();
        client.ahead = look_ahead(&mut client.unserved, &mut client.stream, room);
        client.is_fresh = false;
        if !client.ahead.may_grow() {
            return;
        }
        client.is_fresh = !client.is_watched;
        if self.watches {
            self.watch(client);
        }
    }

    /// Lets the moves of one not be reported any longer.
    pub(crate) fn release(&self, client: &mut Client<L::Stream>)
        ensures { client.new ≡ record client.old { is_watched = false } }
    {
        if client.is_watched {
            let fd = client.stream.as_raw_fd();
            let _ = self.poll.registry().deregister(&mut SourceFd(&fd));
            client.is_watched = false;
        }
    }

    // Notes why nobody could be accepted.
    fn note(&mut self, error: &Error)
        ensures { self.new.listener ≡ self.old.listener }
    {
        match error.kind() {
            ErrorKind::WouldBlock => self.is_called = false,
            ErrorKind::ConnectionAborted => {}
            _ => self.pause(),
        }
    }

    // Accepts nobody for a while. Since then more descriptors may be left to the room itself.
    fn pause(&mut self)
        ensures { (self.new.is_full ≡ self.old.is_full) × (self.new.listener ≡ self.old.listener) }
    {
        self.known = 0;
        if let Some(now) = self.clock.now() {
            self.deaf_until = deaf_until(now);
        }
    }

    // Begins a wait, and returns how long it lasts at most: where someone may be calling, no longer
    // than nobody is accepted for a while. Who is looked at after a wait of no time is watched.
    fn begin_wait(&mut self, most: Duration) -> Duration
        ensures most { as_nanos result ≡
            (if self.old.is_called then min (as_nanos most) 100_000_000 else as_nanos most) }
        ensures watches { IsTrue self.new.watches ↔ (as_nanos result ≡ 0) }
        ensures count { self.new.wait ≡ min (self.old.wait + 1) u64.MAX }
    {
        let most = if self.is_called {
            earlier(most, Duration::from_millis(PAUSE))
        } else {
            most
        };
        self.watches = most.is_zero();
        self.wait = self.wait.saturating_add(1);
        most
    }

    // Notes who has moved, as the last wait reported it.
    fn note_moves(&mut self) {
        for event in self.events.iter() {
            let Token(slot) = event.token();
            match self.moved.get_mut(slot) {
                Some(wait) => *wait = self.wait,
                None => self.is_called = true,
            }
        }
    }

    // Whether this descriptor is one of those that are left to the room itself, the first of which
    // is known. Where it is none, that is noted.
    fn is_spare(&mut self, fd: RawFd, first: RawFd) -> bool
        ensures spare { IsTrue result ↔ (first ≤ℤ fd) }
        ensures known { self.new.known ≡ (if result then self.old.known else fd) }
    {
        let is_spare = fd >= first;
        if !is_spare {
            self.known = fd;
        }
        is_spare
    }

    // One who was accepted: none without memory.
    fn admitted(&mut self, stream: L::Stream) -> Option<Client<L::Stream>>
        ensures fresh { IfSome result (λ client. (client.unserved ≡ [])
            × (client.is_fresh ≡ true)) }
        ensures none { result ≡ None → self.new.is_full ≡ true }
    {
        // To ask whether more call costs less than an accept that finds none.
        self.is_called = is_readable(self.listener.as_raw_fd());
        // The system is asked only where it gave none as high before.
        let fd = stream.as_raw_fd();
        self.is_full = fd > self.known && self.is_spare(fd, first_spare());
        let slot = self.slot;
        let next = slot.saturating_add(1);
        self.slot = if next < SLOTS { next } else { 0 };
        let client = Client::new(self.alloc, stream, slot);
        self.is_full = self.is_full || client.is_none();
        client
    }

    // Whether the next descriptor is one of those that are left to the room itself.
    fn lacks_descriptors(&self) -> bool {
        match self.listener.next_descriptor() {
            Some(next) => next >= first_spare(),
            None => true,
        }
    }

    // Whether nobody is accepted for a while.
    fn is_deaf(&self) -> bool
        ensures { result ≡ true → IsDeaf (C.shows self.now.clock.now) self.now.deaf_until }
    {
        match self.clock.now() {
            Some(now) => !is_over(now, self.deaf_until),
            None => true,
        }
    }
}

// Who calls and what is said no contract can say.
impl<'a, C: MonotonicClock, L: NonblockingListener> Entrance for Acceptor<'a, C, L> {
    type Caller = Client<L::Stream>;

    ghost use Rattle.std.specs.Prelude.{None};
    ghost use Rattle.dispatch_room_sockets.specs.Departures.{IsSpent};
    ghost use Rattle.dispatch_room_sockets.specs.Moves.{IsDone};

    ghost seen = { λ _. record { came = None; heard = None; waits = None } };

    ghost is_watched = { λ _ client. client.is_watched };

    ghost is_done = { λ door. IsDone door.is_called door.is_full (L.is_deaf door.listener)
        (C.shows door.clock.now) door.deaf_until };

    ghost has_gone = { λ old new. IsSpent (L.Stream.gives new.stream) (L.Stream.left old.stream)
        (L.Stream.left new.stream) };

    ghost shows = { λ door. C.shows door.clock.now };

    // Beside what each entrance ensures: the next look includes who was accepted.
    fn accept(&mut self) -> Option<Client<L::Stream>>
        ensures fresh { IfSome result (λ client. (client.unserved ≡ [])
            × (client.is_fresh ≡ true)) }
        ensures none { result ≡ None → IsDone self.new.is_called self.new.is_full
            (L.is_deaf self.new.listener) (C.shows self.new.clock.now) self.new.deaf_until }
    {
        if !self.is_called || self.is_deaf() {
            return None;
        }
        if self.is_full && self.lacks_descriptors() {
            self.pause();
            return None;
        }
        match self.listener.take(self.alloc) {
            Ok(stream) => self.admitted(stream),
            Err(error) => {
                self.note(&error);
                None
            }
        }
    }

    // Beside what each entrance ensures: what was heard is what stands ahead. Who has not moved
    // stays as it is.
    fn look(&mut self, client: &mut Client<L::Stream>) -> Heard
        ensures said { result ≡ heard_of client.new.ahead }
        ensures seen { (client.old.is_fresh
            || has_moved self.old.moved.items self.old.wait client.old.slot) ≡ true
            → StandsAhead (length self.old.room.items) (L.Stream.gives client.new.stream)
            (L.Stream.left client.new.stream) client.new.unserved client.new.ahead }
        ensures rests { (client.old.is_fresh
            || has_moved self.old.moved.items self.old.wait client.old.slot) ≡ false
            → client.new ≡ client.old }
    {
        if !client.is_fresh && !self.has_moved(client.slot) {
            return client.ahead.heard();
        }
        self.look_anew(client);
        client.ahead.heard()
    }

    fn throw_away(&mut self, client: &mut Client<L::Stream>) -> bool {
        if !client.is_fresh && !self.has_moved(client.slot) {
            return true;
        }
        client.is_fresh = false;
        let stays = client.throw_away();
        if stays {
            self.watch(client);
        }
        stays
    }

    fn is_watched(&self, client: &Client<L::Stream>) -> bool {
        client.is_watched
    }

    fn wait(&mut self, most: Duration) -> Option<Duration> {
        let most = self.begin_wait(most);
        match self.poll.poll(&mut self.events, Some(most)) {
            Ok(_) => self.note_moves(),
            Err(_) => self.clock.rest(Duration::from_millis(PAUSE)),
        }
        self.clock.now()
    }

    fn now(&self) -> Option<Duration> {
        self.clock.now()
    }
}
