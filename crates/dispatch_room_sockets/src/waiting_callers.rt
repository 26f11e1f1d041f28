//! Those who wait: each is kept until a request of theirs is whole, and is then given in that
//! order, so that nobody waits for a silent caller. Nobody is looked at while someone is ready.
//! Then all are, first without waiting where one isn't watched: who comes back isn't, so new
//! callers are heard beside those who ask without a pause.
ghost use Rattle.std.specs.Prelude.{◌≡◌, ◌+◌, ◌≤◌, IfOk};
ghost use Rattle.std.specs.VecDeque.{deque_len, deque_capacity};

use crate::closing_connections::{ClosingConnection, throw_away_all};
use crate::entrances::Entrance;
use crate::kept_callers::Kept;
use crate::lines::{admit, look_at_all};
use crate::timeouts::earlier;
use std::alloc::{AllocError, Global};
use std::collections::VecDeque;
use std::time::Duration;

// How many are kept at most, those who are parted from among them. More wait in the system's queue.
const MOST_KEPT: usize = 1024;

// How many seconds a wait for someone to move lasts, at most.
const LONGEST_PAUSE: u64 = 1;

// How many milliseconds it lasts, at most, where a caller isn't watched; and how long a closing
// connection rests before the first look.
const SHORTEST_PAUSE: u64 = 2;

/// Those who wait, and where they come in.
#[derive(Drop)]
pub struct Waiting<E, C> {
    entrance: E,
    // Those who are looked at, in the order in which they came or came back.
    line: VecDeque<Kept<C>>,
    // Those who are to be served, in the order in which a look found that.
    ready: VecDeque<Kept<C>>,
    closing_connections: VecDeque<ClosingConnection<C>>,
    // The number of the next who calls.
    next: u64,
    // How long one may be silent.
    keep: Duration,
    // How long a request may take.
    patience: Duration,
    ghost line_room: { 1024 ≤ deque_capacity line },
    ghost ready_room: { 1024 ≤ deque_capacity ready },
    ghost leavers_room: { 1024 ≤ deque_capacity closing_connections },
    ghost few: { deque_len line + deque_len ready ≤ 1024 },
    ghost few_leave: { deque_len closing_connections ≤ 1024 },
}

impl<E: Entrance<Caller = C>, C: Drop> Waiting<E, C> {
    ghost use Rattle.dispatch_room_sockets.specs.CallerHistories.{AreInTime, ComesBack, GivesNext};
    ghost use Rattle.dispatch_room_sockets.specs.Rounds.{AreWatched, HasRounds, Hears, IsPause};
    ghost use Rattle.dispatch_room_sockets.specs.Rounds.{IsRound, LooksAround, Waited, all_watched};
    ghost use Rattle.dispatch_room_sockets.specs.Rounds.{before_giving, queues};
    ghost use Rattle.dispatch_room_sockets.specs.Turns.{IsInTurn, WaitsAgain};
    ghost use Rattle.dispatch_room_sockets.specs.Departures.{Departs, is_resting};
    ghost use Rattle.dispatch_room_sockets.specs.Pauses.{IsLeast, limits};
    ghost use Rattle.std.specs.Prelude.{[], ◌∷◌, ◌≢◌, ◌<◌, ◌==◌, IfSome, IsSome, drop, All, None};
    ghost use Rattle.std.specs.Prelude.{filter, length, not};
    ghost use Rattle.std.specs.Duration.{as_nanos};

    /// Nobody waits yet where they come in. Each may be silent so long, and a request may take so
    /// long.
    pub fn new(
        alloc: Global,
        entrance: E,
        keep: Duration,
        patience: Duration,
    ) -> Result<Waiting<E, C>, AllocError>
        ensures entrance { IfOk result (λ it. it.entrance ≡ entrance) }
        ensures empty { IfOk result (λ it. (it.line.items ≡ []) × (it.ready.items ≡ [])
            × (it.next ≡ 0)) }
        ensures times { IfOk result (λ it. (it.keep ≡ keep) × (it.patience ≡ patience)) }
    {
        Ok(Waiting {
            entrance,
            line: VecDeque::with_capacity(alloc, MOST_KEPT)?,
            ready: VecDeque::with_capacity(alloc, MOST_KEPT)?,
            closing_connections: VecDeque::with_capacity(alloc, MOST_KEPT)?,
            next: 0,
            keep,
            patience,
        })
    }

    /// The next who is to be served. Where nobody is yet, all are looked at, and then waited for a
    /// while, and it may be nobody.
    pub fn next(&mut self) -> Option<Kept<C>>
        ensures given { GivesNext self.old.line.items self.old.ready.items self.old.next
            self.new.line.items self.new.ready.items self.new.next result }
        ensures rounds { HasRounds (queues E.Entrance self.old)
            (before_giving result (queues E.Entrance self.new)) }
        ensures hears { Hears E.Entrance self.old self.new result }
        ensures in_turn { IsInTurn self.old.line.items self.new.line.items self.old.ready.items
            self.new.ready.items result }
        ensures room { IsSome result
            → length self.new.line.items + length self.new.ready.items < 1024 }
        ensures times { (self.new.keep ≡ self.old.keep) × (self.new.patience ≡ self.old.patience) }
    {
        self.hear();
        self.ready.pop_front()
    }

    /// Where nobody is to be served yet, looks at all, and then waits for a while.
    pub(crate) fn hear(&mut self)
        ensures rounds { HasRounds (queues E.Entrance self.old) (queues E.Entrance self.new) }
        ensures stay { length self.old.ready.items ≢ 0 → self.new ≡ self.old }
        ensures around { length self.old.ready.items ≡ 0
            → LooksAround E.Entrance self.old self.new }
        ensures times { (self.new.keep ≡ self.old.keep) × (self.new.patience ≡ self.old.patience) }
    {
        if self.ready.is_empty() {
            self.look_around();
        }
    }

    /// The next who is to be served, where someone is.
    pub(crate) fn first(&self) -> Option<&Kept<C>>
        ensures first { IfSome result (λ kept. self.now.ready.items
            ≡ kept.now ∷ drop 1 self.now.ready.items) }
        ensures nobody { result ≡ None → self.now.ready.items ≡ [] }
    {
        self.ready.front()
    }

    // Looks at all where not all are watched. Where nobody is to be served by then, waits until
    // someone moves, and looks at all.
    fn look_around(&mut self)
        ensures { LooksAround E.Entrance self.old self.new }
    {
        self.watch_all();
        if self.ready.is_empty() {
            let pause = self.longest_pause();
            self.wait(pause);
        }
    }

    // Where not all are watched, looks at all as they have moved by now, so that they are.
    fn watch_all(&mut self)
        ensures { AreWatched E.Entrance self.old self.new }
    {
        if !self.are_watched() {
            self.wait(Duration::ZERO);
        }
    }

    // Whether all who are looked at are watched.
    fn are_watched(&self) -> bool
        ensures { result ≡ all_watched E.Entrance self.now }
    {
        for kept in &self.line {
            if !self.entrance.is_watched(&kept.caller) {
                return false;
            }
        }
        true
    }

    // How long the next wait lasts, at most: a second where the clock fails.
    fn longest_pause(&self) -> Duration
        ensures { IsPause E.Entrance self.now result }
    {
        match self.entrance.now() {
            Some(now) => self.pause(now),
            None => Duration::from_secs(LONGEST_PAUSE),
        }
    }

    // Waits until someone moves, at most this long, and looks at all. Closing connections are read
    // before the wait, so that nobody who calls meanwhile waits for them.
    fn wait(&mut self, pause: Duration)
        ensures { Waited E.Entrance pause self.old self.new }
    {
        let now = self.entrance.now();
        self.throw_away(now);
        if let Some(now) = self.entrance.wait(pause) {
            self.look(now);
        }
    }

    // Throws away what those have said by now who are parted from, where it is known what time it
    // is. Who rests stays.
    fn throw_away(&mut self, now: Option<Duration>)
        ensures same { queues E.Entrance self.new ≡ queues E.Entrance self.old }
        ensures waits { (E.seen self.new.entrance).waits ≡ (E.seen self.old.entrance).waits }
        ensures in_time { IfSome now (λ now.
            All (λ l. as_nanos now < as_nanos l.until) self.new.closing_connections.items) }
        ensures rest { IfSome now (λ now. filter (is_resting now) self.new.closing_connections.items
            ≡ filter (is_resting now) self.old.closing_connections.items) }
    {
        if let Some(now) = now {
            throw_away_all(&mut self.entrance, &mut self.closing_connections, now);
        }
    }

    // Admits those who call now, and looks at all.
    fn look(&mut self, now: Duration)
        ensures round { IsRound now (queues E.Entrance self.old) (queues E.Entrance self.new) }
        ensures in_time { AreInTime now self.new.line.items }
        ensures closing_connections { self.new.closing_connections ≡ self.old.closing_connections }
        ensures waits { (E.seen self.new.entrance).waits ≡ (E.seen self.old.entrance).waits }
    {
        let kept = self.line.len() + self.ready.len();
        let most = MOST_KEPT.saturating_sub(kept + self.closing_connections.len());
        let until = now.saturating_add(self.keep);
        admit(
            &mut self.entrance,
            &mut self.line,
            &mut self.next,
            most,
            until,
        );
        look_at_all(
            &mut self.entrance,
            &mut self.line,
            &mut self.ready,
            now,
            self.patience,
        );
    }

    /// How long it may be waited from now on: until a time is over, a second at most, and two
    /// milliseconds where one isn't watched.
    pub fn pause(&self, now: Duration) -> Duration
        ensures bound { as_nanos result ≤ 1_000_000_000 }
        ensures least { IsLeast (as_nanos result) (limits now (E.is_watched self.now.entrance)
            self.now.line.items self.now.closing_connections.items) }
    {
        let mut pause = Duration::from_secs(LONGEST_PAUSE);
        for kept in &self.line {
            pause = earlier(pause, kept.until.saturating_sub(now));
            if !self.entrance.is_watched(&kept.caller) {
                pause = earlier(pause, Duration::from_millis(SHORTEST_PAUSE));
            }
        }
        for leaver in &self.closing_connections {
            pause = earlier(pause, leaver.next().saturating_sub(now));
        }
        pause
    }

    /// Where they come in.
    pub(crate) fn entrance(&self) -> &E
        ensures { result.now ≡ self.now.entrance }
    {
        &self.entrance
    }

    /// Whether another is to be served.
    pub fn is_awaited(&self) -> bool
        ensures { result ≡ not (length self.now.ready.items == 0) }
    {
        !self.ready.is_empty()
    }

    /// Takes one back who was served and may say more: there is room since it was given. It is
    /// silent again from now on, or from the clock's beginning where that can't be read.
    pub fn take_back(&mut self, kept: Kept<C>)
        ensures again { length self.old.line.items + length self.old.ready.items < 1024
            → WaitsAgain (E.shows self.old.entrance) self.old.keep kept.number kept.caller
            self.old.line.items self.new.line.items }
        ensures back { ComesBack kept.number self.old.line.items self.new.line.items
            self.old.ready.items self.old.next }
        ensures same { (self.new.ready.items ≡ self.old.ready.items)
            × (self.new.closing_connections ≡ self.old.closing_connections) × (self.new.next ≡ self.old.next) }
        ensures times { (self.new.keep ≡ self.old.keep) × (self.new.patience ≡ self.old.patience) }
    {
        let now = self.entrance.now().unwrap_or(Duration::ZERO);
        if self.line.len() + self.ready.len() < MOST_KEPT {
            self.line.push_back_reserved(Kept {
                number: kept.number,
                caller: kept.caller,
                has_begun: false,
                until: now.saturating_add(self.keep),
            });
        }
    }

    /// Parts now from one who was served: what they still say is thrown away until a moment. Where
    /// the clock can't be read, or too many leave, it is dropped.
    pub fn part(&mut self, kept: Kept<C>, until: Duration)
        ensures departs { Departs (E.shows self.old.entrance) kept.caller until
            self.old.closing_connections.items self.new.closing_connections.items }
        ensures back { ComesBack kept.number self.old.line.items self.new.line.items
            self.old.ready.items self.old.next }
        ensures same { (self.new.line.items ≡ self.old.line.items)
            × (self.new.ready.items ≡ self.old.ready.items) × (self.new.next ≡ self.old.next) }
        ensures times { (self.new.keep ≡ self.old.keep) × (self.new.patience ≡ self.old.patience) }
    {
        let Some(now) = self.entrance.now() else {
            return;
        };
        if self.closing_connections.len() < MOST_KEPT {
            self.closing_connections
                .push_back_reserved(ClosingConnection {
                    caller: kept.caller,
                    until,
                    rests: Some(now.saturating_add(Duration::from_millis(SHORTEST_PAUSE))),
                });
        }
    }
}
