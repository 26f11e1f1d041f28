//! Where those who call come in, and where they are looked at.
ghost use Rattle.std.specs.Prelude.{◌≡◌, Bool, [], ◌∷◌, None, Option, false, option_to_list};
ghost use Rattle.std.specs.declared.time.Duration.{Duration as Moment};
ghost use Rattle.room_http_messages.specs.Streams.{Grows};
ghost use Rattle.dispatch_room_sockets.specs.Pauses.{Seen};

use crate::kept_callers::Heard;
use std::time::Duration;

/// Where those who call come in. Only `wait` waits, and for all of them at once. That the system
/// reports who moves, and that a wait ends by its moment, is tested.
pub trait Entrance: Drop {
    /// One who calls.
    type Caller: Drop;

    // Who came, what each look found, and each wait so far.
    ghost seen: { Self → Seen Self.Caller };

    // Whether `wait` finds when one moves.
    ghost is_watched: { Self → Self.Caller → Bool };

    // Nobody can be accepted for now, as far as that is known.
    ghost is_done: { Self → Type 0 };

    // One has said all that it will, or too much, since it was so, as far as that is known.
    ghost has_gone: { Self.Caller → Self.Caller → Type 0 };

    // What the clock may show, as far as that is known.
    ghost shows: { Self → Option Moment → Type 0 };

    /// The next who calls, where one does.
    fn accept(&mut self) -> Option<Self::Caller>
        ensures none { result ≡ None → is_done self.new }
        ensures came { Grows (seen self.old).came (seen self.new).came (option_to_list result) }
        ensures same { seen self.new ≡ record (seen self.old) { came = (seen self.new).came } };

    /// Looks at what one has said, all of which is still to be served.
    fn look(&mut self, caller: &mut Self::Caller) -> Heard
        ensures heard { Grows (seen self.old).heard (seen self.new).heard (result ∷ []) }
        ensures same { seen self.new ≡ record (seen self.old) { heard = (seen self.new).heard } };

    /// Throws away what comes on a closing connection, and returns whether more may come.
    fn throw_away(&mut self, caller: &mut Self::Caller) -> bool
        ensures gone { result ≡ false → has_gone caller.old caller.new }
        ensures same { seen self.new ≡ seen self.old };

    /// Whether `wait` finds when one moves.
    fn is_watched(&self, caller: &Self::Caller) -> bool
        ensures { result ≡ is_watched self.now caller.now };

    /// Waits until someone moves, at most this long, and returns the moment after it: none where
    /// the clock can't be read. After a wait of no time, each caller that is looked at and may
    /// still speak is watched.
    fn wait(&mut self, most: Duration) -> Option<Duration>
        ensures waits { Grows (seen self.old).waits (seen self.new).waits
            (record { most = most; after = result } ∷ []) }
        ensures same { seen self.new ≡ record (seen self.old) { waits = (seen self.new).waits } };

    /// The moment that it is: none where the clock can't be read.
    fn now(&self) -> Option<Duration>
        ensures { shows self.now result };
}
