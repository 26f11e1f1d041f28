//! The moment at which something is answered.
ghost use Rattle.std.specs.Prelude.{◌≤◌, [], ◌∷◌, MatchOption};
ghost use Rattle.std.specs.Io.KnownBytes.{Appends};
ghost use Rattle.room_types.specs.declared.numbers.TheConstants.{LAST_MOMENT};
ghost use Rattle.room_http.specs.ClockMoments.{HasNoMoment};

use crate::clocks::Clock;
use room_types::numbers::{LAST_MOMENT, Moment};

/// The moment of the clock; none where the clock gives none, or a later one than `LAST_MOMENT`.
pub fn moment<C: Clock>(clock: &mut C) -> Option<Moment>
    ensures { MatchOption result
        (HasNoMoment (C.given clock.old) (C.given clock.new) (C.was_none clock.new) [])
        (λ at. (at ≤ LAST_MOMENT) × Appends (C.given clock.old) (C.given clock.new) (at ∷ [])) }
{
    match clock.now() {
        Some(at) if at <= LAST_MOMENT as u64 => Some(Moment::of(at as u32)),
        Some(_) => None,
        None => None,
    }
}
