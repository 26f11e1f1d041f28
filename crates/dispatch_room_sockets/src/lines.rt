//! The line of those who are kept: who calls is admitted to it, and all in it are looked at.
ghost use Rattle.std.specs.Prelude.{◌≡◌, ◌⊎◌, ◌+◌, ◌≤◌};
ghost use Rattle.std.specs.VecDeque.{deque_len, deque_capacity};
ghost use Rattle.dispatch_room_sockets.specs.Sweeps.{IsAdmitted, IsLookedAt, IsSwept};

use crate::entrances::Entrance;
use crate::kept_callers::{Kept, Verdict};
use std::collections::VecDeque;
use std::time::Duration;

/// Admits those who call, so many at most, and fewer only where nobody else can be accepted or no
/// number is left. Each may be silent until a moment.
pub(crate) fn admit<E: Entrance>(
    entrance: &mut E,
    line: &mut VecDeque<Kept<E::Caller>>,
    next: &mut u64,
    most: usize,
    until: Duration,
)
    requires room { deque_len line.old + most ≤ deque_capacity line.old }
    ensures admitted { IsAdmitted until line.old.items line.new.items next.old next.new
        (E.seen entrance.old).came (E.seen entrance.new).came }
    ensures all { (deque_len line.new ≡ deque_len line.old + most) ⊎ E.is_done entrance.new
        ⊎ (next.new ≡ u64.MAX) }
    ensures same { E.seen entrance.new
        ≡ record (E.seen entrance.old) { came = (E.seen entrance.new).came } }
    ensures bound { deque_len line.new ≤ deque_len line.old + most }
    ensures capacity { deque_capacity line.new ≡ deque_capacity line.old }
{
    for _caller in 0..most {
        if *next == u64::MAX {
            return;
        }
        let Some(caller) = entrance.accept() else {
            return;
        };
        line.push_back_reserved(Kept {
            number: *next,
            caller,
            has_begun: false,
            until,
        });
        *next += 1;
    }
}

/// Looks at each in the line once, in their order. Who is served goes behind those who are to be
/// served already.
pub(crate) fn look_at_all<E: Entrance>(
    entrance: &mut E,
    line: &mut VecDeque<Kept<E::Caller>>,
    ready: &mut VecDeque<Kept<E::Caller>>,
    now: Duration,
    patience: Duration,
)
    requires line { deque_len line.old ≤ deque_capacity line.old }
    requires ready { deque_len line.old + deque_len ready.old ≤ deque_capacity ready.old }
    ensures swept { IsSwept now patience line.old.items line.new.items ready.old.items
        ready.new.items (E.seen entrance.old).heard (E.seen entrance.new).heard }
    ensures same { E.seen entrance.new
        ≡ record (E.seen entrance.old) { heard = (E.seen entrance.new).heard } }
    ensures bound { deque_len line.new + deque_len ready.new
        ≤ deque_len line.old + deque_len ready.old }
    ensures capacity { (deque_capacity line.new ≡ deque_capacity line.old)
        × (deque_capacity ready.new ≡ deque_capacity ready.old) }
{
    for _kept in 0..line.len() {
        if let Some(mut kept) = line.pop_front() {
            match look_at(entrance, &mut kept, now, patience) {
                Verdict::Waits => line.push_back_reserved(kept),
                Verdict::Served => ready.push_back_reserved(kept),
                Verdict::Closed => {}
            }
        }
    }
}

// Looks at one, and returns what becomes of it.
fn look_at<E: Entrance>(
    entrance: &mut E,
    kept: &mut Kept<E::Caller>,
    now: Duration,
    patience: Duration,
) -> Verdict
    ensures looked { IsLookedAt now patience kept.old kept.new (E.seen entrance.old).heard
        (E.seen entrance.new).heard result }
    ensures same { E.seen entrance.new
        ≡ record (E.seen entrance.old) { heard = (E.seen entrance.new).heard } }
{
    let heard = entrance.look(&mut kept.caller);
    kept.note(heard, now, patience)
}
