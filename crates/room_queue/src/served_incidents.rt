//! The incidents that some vehicle serves, by number, so that the turns are gone over once.
ghost use Rattle.std.specs.Prelude.{◌≡◌, true, IfErr, IfOk};
ghost use Rattle.room_types.specs.KeyLemmas.{exact_number};
ghost use Rattle.room_types.specs.declared.refusal_statuses.Refusal.TheVariants.{Memory};
ghost use Rattle.room_queue.specs.ServedIncidents.{AreServed, number_of, serves};

use room_place::plans::DivisionNumber;
use room_types::numbers::Number;
use room_types::refusal_statuses::Refusal;
use room_types::rows::{Row, Rows};
use room_types::tables::Turn;
use std::alloc::Global;

/// An incident of a division that some vehicle serves.
#[derive(Clone, Copy)]
pub struct Served {
    pub incident: Number,
}

impl Row for Served {
    type Key = Number;

    ghost key_of = { number_of };

    ghost owned = { λ d s. true };

    ghost exact = { exact_number };

    fn key(&self) -> Number {
        self.incident
    }

    fn owned_by(&self, _division: DivisionNumber) -> bool {
        true
    }
}

/// The division's incidents that some vehicle serves. The one refusal is `Memory`.
pub fn gather(
    alloc: Global,
    turns: &Rows<Turn>,
    division: DivisionNumber,
) -> Result<Rows<Served>, Refusal>
    ensures ok { IfOk result (λ served. AreServed division turns.now served) }
    ensures memory { IfErr result (λ refusal. refusal ≡ Memory) }
{
    let mut served = Rows::new(alloc);
    for turn in turns.as_slice() {
        if serves(turn, division) {
            served.put(Served {
                incident: turn.incident,
            })?;
        }
    }
    Ok(served)
}

// Whether the turn counts for what its incident got: it is open, or got as far as the scene.
fn serves(turn: &Turn, division: DivisionNumber) -> bool
    ensures { result ≡ serves division turn.now }
{
    turn.division == division
        && (turn.ended.is_none()
            || turn.scene.is_some()
            || turn.left.is_some()
            || turn.hospital.is_some())
}
