//! Rows of nearness: a nearness is its own key, so that they are a set in order.
ghost use Rattle.std.specs.Prelude.{true};
ghost use Rattle.room_alloc.specs.Nearness.{whole};
ghost use Rattle.room_alloc.specs.NearnessLemmas.{exact_nearness};

use crate::nearness::Nearness;
use room_place::plans::DivisionNumber;
use room_types::rows::Row;

impl Row for Nearness {
    type Key = Nearness;

    ghost key_of = { whole };

    ghost owned = { λ d n. true };

    ghost exact = { exact_nearness };

    fn key(&self) -> Nearness {
        *self
    }

    fn owned_by(&self, _division: DivisionNumber) -> bool {
        true
    }
}
