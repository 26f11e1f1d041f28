//! What a desk asks for at once. Each law is the contract of a function that does nothing.
ghost use Rattle.std.specs.Prelude.{ℕ, ◌⊎◌};
ghost use Rattle.room_types.specs.declared.asks.Moves.{Moves};
ghost use Rattle.room_model.specs.Moves.{AreMade, AreRefused};
ghost use Rattle.room_model.specs.Room.{Room};

/// Moves come to what their asks come to, one after another at that moment: to the room after them
/// and an answer that is made of theirs. Where one is refused, the first refusal is the answer, and
/// the room stays as it was.
pub fn moves_are_their_asks()
    ensures { (d : ℕ) (ms : Moves) (at : ℕ) (r : Room) →
        AreMade d ms at r ⊎ AreRefused d ms at r }
{}
