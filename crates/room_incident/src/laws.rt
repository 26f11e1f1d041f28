//! That a new call is its division's. The law is the contract of a function that does nothing.
ghost use Rattle.std.specs.Prelude.{◌≡◌, ℕ, None, Some};
ghost use Rattle.room_place.specs.Plans.{division_of};
ghost use Rattle.room_types.specs.declared.asks.NewCall.{NewCall};
ghost use Rattle.room_model.specs.Calls.{call_in, take_call};
ghost use Rattle.room_model.specs.Queries.{kept_call};
ghost use Rattle.room_model.specs.Room.{Room};

/// What a room decides of a call that it does not have is decided in the division of its place.
pub fn new_calls_are_taken_in_their_division()
    ensures { (d : ℕ) (new : NewCall) (r : Room) → kept_call new.position new.serial r ≡ None
        → division_of r.plan new.place ≡ Some d → take_call new r ≡ call_in d new r }
{}
