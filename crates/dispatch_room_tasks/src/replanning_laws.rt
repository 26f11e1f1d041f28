//! What another plan makes of a room. The contracts are the laws; the functions do nothing.
ghost use Rattle.std.specs.Prelude.{◌≡◌, ℕ, List, None, Some};
ghost use Rattle.room_place.specs.Plans.{Layout};
ghost use Rattle.room_types.specs.declared.fleet.Terminal.{Terminal};
ghost use Rattle.room_model.specs.FleetRows.{AreTerminals};
ghost use Rattle.room_model.specs.Room.{Room};
ghost use Rattle.room_model.specs.RoomAgreements.{IsWellFormed};
ghost use Rattle.dispatch_room_tasks.specs.ReplannedRoom.{first_lacking, replanned};

/// Where the new plan lacks no division of the old one, the room stays well-formed, and the same
/// terminals fit it.
pub fn replanned_is_well_formed()
    ensures formed { (plan : Layout) (room : Room) → IsWellFormed room
        → first_lacking room.plan plan.areas ≡ None → IsWellFormed (replanned plan.areas room) }
    ensures fits { (plan : Layout) (room : Room) (ts : List Terminal) → AreTerminals room ts
        → first_lacking room.plan plan.areas ≡ None
        → AreTerminals (replanned plan.areas room) ts }
{}

/// Where it lacks one, no room that has its rows and the new plan is well-formed.
pub fn no_room_of_a_lacking_plan()
    ensures { (old new : Room) (d : ℕ) → IsWellFormed old → new.divisions ≡ old.divisions
        → first_lacking old.plan new.plan ≡ Some d → ¬ IsWellFormed new }
{}
