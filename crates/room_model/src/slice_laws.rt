//! What holds of the rows that a request is decided on. Each law is the contract of a function that
//! does nothing.
ghost use Rattle.std.specs.Prelude.{◌≡◌, ◌↔◌, ℕ, List, Some, true};
ghost use Rattle.room_place.specs.declared.plans.Area.{Area};
ghost use Rattle.room_types.specs.Crews.{IsCrew};
ghost use Rattle.room_types.specs.KeyedRows.{IsKeyed};
ghost use Rattle.room_types.specs.Keys.{numbered_cmp, turn_key};
ghost use Rattle.room_types.specs.Slices.{IsShare, is_share, vehicle_at, assignment_at};
ghost use Rattle.room_types.specs.Slices.{open_turn as open_turn_of};
ghost use Rattle.room_types.specs.Texts.{Callsign};
ghost use Rattle.room_types.specs.declared.asks.Ask.{Ask};
ghost use Rattle.room_types.specs.declared.crews.CrewRows.{CrewRows};
ghost use Rattle.room_types.specs.declared.slices.DivisionRows.{DivisionRows};
ghost use Rattle.room_types.specs.declared.tables.Vehicle.{Vehicle};
ghost use Rattle.room_model.specs.Queries.{held, assignment_of, open_turn, all_held, points_of};
ghost use Rattle.room_model.specs.Queries.{loans_of, offers_of};
ghost use Rattle.room_model.specs.Room.{IsInOrder, Room};
ghost use Rattle.room_model.specs.Shares.{own, mine};
ghost use Rattle.room_model.specs.RoomSlices.{room_of, AreCrewRows};
ghost use Rattle.room_model.specs.RoomAgreements.{IsWellFormed};
ghost use Rattle.room_model.specs.WorkingRows.{working};

/// A division's share of a well-formed room, and the rows of it that an ask reads, are a slice's.
pub fn shares_are_slices()
    ensures share { (d : ℕ) (r : Room) (s : DivisionRows) →
        IsWellFormed r → room_of r.plan s ≡ own d r →
        IsShare d s }
    ensures working { (d : ℕ) (a : Ask) (at : ℕ) (r : Room) (s : DivisionRows) →
        IsWellFormed r → room_of r.plan s ≡ working d a at r →
        IsShare d s }
{}

/// What a well-formed room has of a vehicle is a crew's slice.
pub fn vehicles_are_slices()
    ensures crew { (c : Callsign) (r : Room) (x : CrewRows) →
        IsWellFormed r → AreCrewRows c r x →
        IsCrew x }
    // What the vehicle has of its own in the room is as much.
    ensures mine { (c : Callsign) (r : Room) (x : CrewRows) →
        IsInOrder r →
        (AreCrewRows c (mine c r) x ↔ AreCrewRows c r x) }
{}

/// What the machine asks of a slice's rows is found at their keys.
pub fn slices_answer()
    ensures held { (d : ℕ) (plan : List Area) (s : DivisionRows) (c : Callsign) →
        is_share d s ≡ true →
        held d c (room_of plan s) ≡ vehicle_at c s }
    ensures assignment { (d : ℕ) (plan : List Area) (s : DivisionRows) (c : Callsign) →
        is_share d s ≡ true →
        assignment_of d c (room_of plan s) ≡ assignment_at c s }
    ensures open_turn { (d : ℕ) (plan : List Area) (s : DivisionRows) (c : Callsign) (v : Vehicle) →
        is_share d s ≡ true → IsKeyed numbered_cmp turn_key s.turns → vehicle_at c s ≡ Some v →
        open_turn d c (room_of plan s) ≡ open_turn_of v s }
    // All rows are the division's.
    ensures vehicles { (d : ℕ) (plan : List Area) (s : DivisionRows) →
        is_share d s ≡ true →
        all_held d (room_of plan s) ≡ s.vehicles }
    ensures points { (d : ℕ) (plan : List Area) (s : DivisionRows) →
        is_share d s ≡ true →
        points_of d (room_of plan s) ≡ s.points }
    ensures loans { (d : ℕ) (plan : List Area) (s : DivisionRows) →
        is_share d s ≡ true →
        loans_of d (room_of plan s) ≡ s.loans }
    ensures offers { (d : ℕ) (plan : List Area) (s : DivisionRows) →
        is_share d s ≡ true →
        offers_of d (room_of plan s) ≡ s.offers }
{}
