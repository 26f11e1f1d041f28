//! A crew is answered by its vehicle's rows, whichever division owns them, and where it asks for its
//! job by those of its incident too. Nothing else of the room counts.
ghost use Rattle.std.specs.Prelude.{◌≡◌, ℕ, None, Ok, Some};
ghost use Rattle.room_types.specs.Texts.{Callsign};
ghost use Rattle.room_types.specs.declared.answers.Answer.TheVariants.{Job as JobAnswer};
ghost use Rattle.room_types.specs.declared.answers.Job.{Job};
ghost use Rattle.room_types.specs.declared.asks.Ask.{Ask};
ghost use Rattle.room_types.specs.declared.asks.Ask.TheVariants.{Job as JobAsk, Last, Order};
ghost use Rattle.room_types.specs.declared.asks.Ask.TheVariants.{Report};
ghost use Rattle.room_types.specs.declared.asks.Press.{Press};
ghost use Rattle.room_types.specs.declared.asks.Who.TheVariants.{Crew};
ghost use Rattle.room_types.specs.declared.tables.Assignment.{Assignment};
ghost use Rattle.room_model.specs.Events.{by_crew};
ghost use Rattle.room_model.specs.CrewRows.{in_hand};
ghost use Rattle.room_model.specs.Queries.{assignment_at};
ghost use Rattle.room_model.specs.Room.{Room, IsInOrder};
ghost use Rattle.room_model.specs.RoomAgreements.{IsWellFormed};
ghost use Rattle.room_model.specs.Shares.{AgreeOn, mine};
ghost use Rattle.room_model.specs.Step.{answer_to, crew_asks, room_after};

/// What a crew asks, but for its job, is decided by its vehicle's rows. So are these rows
/// afterwards, whatever it asks.
pub fn vehicles_decide()
    ensures decision { (c : Callsign) (r : Room) (a : Ask) (at : ℕ) →
        IsInOrder r →
        crew_asks c a at (mine c r) ≡ crew_asks c a at r }
    ensures afterwards { (c : Callsign) (r : Room) (a : Ask) (at : ℕ) →
        IsInOrder r →
        mine c (room_after (by_crew c a at) r) ≡ mine c (room_after (by_crew c a at) (mine c r)) }
{}

/// In two rooms that agree on a vehicle's rows its crew gets equal answers at equal moments; where
/// it asks for its job, in two that agree on its incident and that incident's calls too. The
/// vehicle's rows stay equal, whatever it asks.
pub fn equal_vehicles_get_equal_answers()
    ensures answers { (c : Callsign) (r s : Room) (a : Ask) (at : ℕ) →
        IsInOrder r → IsInOrder s → AgreeOn (Crew c) a r s →
        answer_to (by_crew c a at) r ≡ answer_to (by_crew c a at) s }
    ensures rows { (c : Callsign) (r s : Room) (a : Ask) (at : ℕ) →
        IsInOrder r → IsInOrder s → mine c r ≡ mine c s →
        mine c (room_after (by_crew c a at) r) ≡ mine c (room_after (by_crew c a at) s) }
{}

/// Of a vehicle's reports a crew's ask reads only the one of the number that is sent.
pub fn rows_in_hand_decide()
    ensures report { (c : Callsign) (r : Room) (p : Press) (at : ℕ) →
        IsInOrder r →
        crew_asks c (Report p) at (in_hand c p.number r) ≡ crew_asks c (Report p) at r }
    ensures order { (c : Callsign) (r : Room) (n at : ℕ) →
        IsInOrder r →
        crew_asks c Order at (in_hand c n r) ≡ crew_asks c Order at r }
    ensures last { (c : Callsign) (r : Room) (n at : ℕ) →
        IsInOrder r →
        crew_asks c Last at (in_hand c n r) ≡ crew_asks c Last at r }
{}

/// A crew that has an order is told of its incident, which is there. One that has none is answered
/// as one that asks for its order.
pub fn a_job_is_of_the_order()
    ensures ordered { (c : Callsign) (a : Assignment) (r : Room) (at : ℕ) →
        IsWellFormed r → assignment_at c r ≡ Some a →
        (job : Job) × (answer_to (by_crew c JobAsk at) r ≡ Ok (JobAnswer job)) × (job.order ≡ a) }
    ensures unordered { (c : Callsign) (r : Room) (at : ℕ) →
        assignment_at c r ≡ None →
        answer_to (by_crew c JobAsk at) r ≡ answer_to (by_crew c Order at) r }
{}
