//! A division's desk is answered by its own rows and what it is handed: nothing else of the room
//! reaches it.
ghost use Rattle.std.specs.List.{list_all};
ghost use Rattle.std.specs.Prelude.{◌≡◌, ℕ, List, [], ◌∷◌, None, Some, cond, true};
ghost use Rattle.room_place.specs.Plans.{division_of};
ghost use Rattle.room_types.specs.Texts.{Callsign};
ghost use Rattle.room_types.specs.declared.asks.Ask.{Ask};
ghost use Rattle.room_types.specs.declared.asks.Ask.TheVariants.{Accept, Call, Decline, Report};
ghost use Rattle.room_types.specs.declared.asks.CallForm.{CallForm};
ghost use Rattle.room_types.specs.declared.asks.Event.{Event};
ghost use Rattle.room_types.specs.declared.asks.Press.{Press};
ghost use Rattle.room_types.specs.declared.changes.Change.{Change};
ghost use Rattle.room_types.specs.declared.tables.Vehicle.{Vehicle};
ghost use Rattle.room_model.specs.Isolation.{answers_by, share_answers, share_by, share_run};
ghost use Rattle.room_model.specs.Crossing.{cross, crossings};
ghost use Rattle.room_model.specs.Events.{AreAddressed, AreLocal, IsUnlent, NobodyLends, by_crew};
ghost use Rattle.room_model.specs.Events.{by_desk, by_position, is_everyday, received};
ghost use Rattle.room_model.specs.Queries.{kept_call, kept_report, offer_at, vehicle_at};
ghost use Rattle.room_model.specs.Room.{Room, IsInOrder, apply};
ghost use Rattle.room_model.specs.Run.{desk_answers, is_desk, room_run};
ghost use Rattle.room_model.specs.Shares.{AgreeOn, ArePlain, own};
ghost use Rattle.room_model.specs.Step.{answer_to, decided, room_after, single_asks};
ghost use Rattle.room_model.specs.RoomAgreements.{IsWellFormed};
ghost use Rattle.room_model.specs.WorkingRows.{working};

/// Only what a division is handed changes its share. Its desk gets the answers to its own requests,
/// as the share gives them.
pub fn desks_are_apart()
    ensures share { (d : ℕ) (r : Room) (e : Event) →
        IsWellFormed r →
        own d (room_after e r) ≡ share_by d (own d r) (cross d r e) }
    ensures answered { (d : ℕ) (r : Room) (e : Event) →
        IsWellFormed r →
        answers_by (own d r) (cross d r e) ≡ cond (is_desk d e.who) (answer_to e r ∷ []) [] }
{}

/// Over any list of events, the last share and all answers of the desk follow from the share and
/// what the division is handed.
pub fn desks_stay_apart()
    ensures share { (d : ℕ) (es : List Event) (r : Room) →
        IsWellFormed r → AreAddressed es r →
        own d (room_run es r) ≡ share_run d (crossings d es r) (own d r) }
    ensures answered { (d : ℕ) (es : List Event) (r : Room) →
        IsWellFormed r → AreAddressed es r →
        desk_answers d es r ≡ share_answers d (crossings d es r) (own d r) }
{}

/// Where a division's shares are equal in two rooms, and two lists of events hand it the same, its
/// desk gets the same answers, and its shares stay equal.
pub fn equal_shares_get_equal_answers()
    ensures answers { (d : ℕ) (es fs : List Event) (r s : Room) →
        IsWellFormed r → IsWellFormed s → AreAddressed es r → AreAddressed fs s →
        own d r ≡ own d s → received (crossings d es r) ≡ received (crossings d fs s) →
        desk_answers d es r ≡ desk_answers d fs s }
    ensures shares { (d : ℕ) (es fs : List Event) (r s : Room) →
        IsWellFormed r → IsWellFormed s → AreAddressed es r → AreAddressed fs s →
        own d r ≡ own d s → received (crossings d es r) ≡ received (crossings d fs s) →
        own d (room_run es r) ≡ own d (room_run fs s) }
{}

/// Without offers and loans a division is handed only its own requests, calls placed in it and
/// reports of vehicles that it holds. So it is while nobody offers, answers an offer, recalls or
/// gives back, or only so that it is refused, and no loan ends.
pub fn without_loans_divisions_share_nothing()
    ensures { (d : ℕ) (es : List Event) (r : Room) →
        AreLocal es r →
        list_all is_everyday (crossings d es r) ≡ true }
{}

/// A room in which nothing is lent or offered stays so, and nothing crosses in it, while nobody
/// offers a vehicle but so that it is refused, whatever else is asked.
pub fn where_nobody_lends_nothing_crosses()
    ensures stays { (es : List Event) (r : Room) →
        IsWellFormed r → AreAddressed es r → IsUnlent r → NobodyLends es r →
        IsUnlent (room_run es r) }
    ensures crosses { (d : ℕ) (es : List Event) (r : Room) →
        IsWellFormed r → AreAddressed es r → IsUnlent r → NobodyLends es r →
        list_all is_everyday (crossings d es r) ≡ true }
{}

/// A desk's request is decided by its division's rows. What is decided in one step, as each of
/// several moves is, is decided by the few of them that it reads.
pub fn desks_decide_by_their_rows()
    ensures share { (d : ℕ) (r : Room) (a : Ask) (at : ℕ) →
        IsInOrder r →
        decided (by_desk d a at) (own d r) ≡ decided (by_desk d a at) r }
    ensures working { (d : ℕ) (r : Room) (a : Ask) (at : ℕ) →
        IsWellFormed r →
        single_asks d a at (working d a at r) ≡ single_asks d a at r }
{}

/// An event is decided by the rows of who asks. In two rooms that agree on them it is decided
/// alike.
pub fn an_event_is_decided_by_its_rows()
    ensures { (e : Event) (r s : Room) →
        IsWellFormed r → IsWellFormed s → AgreeOn e.who e.ask r s →
        decided e r ≡ decided e s }
{}

/// A call that is not kept is decided by the rows of the division of its place, and by the few of
/// them that it reads.
pub fn new_calls_are_decided_by_their_division()
    ensures share { (d p : ℕ) (f : CallForm) (at : ℕ) (r : Room) →
        IsWellFormed r → kept_call p f.serial r ≡ None → division_of r.plan f.place ≡ Some d →
        decided (by_position p (Call f) at) (own d r) ≡ decided (by_position p (Call f) at) r }
    ensures working { (d p : ℕ) (f : CallForm) (at : ℕ) (r : Room) →
        IsWellFormed r → kept_call p f.serial r ≡ None → division_of r.plan f.place ≡ Some d →
        decided (by_position p (Call f) at) (working d (Call f) at r)
        ≡ decided (by_position p (Call f) at) r }
{}

/// A report that is not kept is decided by the rows of the division that holds the vehicle.
pub fn new_reports_are_decided_by_the_holder()
    ensures { (c : Callsign) (v : Vehicle) (p : Press) (at : ℕ) (r : Room) →
        IsWellFormed r → kept_report c p.number r ≡ None → vehicle_at c r ≡ Some v →
        decided (by_crew c (Report p) at) (own v.holder r) ≡ decided (by_crew c (Report p) at) r }
{}

/// An offer is accepted or declined by itself. Nothing else that the lender has counts.
pub fn offers_are_answered_by_themselves()
    ensures accept { (d : ℕ) (c : Callsign) (at : ℕ) (r s : Room) →
        offer_at c r ≡ offer_at c s →
        decided (by_desk d (Accept c) at) r ≡ decided (by_desk d (Accept c) at) s }
    ensures decline { (d : ℕ) (c : Callsign) (at : ℕ) (r s : Room) →
        offer_at c r ≡ offer_at c s →
        decided (by_desk d (Decline c) at) r ≡ decided (by_desk d (Decline c) at) s }
{}

/// A share and the changes decide what the share becomes.
pub fn shares_follow()
    ensures { (d : ℕ) (r : Room) (changes : List Change) →
        IsInOrder r → ArePlain changes →
        own d (apply r changes) ≡ own d (apply (own d r) changes) }
{}
