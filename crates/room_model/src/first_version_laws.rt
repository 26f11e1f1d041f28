//! A room that was kept before loans were offered goes on as a room of today in which nothing is
//! offered. Each law is the contract of a function that does nothing.
ghost use Rattle.std.specs.Prelude.{◌≡◌, ◌↔◌, ◌++◌, ℕ, List, [], Err, false, filter_map};
ghost use Rattle.room_types.specs.Texts.{Callsign};
ghost use Rattle.room_types.specs.declared.answers.Answer.TheVariants.{Offers as OffersAnswer};
ghost use Rattle.room_types.specs.declared.asks.Ask.TheVariants.{Accept, Decline, Offers, Withdraw};
ghost use Rattle.room_types.specs.declared.asks.Event.{Event};
ghost use Rattle.room_types.specs.declared.refusal_statuses.Refusal.TheVariants.{NoSuchOffer};
ghost use Rattle.room_model.specs.Crossing.{cross};
ghost use Rattle.room_model.specs.Decisions.{show, where_held};
ghost use Rattle.room_model.specs.Events.{by_desk};
ghost use Rattle.room_model.specs.UnofferedRooms.{IsUnoffered, NobodyAsksToLend, NoneIsReserved};
ghost use Rattle.room_model.specs.UnofferedRooms.{OffersAgree, speaks_of_offers, without_offers};
ghost use Rattle.room_model.specs.Queries.{held, lent};
ghost use Rattle.room_model.specs.Queue.{entries, unanswered};
ghost use Rattle.room_model.specs.Room.{IsInOrder, Room};
ghost use Rattle.room_model.specs.Run.{room_run};
ghost use Rattle.room_model.specs.Shares.{mine, own};
ghost use Rattle.room_model.specs.Step.{decided, room_after};

/// An event that doesn't speak of offers is decided by the rows that a room had before there were
/// any. They change alike, and each division is handed the same. The offers are rows beside the
/// others in a share, and in the rows of a vehicle.
pub fn the_rest_needs_no_offers()
    ensures decision { (e : Event) (r : Room) →
        speaks_of_offers e.ask ≡ false →
        decided e (without_offers r) ≡ decided e r }
    ensures afterwards { (e : Event) (r : Room) →
        speaks_of_offers e.ask ≡ false →
        room_after e (without_offers r) ≡ without_offers (room_after e r) }
    ensures crossing { (d : ℕ) (e : Event) (r : Room) →
        speaks_of_offers e.ask ≡ false →
        cross d (without_offers r) e ≡ cross d r e }
    ensures share { (d : ℕ) (r : Room) → own d (without_offers r) ≡ without_offers (own d r) }
    ensures vehicle { (c : Callsign) (r : Room) →
        mine c (without_offers r) ≡ without_offers (mine c r) }
    // The queue shows the same, and then of the offers that nobody answers.
    ensures queue { (d at : ℕ) (r : Room) →
        entries d at r
        ≡ entries d at (without_offers r) ++ filter_map (unanswered d at) r.offers }
{}

/// Where nothing is offered there is nothing to answer or to show.
pub fn no_offer_is_found()
    ensures accept { (d at : ℕ) (c : Callsign) (r : Room) →
        IsUnoffered r →
        decided (by_desk d (Accept c) at) r ≡ Err NoSuchOffer }
    ensures decline { (d at : ℕ) (c : Callsign) (r : Room) →
        IsUnoffered r →
        decided (by_desk d (Decline c) at) r ≡ Err NoSuchOffer }
    ensures withdraw { (d at : ℕ) (c : Callsign) (r : Room) →
        IsUnoffered r →
        decided (by_desk d (Withdraw c) at) r
        ≡ where_held (held d c r) (lent d c r) (λ v. Err NoSuchOffer) }
    ensures shown { (d at : ℕ) (r : Room) →
        IsUnoffered r →
        decided (by_desk d Offers at) r ≡ show (OffersAnswer []) }
{}

/// Only a desk that lends makes an offer. As long as none does, whatever else is asked, a room in
/// which nothing is offered stays one.
pub fn nothing_is_offered_by_itself()
    ensures { (es : List Event) (r : Room) →
        IsUnoffered r → NobodyAsksToLend es →
        IsUnoffered (room_run es r) }
{}

/// Only one condition of well-formedness mentions offers. Where there are none it
/// says that no vehicle is at status 7, the status that came with offers; so an old room is
/// well-formed as it was.
pub fn unoffered_rooms_agree()
    ensures { (r : Room) →
        IsInOrder r → IsUnoffered r →
        (OffersAgree r ↔ NoneIsReserved r) }
{}
