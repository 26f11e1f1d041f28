//! A room that is renewed. Each law is the contract of a function that does nothing.
ghost use Rattle.std.specs.Prelude.{◌≡◌, ℕ, ℤ, List, [], ◌∷◌, Err, false, filter, map, not, true};
ghost use Rattle.room_place.specs.Plans.{division_of};
ghost use Rattle.room_types.specs.Texts.{Callsign};
ghost use Rattle.room_types.specs.declared.answers.Answer.TheVariants as answer;
ghost use Rattle.room_types.specs.declared.asks.Ask.{Ask};
ghost use Rattle.room_types.specs.declared.asks.Ask.TheVariants.{Call, ClassTimes, Closed, Report};
ghost use Rattle.room_types.specs.declared.asks.Ask.TheVariants.{Reports, Times};
ghost use Rattle.room_types.specs.declared.asks.CallForm.{CallForm};
ghost use Rattle.room_types.specs.declared.asks.Event.{Event};
ghost use Rattle.room_types.specs.declared.asks.Press.{Press};
ghost use Rattle.room_types.specs.declared.asks.Search.{Search};
ghost use Rattle.room_types.specs.declared.fleet.Terminal.{Terminal};
ghost use Rattle.room_types.specs.declared.refusal_statuses.Refusal.TheVariants.{NoSuchIncident};
ghost use Rattle.room_model.specs.Calls.{call_somewhere, new_call};
ghost use Rattle.room_model.specs.ClosedIncidents.{from_number, incidents_found, page_of};
ghost use Rattle.room_model.specs.DayTimes.{class_line, times_line, times_of};
ghost use Rattle.room_model.specs.Decisions.{show};
ghost use Rattle.room_model.specs.FleetRows.{AreTerminals};
ghost use Rattle.room_model.specs.Events.{AreAddressed, by_crew, by_desk, by_position};
ghost use Rattle.room_model.specs.Queries.{incidents_opened, reports_of};
ghost use Rattle.room_model.specs.Room.{IsInOrder, Room, apply};
ghost use Rattle.room_model.specs.Run.{room_run};
ghost use Rattle.room_model.specs.Step.{answer_to, decided, room_after};
ghost use Rattle.room_model.specs.RoomAgreements.{IsWellFormed};
ghost use Rattle.dispatch_room_archive.specs.Successor.{Behind, left_behind, renewed};
ghost use Rattle.dispatch_room_archive.specs.Composition.{IsBare, puts};
ghost use Rattle.dispatch_room_archive.specs.Continuation.{AreAnsweredAlike, IsSuccessor};
ghost use Rattle.dispatch_room_archive.specs.Continuation.{IsTakenLate, NoneRepeatsThePast};
ghost use Rattle.dispatch_room_archive.specs.Continuation.{asks_of_the_past, names_behind};
ghost use Rattle.dispatch_room_archive.specs.Continuation.{repeats_the_past};

/// A well-formed room that is renewed is well-formed, and its terminals fit the new room.
pub fn a_renewed_room_is_well_formed()
    ensures room { (since : ℕ) (r : Room) → IsWellFormed r → IsWellFormed (renewed since r) }
    ensures terminals { (since : ℕ) (r : Room) (ts : List Terminal) →
        AreTerminals r ts →
        AreTerminals (renewed since r) ts }
{}

/// What is left behind has no part in what goes on.
pub fn what_is_left_is_over()
    ensures { (since : ℕ) (r : Room) →
        IsWellFormed r →
        IsSuccessor since (left_behind since r) r (renewed since r) }
{}

/// An event gets the same answer in the new room as in the old one. After it, the new room still
/// has what the old one has, but for the same rows that stayed behind.
pub fn a_successor_goes_on_alike()
    // Unless a desk asks of the past, or a call or a report that stayed behind is sent again.
    ensures answer { (since : ℕ) (b : Behind) (old new : Room) (e : Event) →
        IsWellFormed old → IsSuccessor since b old new →
        asks_of_the_past since b old e ≡ false → repeats_the_past b e ≡ false →
        answer_to e new ≡ answer_to e old }
    // Even where a desk asks of the past, the rooms go on alike.
    ensures afterwards { (since : ℕ) (b : Behind) (old new : Room) (e : Event) →
        IsWellFormed old → IsSuccessor since b old new →
        repeats_the_past b e ≡ false →
        IsSuccessor since b (room_after e old) (room_after e new) }
{}

/// Both rooms go on alike by any list of events in which nothing that stayed behind is sent again.
pub fn rooms_go_on_alike()
    ensures renewed { (since : ℕ) (r : Room) (es : List Event) →
        IsWellFormed r → AreAddressed es r → NoneRepeatsThePast (left_behind since r) es →
        AreAnsweredAlike since (left_behind since r) es r (renewed since r)
        × IsSuccessor since (left_behind since r) (room_run es r) (room_run es (renewed since r)) }
    ensures successors { (since : ℕ) (b : Behind) (old new : Room) (es : List Event) →
        IsWellFormed old → IsSuccessor since b old new →
        AreAddressed es old → NoneRepeatsThePast b es →
        AreAnsweredAlike since b es old new
        × IsSuccessor since b (room_run es old) (room_run es new) }
{}

/// What a desk asks of the past changes neither room, and so do moves of which one names an
/// incident that stayed behind. Such an incident is not found in the new room, by its number or
/// among those of a day that are over; the times are those of the incidents that did not stay
/// behind, also by class, and a vehicle's reports those that did not.
pub fn the_past_is_not_found()
    ensures incident { (since : ℕ) (b : Behind) (old new : Room) (d : ℕ) (a : Ask) (at : ℕ) →
        IsWellFormed old → IsSuccessor since b old new →
        names_behind b d a ≡ true →
        answer_to (by_desk d a at) new ≡ Err NoSuchIncident }
    ensures times { (since : ℕ) (b : Behind) (old new : Room) (d : ℕ) (from to : ℤ) (at : ℕ) →
        IsSuccessor since b old new →
        decided (by_desk d (Times from to) at) new
        ≡ show (answer.Times (times_of from to (map times_line
        (filter (λ i. not (b.incident i.division i.number)) (incidents_opened d from to old))))) }
    ensures classes { (since : ℕ) (b : Behind) (old new : Room) (d : ℕ) (from to : ℤ) (at : ℕ) →
        IsSuccessor since b old new →
        decided (by_desk d (ClassTimes from to) at) new
        ≡ show (answer.ClassTimes (record {
          from = from;
          to = to;
          lines = map (class_line
              (filter (λ i. not (b.incident i.division i.number)) (incidents_opened d from to old)))
              (1 ∷ 2 ∷ 3 ∷ []);
        })) }
    ensures closed { (since : ℕ) (b : Behind) (old new : Room) (d : ℕ) (from to : ℤ) (x : Search)
        (at : ℕ) →
        IsSuccessor since b old new →
        decided (by_desk d (Closed from to x) at) new
        ≡ show (answer.Closed (page_of (from_number x.first
        (filter (λ i. not (b.incident i.division i.number))
        (incidents_found d from to x.sought old))))) }
    ensures reports { (since : ℕ) (b : Behind) (old new : Room) (d : ℕ) (c : Callsign) (at : ℕ) →
        IsSuccessor since b old new →
        decided (by_desk d (Reports c) at) new
        ≡ show (answer.Reports (filter (λ x. not (b.report x.callsign x.number))
        (reports_of d c old))) }
    ensures old { (since : ℕ) (b : Behind) (old new : Room) (e : Event) →
        IsSuccessor since b old new →
        asks_of_the_past since b old e ≡ true →
        room_after e old ≡ old }
    ensures new { (since : ℕ) (b : Behind) (old new : Room) (e : Event) →
        IsWellFormed old → IsSuccessor since b old new →
        asks_of_the_past since b old e ≡ true →
        room_after e new ≡ new }
{}

/// What stayed behind and is sent again changes nothing in the old room. In the new room such a
/// call is decided as one that was never sent, and such a report is late, so it acts on nothing.
pub fn the_past_may_be_sent_again()
    ensures old { (since : ℕ) (b : Behind) (old new : Room) (e : Event) →
        IsSuccessor since b old new →
        repeats_the_past b e ≡ true →
        room_after e old ≡ old }
    ensures call { (since : ℕ) (b : Behind) (old new : Room) (p : ℕ) (f : CallForm) (at : ℕ) →
        IsWellFormed old → IsSuccessor since b old new →
        repeats_the_past b (by_position p (Call f) at) ≡ true →
        decided (by_position p (Call f) at) new
        ≡ call_somewhere (division_of new.plan f.place) (new_call p f at) new }
    ensures report { (since : ℕ) (b : Behind) (old new : Room) (c : Callsign) (p : Press)
        (at : ℕ) →
        IsWellFormed old → IsSuccessor since b old new →
        repeats_the_past b (by_crew c (Report p) at) ≡ true →
        IsTakenLate c p at new }
{}

/// A room is what its rows make, put one after another, of a room with only its plan and the rows
/// of its divisions.
pub fn a_room_is_made_of_its_rows()
    ensures { (s r : Room) → IsInOrder s → IsInOrder r → IsBare s r → apply s (puts r) ≡ r }
{}
