//! What changes nothing: a refusal, a question, and a message that is sent again.
ghost use Rattle.std.specs.Prelude.{◌≡◌, ◌≢◌, ℕ, List, Err, IfErr, is_ok, true};
ghost use Rattle.room_types.specs.Texts.{Callsign};
ghost use Rattle.room_types.specs.declared.asks.Ask.TheVariants.{Call, Report};
ghost use Rattle.room_types.specs.declared.asks.CallForm.{CallForm};
ghost use Rattle.room_types.specs.declared.asks.Event.{Event};
ghost use Rattle.room_types.specs.declared.asks.Press.{Press};
ghost use Rattle.room_types.specs.declared.refusal_statuses.Refusal.{Refusal};
ghost use Rattle.room_types.specs.declared.refusal_statuses.Refusal.TheVariants.{NumberReused};
ghost use Rattle.room_types.specs.declared.refusal_statuses.Refusal.TheVariants.{OutsideArea};
ghost use Rattle.room_types.specs.declared.refusal_statuses.Refusal.TheVariants.{SerialReused};
ghost use Rattle.room_model.specs.Calls.{outside_again};
ghost use Rattle.room_model.specs.Events.{OnlyAnswers, by_crew, by_position};
ghost use Rattle.room_model.specs.Queries.{kept_call};
ghost use Rattle.room_model.specs.Room.{Room, IsInOrder};
ghost use Rattle.room_model.specs.Run.{room_run};
ghost use Rattle.room_model.specs.Step.{IsAddressed, answer_to, decided, is_question, room_after};

/// A refused event leaves the room as it was.
pub fn a_refusal_changes_nothing()
    ensures { (e : Event) (r : Room) (why : Refusal) → decided e r ≡ Err why → room_after e r ≡ r }
{}

/// A question leaves the room as it is.
pub fn a_question_changes_nothing()
    ensures { (e : Event) (r : Room) → is_question e.ask ≡ true → room_after e r ≡ r }
{}

/// A report that was accepted and is sent again changes nothing and gets its first answer, whatever
/// happened in between. It has its number, button, order and place again.
pub fn a_repeated_report_acts_once()
    ensures { (c : Callsign) (p : Press) (at later : ℕ) (r : Room) (es : List Event) →
        IsInOrder r → is_ok (answer_to (by_crew c (Report p) at) r) ≡ true →
        OnlyAnswers (by_crew c (Report p) later)
        (room_run es (room_after (by_crew c (Report p) at) r))
        (answer_to (by_crew c (Report p) at) r) }
{}

/// A call that was accepted and is sent again changes nothing and gets its first answer, whatever
/// happened in between. It is of its position, and has its serial, place, class, needs and note
/// again.
pub fn a_repeated_call_acts_once()
    ensures { (p : ℕ) (f : CallForm) (at later : ℕ) (r : Room) (es : List Event) →
        IsInOrder r → is_ok (answer_to (by_position p (Call f) at) r) ≡ true →
        OnlyAnswers (by_position p (Call f) later)
        (room_run es (room_after (by_position p (Call f) at) r))
        (answer_to (by_position p (Call f) at) r) }
{}

/// The number of an accepted report, and the serial of such a call, are refused for any other
/// report or call, which changes nothing, whatever happened in between.
pub fn a_used_number_is_refused()
    ensures report { (c : Callsign) (p q : Press) (at later : ℕ) (r : Room) (es : List Event) →
        IsInOrder r → is_ok (answer_to (by_crew c (Report p) at) r) ≡ true → q.number ≡ p.number →
        q ≢ p →
        OnlyAnswers (by_crew c (Report q) later)
        (room_run es (room_after (by_crew c (Report p) at) r))
        (Err NumberReused) }
    ensures call { (p : ℕ) (f g : CallForm) (at later : ℕ) (r : Room) (es : List Event) →
        IsInOrder r → is_ok (answer_to (by_position p (Call f) at) r) ≡ true →
        g.serial ≡ f.serial → g ≢ f →
        OnlyAnswers (by_position p (Call g) later)
        (room_run es (room_after (by_position p (Call f) at) r))
        (Err SerialReused) }
{}

/// A report or a call that was refused because its number or serial was another's is refused so
/// again, and changes nothing, whatever happened in between.
pub fn a_used_number_stays_refused()
    ensures report { (c : Callsign) (p : Press) (at later : ℕ) (r : Room) (es : List Event) →
        IsInOrder r → answer_to (by_crew c (Report p) at) r ≡ Err NumberReused →
        OnlyAnswers (by_crew c (Report p) later)
        (room_run es (room_after (by_crew c (Report p) at) r))
        (Err NumberReused) }
    ensures call { (p : ℕ) (f : CallForm) (at later : ℕ) (r : Room) (es : List Event) →
        IsInOrder r → answer_to (by_position p (Call f) at) r ≡ Err SerialReused →
        OnlyAnswers (by_position p (Call f) later)
        (room_run es (room_after (by_position p (Call f) at) r))
        (Err SerialReused) }
{}

/// A report of a vehicle that is there, sent again, gets its first answer, accepted or refused, and
/// changes nothing, whatever happened in between. It is refused only for its number.
pub fn a_repeated_report_gets_its_first_answer()
    ensures refused { (c : Callsign) (p : Press) (at : ℕ) (r : Room) →
        IsAddressed (by_crew c (Report p) at) r →
        IfErr (answer_to (by_crew c (Report p) at) r) (λ why. why ≡ NumberReused) }
    ensures again { (c : Callsign) (p : Press) (at later : ℕ) (r : Room) (es : List Event) →
        IsInOrder r → IsAddressed (by_crew c (Report p) at) r →
        OnlyAnswers (by_crew c (Report p) later)
        (room_run es (room_after (by_crew c (Report p) at) r))
        (answer_to (by_crew c (Report p) at) r) }
{}

/// A call that was refused because its place is in no division is refused again, and changes
/// nothing, whatever happened in between: for its place, or for its serial where that was given to
/// another call meanwhile.
pub fn a_call_from_outside_stays_refused()
    ensures { (p : ℕ) (f : CallForm) (at later : ℕ) (r : Room) (es : List Event) →
        IsInOrder r → answer_to (by_position p (Call f) at) r ≡ Err OutsideArea →
        let now = room_run es (room_after (by_position p (Call f) at) r) in
        OnlyAnswers (by_position p (Call f) later) now
        (Err (outside_again (kept_call p f.serial now))) }
{}
