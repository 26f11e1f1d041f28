//! What holds of a room over any deeds: messages, fleets' rows, changes of terminals and of plans, in
//! any order. The contracts are the laws; the functions do nothing.
ghost use Rattle.std.specs.Prelude.{◌≡◌, ◌⊎◌, ℕ, List, Err, is_ok, map, Option, Some, true};
ghost use Rattle.room_types.specs.Texts.{Callsign};
ghost use Rattle.room_types.specs.declared.asks.Ask.TheVariants.{Call, Report};
ghost use Rattle.room_types.specs.declared.asks.CallForm.{CallForm};
ghost use Rattle.room_types.specs.declared.asks.Event.{Event};
ghost use Rattle.room_types.specs.declared.asks.Press.{Press};
ghost use Rattle.room_types.specs.declared.codes.Kind.{Kind};
ghost use Rattle.room_types.specs.declared.refusal_statuses.Refusal.TheVariants.{SerialReused};
ghost use Rattle.room_model.specs.Events.{AreAddressed, OnlyAnswers, by_crew, by_position};
ghost use Rattle.room_model.specs.FleetRows.{fleet_at};
ghost use Rattle.room_model.specs.Run.{room_run};
ghost use Rattle.room_model.specs.Step.{IsAddressed, answer_to};
ghost use Rattle.dispatch_room_tasks.specs.Deeds.{AreHeard, AreSound, Contents, Deed, IsRefused};
ghost use Rattle.dispatch_room_tasks.specs.Deeds.{Sent, contents_after, contents_by};

/// The room stays well-formed, and the terminals fit it, whatever is done.
pub fn deeds_keep_the_agreements()
    ensures { (deeds : List Deed) (now : Contents) → AreSound now → AreHeard deeds now
        → AreSound (contents_after deeds now) }
{}

/// A deed that is refused changes nothing.
pub fn a_refused_deed_changes_nothing()
    ensures { (deed : Deed) (now : Contents) → IsRefused deed now → contents_by deed now ≡ now }
{}

/// Deeds that are all messages are a run of the room.
pub fn messages_are_a_run()
    ensures run { (es : List Event) (now : Contents)
        → contents_after (map Sent es) now ≡ record now { room = room_run es now.room } }
    ensures heard { (es : List Event) (now : Contents) → AreAddressed es now.room
        → AreHeard (map Sent es) now }
{}

/// No deed takes a vehicle away, or changes its home or kind; and who may ask may go on asking.
pub fn who_is_known_stays_known_over_deeds()
    ensures vehicle { (c : Callsign) (of : ℕ × Kind) (deeds : List Deed) (now : Contents)
        → fleet_at c now.room ≡ Some of → fleet_at c (contents_after deeds now).room ≡ Some of }
    ensures asker { (e : Event) (deeds : List Deed) (now : Contents) → IsAddressed e now.room
        → IsAddressed e (contents_after deeds now).room }
{}

/// A report that is sent again gets its first answer and changes nothing, whatever was done in
/// between.
pub fn a_report_acts_once_over_deeds()
    ensures { (c : Callsign) (p : Press) (at later : ℕ) (deeds : List Deed) (now : Contents)
        → AreSound now → IsAddressed (by_crew c (Report p) at) now.room
        → let sent = by_crew c (Report p) at in
        OnlyAnswers (by_crew c (Report p) later)
        (contents_after deeds (contents_by (Sent sent) now)).room (answer_to sent now.room) }
{}

/// So does a call that was accepted, or refused because its serial is another's.
pub fn a_call_acts_once_over_deeds()
    ensures { (p : ℕ) (f : CallForm) (at later : ℕ) (deeds : List Deed) (now : Contents)
        → let sent = by_position p (Call f) at in
        AreSound now
        → (is_ok (answer_to sent now.room) ≡ true) ⊎ (answer_to sent now.room ≡ Err SerialReused)
        → OnlyAnswers (by_position p (Call f) later)
        (contents_after deeds (contents_by (Sent sent) now)).room (answer_to sent now.room) }
{}
