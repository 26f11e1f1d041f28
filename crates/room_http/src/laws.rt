//! What a stream itself decides, and what its arrivals, their moments and the room do. A law is the
//! contract of a function that does nothing.
ghost use Rattle.std.specs.Prelude.{◌≡◌, ◌++◌, ℕ, List};
ghost use Rattle.room_types.specs.declared.fleet.Terminal.{Terminal};
ghost use Rattle.room_model.specs.FleetRows.{AreTerminals};
ghost use Rattle.room_model.specs.Room.{Room};
ghost use Rattle.room_model.specs.RoomAgreements.{IsWellFormed};
ghost use Rattle.room_http.specs.declared.settings.HttpSettings.{HttpSettings};
ghost use Rattle.room_model.specs.Rooms.{machine};
ghost use Rattle.room_http.specs.KeptMessages.{AreReplies};
ghost use Rattle.room_http.specs.Laws.{IsOneDialogue, IsOneStream};
ghost use Rattle.room_http.specs.Promises.{Promises};
ghost use Rattle.room_http.specs.Runs.{Exchange, IsRun, IsRunOf, answers_of, arrivals_of, room_by};
ghost use Rattle.room_http.specs.Dialogues.{IsDialogue, Timed};

/// A stream has the same messages however it was cut into pieces. Two readings of it differ only in
/// how far they went, and, where it is refused, perhaps in the refusal.
pub fn one_stream()
    ensures { IsOneStream }
{}

/// Equal messages at equal moments, in equal rooms, leave equal rooms and get equal bytes.
pub fn one_dialogue()
    ensures { IsOneDialogue }
{}

/// A dialogue with the dispatch machine is a run. Its messages ask for events that the room knows,
/// they lead to the room after it, and each gets what the room answers at its turn.
pub fn a_dialogue_is_a_run()
    ensures { (setting : HttpSettings) (terminals : List Terminal) (room : Room) (outs : List Timed)
        (after : Room) (bytes : List ℕ) →
        AreTerminals room terminals → IsDialogue machine setting terminals room outs after bytes →
        (xs : List Exchange) × IsRunOf setting terminals outs after bytes xs room }
{}

/// A run goes on where another one ended. Over any connections, one after another, the two are one.
pub fn a_run_goes_on()
    ensures run { (setting : HttpSettings) (terminals : List Terminal) (room : Room)
        (xs ys : List Exchange) →
        AreTerminals room terminals →
        IsRun setting terminals xs room → IsRun setting terminals ys (room_by xs room) →
        IsRun setting terminals (xs ++ ys) room }
    ensures leads { (room : Room) (xs ys : List Exchange) →
        room_by (xs ++ ys) room ≡ room_by ys (room_by xs room) }
{}

/// Every run keeps the promises. A division sees of the others what it is handed, no vehicle is
/// sent to two incidents, and what is sent again acts once.
pub fn a_run_keeps_the_promises()
    ensures { (setting : HttpSettings) (terminals : List Terminal) (xs : List Exchange) (room : Room) →
        IsWellFormed room → IsRun setting terminals xs room →
        Promises terminals xs room }
{}

/// The answers that are kept of a course are those of its run. What is answered to equal arrivals
/// at equal moments, one after another, is the same, each answer by itself.
pub fn one_course()
    ensures { (setting : HttpSettings) (terminals : List Terminal) (room after : Room)
        (outs : List Timed) (answers : List (List ℕ)) (xs : List Exchange) →
        AreReplies machine setting terminals room outs answers after →
        IsRun setting terminals xs room → arrivals_of xs ≡ outs → answers_of xs ≡ answers }
{}
