//! What is found of incidents that are over, and the times of a day by class. Each law is the
//! contract of a function that does nothing.
ghost use Rattle.std.specs.Prelude.{◌≡◌, ◌↔◌, ℕ, ℤ};
ghost use Rattle.room_place.specs.Choice.{Among};
ghost use Rattle.room_types.specs.declared.asks.Sought.{Sought};
ghost use Rattle.room_types.specs.declared.tables.Incident.{Incident};
ghost use Rattle.room_model.specs.ClosedIncidents.{IsFound, LosesNothing, counted, from_number};
ghost use Rattle.room_model.specs.ClosedIncidents.{incidents_found, page_of, times_of_class};
ghost use Rattle.room_model.specs.DayTimes.{class_line};
ghost use Rattle.room_model.specs.Queries.{incidents_opened};
ghost use Rattle.room_model.specs.Room.{IsInOrder, Room};

/// A search finds just the division's incidents that are over, were opened then and are sought: the
/// vehicle that is named was sent to them, as their history shows, or they are near the place.
pub fn what_is_found_is_shown()
    ensures { (d : ℕ) (from to : ℤ) (x : Sought) (i : Incident) (r : Room) → IsInOrder r →
        (Among i (incidents_found d from to x r) ↔ IsFound d from to x i r) }
{}

/// Pages that are read one after another have all that is found, in number order, each once.
pub fn pages_lose_nothing()
    ensures { (d : ℕ) (from to : ℤ) (x : Sought) (n : ℕ) (r : Room) → IsInOrder r →
        LosesNothing (page_of (from_number n (incidents_found d from to x r))) n
        (incidents_found d from to x r) }
{}

/// The line of a class is what the times of the day count in a room that has incidents of that class
/// only.
pub fn class_times_are_times()
    ensures { (c d : ℕ) (from to : ℤ) (r : Room) →
        class_line (incidents_opened d from to r) c ≡ counted c (times_of_class c d from to r) }
{}
