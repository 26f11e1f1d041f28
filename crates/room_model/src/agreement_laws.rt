//! A well-formed room stays so. Each law is the contract of a function that does nothing.
ghost use Rattle.std.specs.Prelude.{◌≡◌, ◌↔◌, List, None};
ghost use Rattle.room_place.specs.Choice.{Among};
ghost use Rattle.room_types.specs.Texts.{Callsign};
ghost use Rattle.room_types.specs.declared.asks.Event.{Event};
ghost use Rattle.room_types.specs.declared.fleet.FleetRow.{FleetRow};
ghost use Rattle.room_types.specs.declared.fleet.Terminal.{Terminal};
ghost use Rattle.room_types.specs.declared.tables.Assignment.{Assignment};
ghost use Rattle.room_types.specs.declared.tables.Turn.{Turn};
ghost use Rattle.room_model.specs.Room.{IsInOrder, Room};
ghost use Rattle.room_model.specs.Events.{AreAddressed, IsNumbered};
ghost use Rattle.room_model.specs.FleetRows.{AreTerminals, fate_again, fate_of, fleet_at};
ghost use Rattle.room_model.specs.FleetRows.{room_enrolled, terminals_enrolled};
ghost use Rattle.room_model.specs.Fleets.{AreAgain, Reaching, enrolled, fates_of, since};
ghost use Rattle.room_model.specs.Run.{room_run};
ghost use Rattle.room_model.specs.Step.{IsAddressed, room_after};
ghost use Rattle.room_model.specs.RoomAgreements.{AssignmentsAgree, AssignmentsStand, IsWellFormed};
ghost use Rattle.room_model.specs.RoomAgreements.{StatusShowsAssignments, StatusShowsTurns};
ghost use Rattle.room_model.specs.RoomAgreements.{TurnsAgree, TurnsStand};

/// An addressed event leaves a well-formed room well-formed.
pub fn an_event_keeps_the_agreements()
    ensures { (e : Event) (r : Room) →
        IsWellFormed r → IsAddressed e r → IsNumbered e.ask →
        IsWellFormed (room_after e r) }
{}

/// Any list of events that the room knows when it begins leaves a well-formed room well-formed.
pub fn a_run_keeps_the_agreements()
    ensures { (es : List Event) (r : Room) →
        IsWellFormed r → AreAddressed es r →
        IsWellFormed (room_run es r) }
{}

/// After any events no vehicle is assigned to two incidents. Over all divisions it has at most one
/// assignment, and at most one open turn.
pub fn no_vehicle_is_assigned_twice()
    ensures assignments { (es : List Event) (r : Room) →
        IsWellFormed r → AreAddressed es r → (a b : Assignment) →
        Among a (room_run es r).assignments → Among b (room_run es r).assignments →
        a.callsign ≡ b.callsign →
        a ≡ b }
    ensures turns { (es : List Event) (r : Room) →
        IsWellFormed r → AreAddressed es r → (t u : Turn) → Among t (room_run es r).turns →
        Among u (room_run es r).turns → t.ended ≡ None → u.ended ≡ None →
        t.callsign ≡ u.callsign →
        t ≡ u }
    // The two are of one order.
    ensures together { (es : List Event) (r : Room) →
        IsWellFormed r → AreAddressed es r → (a : Assignment) (t : Turn) →
        Among a (room_run es r).assignments → Among t (room_run es r).turns → t.ended ≡ None →
        a.callsign ≡ t.callsign →
        (t.division ≡ a.division) × (t.incident ≡ a.incident) × (t.order ≡ a.order) }
{}

/// In a well-formed room a vehicle is at status 2 to 5 exactly where it has an open turn, and
/// exactly where it has an assignment.
pub fn the_status_shows_who_is_sent()
    ensures room { (r : Room) → IsWellFormed r → StatusShowsTurns r × StatusShowsAssignments r }
    // This is all that the agreements say of the status: with the rest of them it gives them back.
    ensures turns { (r : Room) → IsInOrder r →
        (TurnsAgree r ↔ (TurnsStand r × StatusShowsTurns r)) }
    ensures assignments { (r : Room) → IsInOrder r →
        (AssignmentsAgree r ↔ (AssignmentsStand r × StatusShowsAssignments r)) }
{}

/// Who may ask may go on asking. What is addressed stays addressed, whatever happens in between.
pub fn who_is_known_stays_known()
    ensures { (es : List Event) (r : Room) (e : Event) →
        IsAddressed e r →
        IsAddressed e (room_run es r) }
{}

/// No event adds a vehicle, or changes a vehicle's home or kind. So what becomes of a fleet row,
/// and whether the terminals fit the room, stays as it was.
pub fn the_fleet_stays()
    ensures fleet { (es : List Event) (r : Room) (c : Callsign) →
        fleet_at c (room_run es r) ≡ fleet_at c r }
    ensures fates { (es : List Event) (r : Room) (ts : List Terminal) (row : FleetRow) →
        fate_of (room_run es r) ts row ≡ fate_of r ts row }
    ensures terminals { (es : List Event) (r : Room) (ts : List Terminal) →
        AreTerminals r ts →
        AreTerminals (room_run es r) ts }
{}

/// A fleet row that is enrolled keeps a room well-formed, and its terminals fit it.
pub fn enrolment_keeps_the_agreements()
    ensures room { (r : Room) (ts : List Terminal) (row : FleetRow) →
        IsWellFormed r →
        IsWellFormed (room_enrolled r ts row) }
    ensures terminals { (r : Room) (ts : List Terminal) (row : FleetRow) →
        AreTerminals r ts →
        AreTerminals (room_enrolled r ts row) (terminals_enrolled r ts row) }
{}

/// A row that is enrolled again changes nothing. It is the same where it was added or the same, and
/// else refused as before.
pub fn enrolling_again_changes_nothing()
    ensures { (r : Room) (ts : List Terminal) (row : FleetRow) →
        fate_of (room_enrolled r ts row) (terminals_enrolled r ts row) row
        ≡ fate_again (fate_of r ts row) }
{}

/// A fleet that is imported again changes neither room nor terminals, whatever events and rows came
/// in between. A row that was added or the same is the same; one that was refused is refused as
/// before, or as `CallsignTaken` where its token was another's.
pub fn a_fleet_imported_again_changes_nothing()
    ensures { (xs : List FleetRow) (between : List Reaching) (r : Room) (ts : List Terminal) →
        AreTerminals r ts →
        let first = enrolled xs r ts in
        AreAgain xs (fates_of xs r ts) (since between first.0 first.1) }
{}
