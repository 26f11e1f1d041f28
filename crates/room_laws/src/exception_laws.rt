//! What a desk's queue shows stays there until its own cause ends, and a desk that looks sees it.
ghost use Rattle.std.specs.Prelude.{◌≡◌, ◌<◌, ◌≤◌, ◌⊎◌, ◌+◌, ◌==◌, ℕ, List, None, Some, cond};
ghost use Rattle.std.specs.Prelude.{false, length, true};
ghost use Rattle.room_place.specs.Choice.{Among};
ghost use Rattle.room_types.specs.Codes.{is_active, is_exception, is_mobilised, is_off};
ghost use Rattle.room_types.specs.Keys.{owns_loan, owns_offer};
ghost use Rattle.room_types.specs.declared.answers.QueueEntry.{QueueEntry};
ghost use Rattle.room_types.specs.declared.asks.Ask.TheVariants.{Queue};
ghost use Rattle.room_types.specs.declared.asks.Event.{Event};
ghost use Rattle.room_types.specs.declared.tables.Incident.{Incident};
ghost use Rattle.room_types.specs.declared.tables.Loan.{Loan};
ghost use Rattle.room_types.specs.declared.tables.Offer.{Offer};
ghost use Rattle.room_types.specs.declared.tables.Point.{Point};
ghost use Rattle.room_types.specs.declared.tables.Report.{Report};
ghost use Rattle.room_types.specs.declared.tables.Turn.{Turn};
ghost use Rattle.room_types.specs.declared.tables.Vehicle.{Vehicle};
ghost use Rattle.room_model.specs.Events.{AreAddressed, by_desk};
ghost use Rattle.room_model.specs.Moments.{scene_limit};
ghost use Rattle.room_model.specs.Queries.{holders, incident_of, open_turn};
ghost use Rattle.room_model.specs.Queue.{entries, is_unserved};
ghost use Rattle.room_model.specs.Room.{Room};
ghost use Rattle.room_model.specs.RoomAgreements.{IsWellFormed};
ghost use Rattle.room_model.specs.Run.{room_run};
ghost use Rattle.room_model.specs.Step.{answer_to};
ghost use Rattle.room_laws.specs.Exceptions.{Concern, IsDue, IsEnded, IsOf, IsSeen, IsShown};
ghost use Rattle.room_laws.specs.Exceptions.{LooksEvery, looks, OutOfTurn, Overdue, ShiftOver};
ghost use Rattle.room_laws.specs.Exceptions.{LateForScene, Unanswered, Uncovered, Unacknowledged};
ghost use Rattle.room_laws.specs.Exceptions.{Unserved};

/// Each entry of a queue is of something that needs an eye.
pub fn each_entry_has_its_concern()
    ensures { (d at : ℕ) (r : Room) (x : QueueEntry) →
        IsWellFormed r → Among x (entries d at r) →
        (k : Concern) × IsOf k x }
{}

/// From when on the queue has what needs an eye, as the room stands: 180 s after its opening for an
/// incident that nobody serves, 60 s after it for an order that is not acknowledged, by the limit
/// of the incident's class for a vehicle on its way, at once for a report out of turn, after its
/// end for a loan, from its end for a shift, at once for a point, 300 s after it for an offer.
pub fn each_cause_is_due()
    ensures incident { (d : ℕ) (r : Room) (i : Incident) →
        IsWellFormed r → Among i r.incidents → i.division ≡ d → is_active i.state ≡ true →
        is_unserved d i.number r ≡ true →
        IsDue d (Unserved i.number) (i.opened + 181) r }
    ensures order { (d : ℕ) (r : Room) (v : Vehicle) (t : Turn) →
        IsWellFormed r → Among v r.vehicles → v.holder ≡ d → is_mobilised v.status ≡ true →
        open_turn d v.callsign r ≡ Some t → t.acknowledged ≡ None →
        IsDue d (Unacknowledged t.incident v.callsign) (t.ordered + 61) r }
    ensures way { (d : ℕ) (r : Room) (v : Vehicle) (t : Turn) (i : Incident) →
        IsWellFormed r → Among v r.vehicles → v.holder ≡ d → is_mobilised v.status ≡ true →
        open_turn d v.callsign r ≡ Some t → incident_of d t.incident r ≡ Some i →
        IsDue d (LateForScene t.incident v.callsign) (i.opened + scene_limit i.class + 1) r }
    ensures report { (d m : ℕ) (r : Room) (x : Report) →
        IsWellFormed r → Among x r.reports → x.division ≡ d → is_exception x ≡ true →
        IsDue d (OutOfTurn x.number x.callsign) m r }
    ensures loan { (d : ℕ) (r : Room) (l : Loan) →
        IsWellFormed r → Among l r.loans → owns_loan d l ≡ true →
        IsDue d (Overdue (cond (l.lender == d) l.borrower l.lender) l.callsign) (l.until + 1) r }
    ensures shift { (d : ℕ) (r : Room) (v : Vehicle) →
        IsWellFormed r → Among v r.vehicles → v.holder ≡ d → is_off v.status ≡ false →
        IsDue d (ShiftOver v.callsign) v.shift_end r }
    ensures point { (d m : ℕ) (r : Room) (p : Point) →
        IsWellFormed r → Among p r.points → p.division ≡ d →
        length (holders d p.number m r) < p.cover →
        IsDue d (Uncovered p.number) m r }
    ensures offer { (d : ℕ) (r : Room) (o : Offer) →
        IsWellFormed r → Among o r.offers → owns_offer d o ≡ true →
        IsDue d (Unanswered (cond (o.lender == d) o.borrower o.lender) o.callsign)
        (o.since + 301) r }
{}

/// What was due at a moment, in a queue or not, is in every later queue of its division, whatever
/// happened in between, unless one of the events ended its own cause. So an entry stays, and a
/// cause that lasts until its moment is an entry from then on.
pub fn an_exception_stays()
    ensures { (d m at : ℕ) (k : Concern) (r : Room) (es : List Event) →
        IsWellFormed r → AreAddressed es r → m ≤ at → IsDue d k m r →
        IsDue d k at (room_run es r) ⊎ IsEnded d k es r }
{}

/// A desk that asks for its queue at a moment is shown what is due then.
pub fn a_queue_shows_what_is_due()
    ensures { (d at : ℕ) (k : Concern) (r : Room) →
        IsDue d k at r →
        IsShown k (answer_to (by_desk d Queue at) r) }
{}

/// A desk that asks for its queue again at most `y` seconds later each time, and looked before the
/// moment `m` at which something is due, is shown it by `m + y`, unless an event ended it before.
pub fn a_desk_that_looks_is_shown_it()
    ensures { (d y m last : ℕ) (k : Concern) (r : Room) (es : List Event) →
        IsWellFormed r → AreAddressed es r → IsDue d k m r →
        last ≤ m → LooksEvery y m last (looks d es) →
        IsSeen d k y m es r }
{}
