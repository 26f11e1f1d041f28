//! What a request reads of the rows of its division: one table, a row a request.
ghost use Rattle.std.specs.Prelude.{◌≡◌, ℕ};
ghost use Rattle.room_types.specs.declared.asks.Ask.{Ask as AskModel};
ghost use Rattle.room_types.specs.declared.tables.Turn.{Turn};
ghost use Rattle.room_model.specs.Room.{Room};
ghost use Rattle.room_model.specs.WorkingRows.{is_sought_by};
ghost use Rattle.room_store_reads.specs.RequestReads.{IsAskedFor, Selects, is_of_fleet};
ghost use Rattle.room_store_reads.specs.RequestReads.{is_turn_of};

use self::Incidents::{Active, Near, One, Opened, Two};
use self::Reports::Uncleared;
use crate::selections::Selection;
use crate::selections::Selection::{Everything as All, One as Key};
use room_place::plans::DivisionNumber;
use room_types::asks::{Ask, CallForm, Sought};
use room_types::callsign::Callsign;
use room_types::numbers::{Number, PointNumber};

/// How much of each table a request reads, of its division's rows.
#[derive(Clone, Copy)]
pub struct Reads {
    pub divisions: Selection<DivisionNumber>,
    pub vehicles: Selection<Callsign>,
    pub assignments: Selection<Callsign>,
    pub points: Selection<(DivisionNumber, PointNumber)>,
    /// By their vehicle, as the offers are.
    pub loans: Selection<Callsign>,
    pub offers: Selection<Callsign>,
    pub reports: Reports,
    /// With the turns of those that are active or named.
    pub incidents: Incidents,
    /// Whether their calls are read too.
    pub calls: bool,
    pub turns: Turns,
}

/// Which reports a request reads.
#[derive(Clone, Copy)]
pub enum Reports {
    Nothing,
    /// The exceptions that are not cleared.
    Uncleared,
    /// The one of a vehicle and its number.
    One((Callsign, Number)),
    /// All of a vehicle.
    Of(Callsign),
}

/// Which incidents a request reads.
#[derive(Clone, Copy)]
pub enum Incidents {
    Nothing,
    Active,
    /// Opened from the first second of UTC since 1970 on, and before the second.
    Opened(i64, i64),
    /// Those that a call may be linked to.
    Near(CallForm),
    One(Number),
    Two(Number, Number),
}

/// Which turns a request reads beside those of incidents that are active or named.
#[derive(Clone, Copy)]
pub enum Turns {
    Nothing,
    /// That of a vehicle's last order.
    Last(Callsign),
    /// Those of the incidents that were merged into the one that is named, whose calls are read.
    Merged(Number),
    /// All of a vehicle.
    Of(Callsign),
}

impl Reads {
    /// Whether nothing is read but rows of the fleet, which are known.
    pub fn is_of_fleet(&self) -> bool
        ensures { result ≡ is_of_fleet self.now.incidents self.now.reports self.now.turns }
    {
        match (self.incidents, self.reports, self.turns) {
            (Incidents::Nothing, Reports::Nothing, Turns::Nothing) => true,
            _ => false,
        }
    }
}

// A row with nothing in its columns.
const NOTHING: Reads = Reads {
    divisions: Selection::Nothing,
    vehicles: Selection::Nothing,
    assignments: Selection::Nothing,
    points: Selection::Nothing,
    loans: Selection::Nothing,
    offers: Selection::Nothing,
    reports: Reports::Nothing,
    incidents: Incidents::Nothing,
    calls: false,
    turns: Turns::Nothing,
};

// A row of the table: what it has in some columns, and nothing in the others.
macro_rules! row {
    ($($column:ident: $read:expr),+) => {{
        let mut row = NOTHING;
        $(row.$column = $read;)+
        row
    }};
}

/// What a request reads of its division's rows. A vehicle is read with its loan.
pub fn reads_of(division: DivisionNumber, ask: &Ask) -> Reads
    ensures { Selects division ask.now result }
{
    match *ask {
        Ask::Call(form) => row!(divisions: All, incidents: Near(form)),
        Ask::Incidents => row!(incidents: Active, calls: true),
        Ask::Incident(number) => {
            row!(incidents: One(number), calls: true, turns: Turns::Merged(number))
        }
        Ask::Propose(number) => row!(incidents: One(number), vehicles: All, points: All),
        Ask::Mobilise(number, callsign) => {
            row!(incidents: One(number), vehicles: Key(callsign), loans: Key(callsign))
        }
        Ask::Needs(number, _) | Ask::Close(number) => row!(incidents: One(number)),
        Ask::Merge(number, into) => row!(incidents: Two(number, into), calls: true),
        Ask::Vehicles => row!(vehicles: All, assignments: All),
        Ask::StandDown(callsign) => {
            row!(vehicles: Key(callsign), loans: Key(callsign), turns: Turns::Last(callsign))
        }
        Ask::Standby(callsign, Some(number)) => {
            row!(vehicles: Key(callsign), loans: Key(callsign), points: Key((division, number)))
        }
        Ask::Standby(callsign, None)
        | Ask::Duty(callsign, _, _)
        | Ask::Off(callsign)
        | Ask::Lend(callsign, _, _)
        | Ask::Recall(callsign)
        | Ask::GiveBack(callsign) => row!(vehicles: Key(callsign), loans: Key(callsign)),
        Ask::Withdraw(callsign) => {
            row!(vehicles: Key(callsign), loans: Key(callsign), offers: Key(callsign))
        }
        Ask::Decline(callsign) | Ask::Accept(callsign) => row!(offers: Key(callsign)),
        Ask::Reports(callsign) => row!(reports: Reports::Of(callsign)),
        Ask::Queue => row!(
            incidents: Active, reports: Uncleared,
            vehicles: All, points: All, loans: All, offers: All
        ),
        Ask::Clear(callsign, number) => row!(reports: Reports::One((callsign, number))),
        Ask::Points => row!(vehicles: All, points: All),
        Ask::Loans => row!(loans: All),
        Ask::Offers => row!(offers: All),
        Ask::Times(from, to) | Ask::ClassTimes(from, to) => row!(incidents: Opened(from, to)),
        Ask::Closed(from, to, search) => {
            row!(incidents: Opened(from, to), turns: turns_sought(&search.sought))
        }
        Ask::SetPoint(_, _, _)
        | Ask::Moves(_)
        | Ask::Order
        | Ask::Job
        | Ask::Report(_)
        | Ask::Last => NOTHING,
    }
}

// The turns by which it is known whether a vehicle was sent to an incident that is sought.
fn turns_sought(sought: &Sought) -> Turns
    ensures turn { (division : ℕ) (room : Room) (t : Turn)
        → is_sought_by sought.now t ≡ is_turn_of division result room t }
    ensures history { (ask : AskModel) → IsAskedFor result ask }
{
    match *sought {
        Sought::Sent(callsign) => Turns::Of(callsign),
        Sought::All | Sought::Near(_, _) => Turns::Nothing,
    }
}
