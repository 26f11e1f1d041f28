//! How much a room has.
ghost use Rattle.std.specs.Prelude.{◌≡◌, ℕ, cond, filter, is_none, length, map, nat_lt};
ghost use Rattle.room_types.specs.Codes.{is_active, is_exception};
ghost use Rattle.room_store_check_rows.specs.Summaries.{latest, newest, summary_of};

use crate::room_checks::RoomRows;
use room_place::plans::Plan;
use room_types::fleet::Terminal;
use room_types::numbers::Moment;
use room_types::tables::{Call, Incident, Report, Turn};

/// How many rows each table of a room has, and how many of them may need an eye.
#[derive(Clone, Copy)]
pub struct Summary {
    pub areas: usize,
    pub terminals: usize,
    pub divisions: usize,
    pub points: usize,
    pub incidents: usize,
    /// Incidents that are active.
    pub active_incidents: usize,
    pub calls: usize,
    pub vehicles: usize,
    pub assignments: usize,
    pub turns: usize,
    /// Turns that have not ended.
    pub open_turns: usize,
    pub loans: usize,
    pub offers: usize,
    pub reports: usize,
    /// Reports out of turn that no desk has seen to.
    pub uncleared: usize,
    /// The newest moment of a call, an order or a report; 0 where there is none.
    pub newest: Moment,
}

/// How much a room has of this plan, these rows and these terminals.
pub fn summary_of(plan: &Plan, rows: &RoomRows, terminals: &[Terminal]) -> Summary
    ensures { result ≡ summary_of plan.now.areas rows.now terminals.now }
{
    Summary {
        areas: plan.areas().len(),
        terminals: terminals.len(),
        divisions: rows.divisions.as_slice().len(),
        points: rows.points.as_slice().len(),
        incidents: rows.incidents.len(),
        active_incidents: count_active(rows.incidents.as_slice()),
        calls: rows.calls.len(),
        vehicles: rows.vehicles.as_slice().len(),
        assignments: rows.assignments.as_slice().len(),
        turns: rows.turns.len(),
        open_turns: count_open(rows.turns.as_slice()),
        loans: rows.loans.as_slice().len(),
        offers: rows.offers.as_slice().len(),
        reports: rows.reports.len(),
        uncleared: count_uncleared(rows.reports.as_slice()),
        newest: newest(rows),
    }
}

fn count_active(incidents: &[Incident]) -> usize
    ensures { result ≡ length (filter (λ i. is_active i.state) incidents.now) }
{
    incidents
        .iter()
        .filter(|incident| incident.state.is_active())
        .count()
}

fn count_open(turns: &[Turn]) -> usize
    ensures { result ≡ length (filter (λ t. is_none t.ended) turns.now) }
{
    turns.iter().filter(|turn| turn.ended.is_none()).count()
}

fn count_uncleared(reports: &[Report]) -> usize
    ensures { result ≡ length (filter is_exception reports.now) }
{
    reports
        .iter()
        .filter(|report| report.is_exception())
        .count()
}

fn newest(rows: &RoomRows) -> Moment
    ensures { result ≡ newest rows.now }
{
    let called = latest(rows.calls.as_slice(), Moment::of(0));
    let ordered = latest(rows.turns.as_slice(), called);
    latest(rows.reports.as_slice(), ordered)
}

// A row about something at a moment.
trait Dated {
    ghost moment_of: { Self → ℕ };

    fn moment(&self) -> Moment
        ensures { result ≡ moment_of self.now };
}

impl Dated for Call {
    ghost moment_of = { λ c. c.at };

    fn moment(&self) -> Moment {
        self.at
    }
}

impl Dated for Turn {
    ghost moment_of = { λ t. t.ordered };

    fn moment(&self) -> Moment {
        self.ordered
    }
}

impl Dated for Report {
    ghost moment_of = { λ x. x.at };

    fn moment(&self) -> Moment {
        self.at
    }
}

// The latest of the rows' moments and this one.
fn latest<R: Dated>(rows: &[R], since: Moment) -> Moment
    ensures { result ≡ latest since (map R.moment_of rows.now) }
{
    let mut newest = since;
    for row in rows {
        newest = later(newest, row.moment());
    }
    newest
}

fn later(one: Moment, other: Moment) -> Moment
    ensures { result ≡ cond (nat_lt one other) other one }
{
    if one < other { other } else { one }
}
