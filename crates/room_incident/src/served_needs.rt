//! What an incident got, and what it lacks.
ghost use Rattle.std.specs.Prelude.{◌≡◌, ◌-◌, ℕ, length, filter};
ghost use Rattle.std.specs.List.{list_any};
ghost use Rattle.room_model.specs.Incidents.{lacking};
ghost use Rattle.room_model.specs.Queries.{counts, is_attended, served};
ghost use Rattle.room_model.specs.Room.{Room};
ghost use Rattle.room_incident.specs.ServedNeeds.{is_open_for, serves};

use room_place::plans::DivisionNumber;
use room_types::codes::Kind;
use room_types::numbers::{Need, Number};
use room_types::rows::Rows;
use room_types::tables::{Incident, Turn};

/// How many turns of the kind the division's incident has got: those that are open, and those
/// that reached the scene, left it or reached a hospital.
#[tactic(auto, using(crate::proofs::ServedLaws::served_so))]
pub fn served(turns: &Rows<Turn>, division: DivisionNumber, number: Number, kind: Kind) -> usize
    ensures { (r : Room) → r.turns ≡ turns.now → result ≡ served division number kind r }
{
    serving(turns, division, number, kind)
}

/// How many vehicles of the kind the incident lacks: what it needs less what it got, 0 where it
/// got as many or more.
pub fn lack(incident: &Incident, turns: &Rows<Turn>, kind: Kind) -> Need
    ensures { (d : ℕ) (r : Room) → r.turns ≡ turns.now → incident.now.division ≡ d
        → result ≡ lacking d incident.now r kind }
{
    let got = served(turns, incident.division, incident.number, kind);
    lacking(incident.needs.of(kind), got)
}

/// What is needed less what was got, 0 where as many or more were.
pub(crate) fn lacking(need: Need, got: usize) -> Need
    ensures { result ≡ need - got }
{
    Need::of((need.get() as usize).saturating_sub(got) as u32)
}

/// Whether a turn of the division's incident is open.
#[tactic(auto, using(crate::proofs::ServedLaws::attended_so))]
pub fn is_attended(turns: &Rows<Turn>, division: DivisionNumber, number: Number) -> bool
    ensures { (r : Room) → r.turns ≡ turns.now → result ≡ is_attended division number r }
{
    has_open(turns, division, number)
}

fn has_open(turns: &Rows<Turn>, division: DivisionNumber, number: Number) -> bool
    ensures { result ≡ list_any (is_open_for division number) turns.now }
{
    turns.iter().any(|turn| is_open_for(turn, division, number))
}

fn is_open_for(turn: &Turn, division: DivisionNumber, number: Number) -> bool
    ensures { result ≡ is_open_for division number turn.now }
{
    turn.division == division && turn.incident == number && turn.ended.is_none()
}

// Of only these turns, without a room.
fn serving(turns: &Rows<Turn>, division: DivisionNumber, number: Number, kind: Kind) -> usize
    ensures { result ≡ length (filter (serves division number kind) turns.now) }
{
    turns
        .iter()
        .filter(|turn| serves(turn, division, number, kind))
        .count()
}

// Whether the turn counts for what the incident got of the kind.
fn serves(turn: &Turn, division: DivisionNumber, number: Number, kind: Kind) -> bool
    ensures { result ≡ serves division number kind turn.now }
{
    turn.division == division && turn.incident == number && turn.kind == kind && counts(turn)
}

/// Whether a turn counts for what its incident got: it is open, or got as far as the scene.
pub(crate) fn counts(turn: &Turn) -> bool
    ensures { result ≡ counts turn.now }
{
    turn.ended.is_none() || turn.scene.is_some() || turn.left.is_some() || turn.hospital.is_some()
}
