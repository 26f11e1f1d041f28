//! The example room: two divisions side by side, a desk for each, one call taker, and five
//! vehicles.
ghost use Rattle.std.specs.Prelude.{◌≡◌, ◌+◌, ◌≤◌, true, Ok, IfOk, IsOk};
ghost use Rattle.room_place.specs.References.{parse as reading};
ghost use Rattle.room_place.specs.declared.places.Place.{Place as Spot};
ghost use Rattle.room_types.specs.Texts.{is_callsign, is_token};
ghost use Rattle.dispatch_room_dry_run.specs.Example.{example_fleet, example_plan};
ghost use Rattle.dispatch_room_dry_run.specs.Example.{example_terminals};

use room_place::places::Place;
use room_place::plans::{Area, DivisionNumber, Plan, Rect};
use room_types::asks::Who;
use room_types::callsign::Callsign;
use room_types::codes::Kind;
use room_types::fleet::{FleetRow, Terminal};
use room_types::numbers::PositionNumber;
use room_types::token::Token;
use std::alloc::{AllocError, Global};

/// Divisions 1 and 2, each with a rectangle of 50 km by 100 km.
pub fn plan(alloc: Global) -> Result<Plan, AllocError>
    ensures { IfOk result (λ plan. (plan.areas ≡ example_plan.areas)
        × (plan.zone ≡ example_plan.zone)) }
{
    let areas = Vec::from_slice(alloc, &[area(1, 500_000), area(2, 550_000)])?;
    Plan::new(alloc, areas, "GMT0BST,M3.5.0/1,M10.5.0").map_err(|_| AllocError)
}

// A division's area, from its western edge on.
fn area(division: u32, west: u32) -> Area
    requires { west ≤ 550_000 }
    ensures { result ≡ record {
      division = division;
      rect = record {
        west = west;
        south = 100_000;
        east = west + 49_999;
        north = 199_999;
      };
    } }
{
    Area {
        division,
        rect: Rect {
            west,
            south: 100_000,
            east: west + 49_999,
            north: 199_999,
        },
    }
}

/// The desks of both divisions, and position 1.
pub fn terminals() -> [Terminal; 3]
    ensures { result ≡ example_terminals }
{
    [
        terminal("deskone1", Who::Desk(DivisionNumber::of(1))),
        terminal("desktwo2", Who::Desk(DivisionNumber::of(2))),
        terminal("takerone", Who::Position(PositionNumber::of(1))),
    ]
}

fn terminal(token: &str, who: Who) -> Terminal
    requires { is_token token.now ≡ true }
    ensures { result ≡ record { token = token.now; who = who } }
{
    Terminal {
        token: Token::parse(token).unwrap(),
        who,
    }
}

/// Three ambulances and a car of division 1, and an ambulance of division 2.
pub fn fleet() -> [FleetRow; 5]
    ensures { result ≡ example_fleet }
{
    [
        vehicle("A1", 1, Kind::Ambulance, "TQ303804", "crewofa1"),
        vehicle("A2", 1, Kind::Ambulance, "TQ304803", "crewofa2"),
        vehicle("A3", 1, Kind::Ambulance, "TQ300801", "crewofa3"),
        vehicle("B1", 2, Kind::Ambulance, "TQ600800", "crewofb1"),
        vehicle("C1", 1, Kind::Car, "TQ300800", "crewofc1"),
    ]
}

// A vehicle's row: its callsign, home division and kind, where it stands, and its crew's token.
fn vehicle(callsign: &str, division: u32, kind: Kind, reference: &str, token: &str) -> FleetRow
    requires callsign { is_callsign callsign.now ≡ true }
    requires division { (1 ≤ division) × (division ≤ 9) }
    requires reference { IsOk (reading reference.now) }
    requires token { is_token token.now ≡ true }
    ensures { (place : Spot) → reading reference.now ≡ Ok place
        → result ≡ record {
          callsign = callsign.now;
          division = division;
          kind = kind;
          place = place;
          token = token.now;
        } }
{
    FleetRow {
        callsign: Callsign::parse(callsign).unwrap(),
        division: DivisionNumber::of(division),
        kind,
        place: Place::parse(reference).unwrap(),
        token: Token::parse(token).unwrap(),
    }
}
