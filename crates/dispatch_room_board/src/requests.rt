//! What a board asks a room for: only GETs.
ghost use Rattle.std.specs.Prelude.{◌≡◌, ◌++◌, IfOk, OnOk, string_bytes};
ghost use Rattle.dispatch_room_board.specs.Requests.{fields_of, get, get_reports, history_path};
ghost use Rattle.dispatch_room_board.specs.Requests.{incident_of, proposals_path, report_requests};
ghost use Rattle.dispatch_room_board.specs.Requests.{reports_with, requests, requests_with};

use room_types::callsign::Callsign;
use room_types::numbers::Number;
use room_types::token::Token;
use std::alloc::{AllocError, Global};

/// Which desk asks, and of which incident it wants to see what came of it and whom to send.
#[derive(Clone, Copy)]
pub struct Asker {
    pub token: Token,
    pub incident: Option<Number>,
}

/// The bytes of all requests, one after another, of which the last asks that the connection is
/// closed. A token has only letters and digits, so it can't end a field.
pub fn requests(alloc: Global, asker: &Asker) -> Result<String, AllocError>
    ensures { IfOk result (λ text. string_bytes text ≡
        requests asker.now.token asker.now.incident) }
{
    let fields = fields_of(alloc, &asker.token)?;
    let mut text = String::new(alloc);
    put_requests(&mut text, asker.incident, fields.as_str())?;
    Ok(text)
}

/// The bytes of the requests for the reports of these vehicles, in the same way.
pub fn report_requests(
    alloc: Global,
    token: &Token,
    vehicles: &[Callsign],
) -> Result<String, AllocError>
    ensures { IfOk result (λ text. string_bytes text ≡ report_requests token.now vehicles.now) }
{
    let fields = fields_of(alloc, token)?;
    let mut text = String::new(alloc);
    put_reports(&mut text, vehicles, fields.as_str())?;
    Ok(text)
}

// What follows the path in each request, up to the fields that only some have.
#[tactic(auto, unfolding(crate::specs::Requests::fields_of))]
fn fields_of(alloc: Global, token: &Token) -> Result<String, AllocError>
    ensures { IfOk result (λ text. string_bytes text ≡ fields_of token.now) }
{
    let token = token.as_str();
    format!(in alloc; " HTTP/1.1\r\nHost: room\r\nX-Terminal: {token}\r\n")
}

// Adds the requests for the reports of these vehicles.
fn put_reports(text: &mut String, vehicles: &[Callsign], fields: &str) -> Result<(), AllocError>
    ensures { OnOk result (string_bytes text.new ≡ string_bytes text.old ++
        reports_with fields.now vehicles.now) }
{
    let Some((vehicle, others)) = vehicles.split_first() else {
        return Ok(());
    };
    put_report(text, vehicle, others, fields)?;
    put_reports(text, others, fields)
}

// Adds the request for the reports of a vehicle, after which these others are asked for.
fn put_report(
    text: &mut String,
    vehicle: &Callsign,
    others: &[Callsign],
    fields: &str,
) -> Result<(), AllocError>
    ensures { OnOk result (string_bytes text.new ≡ string_bytes text.old ++
        get_reports fields.now vehicle.now others.now) }
{
    let callsign = vehicle.as_str();
    if others.is_empty() {
        write!(
            text,
            "GET /vehicles/{callsign}/reports{fields}Connection: close\r\n\r\n"
        )
    } else {
        write!(text, "GET /vehicles/{callsign}/reports{fields}\r\n")
    }
}

// Adds all requests. The fields are what follows the path in each, up to those that only some have.
fn put_requests(text: &mut String, incident: Option<Number>, fields: &str) -> Result<(), AllocError>
    ensures { OnOk result (string_bytes text.new ≡ string_bytes text.old ++
        requests_with fields.now incident) }
{
    put_get(text, "/queue", fields)?;
    put_get(text, "/incidents", fields)?;
    put_incident(text, incident, fields)?;
    put_get(text, "/vehicles", fields)?;
    put_get(text, "/points", fields)?;
    put_get(text, "/offers", fields)?;
    write!(text, "GET /loans{fields}Connection: close\r\n\r\n")
}

// Adds the GET of a path.
#[tactic(auto, unfolding(crate::specs::Requests::get))]
fn put_get(text: &mut String, path: &str, fields: &str) -> Result<(), AllocError>
    ensures { OnOk result (string_bytes text.new ≡ string_bytes text.old ++
        get path.now fields.now) }
{
    write!(text, "GET {path}{fields}\r\n")
}

// Adds the requests of an incident, where one is named: what came of it, and whom to send.
fn put_incident(text: &mut String, incident: Option<Number>, fields: &str) -> Result<(), AllocError>
    ensures { OnOk result (string_bytes text.new ≡ string_bytes text.old ++
        incident_of incident fields.now) }
{
    match incident {
        Some(number) => {
            put_history(text, number, fields)?;
            put_proposals(text, number, fields)
        }
        None => Ok(()),
    }
}

fn put_history(text: &mut String, incident: Number, fields: &str) -> Result<(), AllocError>
    ensures { OnOk result (string_bytes text.new ≡ string_bytes text.old ++
        get (history_path incident) fields.now) }
{
    let number = incident.get();
    write!(text, "GET /incidents/{number}{fields}\r\n")
}

fn put_proposals(text: &mut String, incident: Number, fields: &str) -> Result<(), AllocError>
    ensures { OnOk result (string_bytes text.new ≡ string_bytes text.old ++
        get (proposals_path incident) fields.now) }
{
    let number = incident.get();
    write!(text, "GET /incidents/{number}/propose{fields}\r\n")
}
