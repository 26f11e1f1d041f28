//! What each row of a plan's file says.
ghost use Rattle.std.specs.Prelude.{◌≡◌, map, IfOk};
ghost use Rattle.csv.specs.Records.{fields_of};
ghost use Rattle.dispatch_room_csv.specs.PlanLines.{area_line, has_unused, plan_line_of, rect_of};
ghost use Rattle.dispatch_room_csv.specs.PlanLines.{terminal_line, terminal_of, zone_line, zone_of};

use crate::row_fields::{number, text_at, whole};
use csv::StringRecord;
use room_place::plans::{Area, Rect};
use room_types::asks::Who;
use room_types::fleet::Terminal;
use room_types::text::Text;
use room_types::token::Token;
use std::alloc::{AllocError, Global};

/// What a row says, before it is held against the others.
#[derive(Clone, Copy)]
pub(crate) enum PlanLine {
    /// The rule of the zone.
    Zone(Text<64>),
    Area(Area),
    Terminal(Terminal),
    /// A zone that is not of its form.
    BadZone,
    /// An area that is not of its form, with the division that it names, if it does.
    BadArea(Option<u32>),
    /// Any other row that is not of its form.
    Bad,
}

/// What each row says.
pub(crate) fn plan_lines(alloc: Global, rows: &[StringRecord]) -> Result<Vec<PlanLine>, AllocError>
    ensures { IfOk result (λ lines.
        lines.items ≡ map (λ row. plan_line_of (fields_of row)) rows.now) }
{
    rows.iter().map(plan_line).collect(alloc)
}

/// What a row says, by its first field.
fn plan_line(row: &StringRecord) -> PlanLine
    ensures { result ≡ plan_line_of (fields_of row.now) }
{
    match text_at(row, 0) {
        "zone" => zone_line(zone_of(row)),
        "area" => area_line(number(text_at(row, 1)), rect_of(row)),
        "desk" => {
            let desk = whole(text_at(row, 1)).map(Who::Desk);
            terminal_line(terminal_of(desk, row))
        }
        "position" => {
            let position = whole(text_at(row, 1)).map(Who::Position);
            terminal_line(terminal_of(position, row))
        }
        _ => PlanLine::Bad,
    }
}

fn zone_line(rule: Option<Text<64>>) -> PlanLine
    ensures { result ≡ zone_line rule }
{
    match rule {
        Some(rule) => PlanLine::Zone(rule),
        None => PlanLine::BadZone,
    }
}

fn area_line(division: Option<u32>, rect: Option<Rect>) -> PlanLine
    ensures { result ≡ area_line division rect }
{
    match (division, rect) {
        (Some(division), Some(rect)) => PlanLine::Area(Area { division, rect }),
        (division, _) => PlanLine::BadArea(division),
    }
}

fn terminal_line(terminal: Option<Terminal>) -> PlanLine
    ensures { result ≡ terminal_line terminal }
{
    match terminal {
        Some(terminal) => PlanLine::Terminal(terminal),
        None => PlanLine::Bad,
    }
}

/// The rule of a zone's row, whose number is 0.
fn zone_of(row: &StringRecord) -> Option<Text<64>>
    ensures { result ≡ zone_of (fields_of row.now) }
{
    let number = number(text_at(row, 1))?;
    if number == 0 && has_unused(row) {
        Text::new(text_at(row, 2))
    } else {
        None
    }
}

/// The rectangle of an area's row: west, south, east and north.
fn rect_of(row: &StringRecord) -> Option<Rect>
    ensures { result ≡ rect_of (fields_of row.now) }
{
    let west = number(text_at(row, 2))?;
    let south = number(text_at(row, 3))?;
    let east = number(text_at(row, 4))?;
    let north = number(text_at(row, 5))?;
    Some(Rect {
        west,
        south,
        east,
        north,
    })
}

/// The terminal of a desk or a position, with the token after its number.
fn terminal_of(who: Option<Who>, row: &StringRecord) -> Option<Terminal>
    ensures { result ≡ terminal_of who (fields_of row.now) }
{
    let who = who?;
    let token = Token::parse(text_at(row, 2))?;
    if has_unused(row) {
        Some(Terminal { token, who })
    } else {
        None
    }
}

/// Whether the last three fields are empty, of those that only areas use.
fn has_unused(row: &StringRecord) -> bool
    ensures { result ≡ has_unused (fields_of row.now) }
{
    text_at(row, 3).is_empty() && text_at(row, 4).is_empty() && text_at(row, 5).is_empty()
}
