//! What is wrong with the file of a plan, in words.

use crate::csv_records::read_rows;
use crate::field_faults::{FieldFault, unless, unless_token};
use crate::plan_file::{HEADER, PlanFileFault};
use crate::plan_lines::{PlanLine, plan_lines};
use crate::plan_rules::{area_count, has_area_of, has_zone, is_rule, is_taken};
use crate::row_fields::{number, text_at, whole};
use crate::sheets::Sheet;
use csv::StringRecord;
use room_place::places::{Easting, Northing};
use room_types::token::Token;
use std::fmt;

/// What is wrong with a row.
#[derive(Clone, Copy)]
enum RowFault<'a> {
    What(&'a str),
    Field(FieldFault<'a>),
    Rule(&'a str),
    SecondZone,
    TurnedRound,
    NoArea(&'a str),
    TakenToken,
}

impl<'a> fmt::Display for RowFault<'a> {
    fn fmt<W: fmt::Write>(&self, f: &mut fmt::Formatter<W>) -> fmt::Result {
        match *self {
            RowFault::What(text) => write!(f, "\"{text}\" is no zone, area, desk or position"),
            RowFault::Field(fault) => write!(f, "{fault}"),
            RowFault::Rule(text) => write!(
                f,
                "zone \"{text}\" is no POSIX rule such as GMT0BST,M3.5.0/1,M10.5.0"
            ),
            RowFault::SecondZone => f.write_str("a second zone"),
            RowFault::TurnedRound => f.write_str("west above east, or south above north"),
            RowFault::NoArea(division) => write!(f, "division {division} has no area"),
            RowFault::TakenToken => f.write_str("an earlier row has this token"),
        }
    }
}

/// Explains why a text is no plan.
pub fn explain_plan(sheet: Sheet<'_>, fault: PlanFileFault) {
    match fault {
        PlanFileFault::Input => sheet.explain_table(&HEADER),
        PlanFileFault::Row(number) => {
            if let Ok(rows) = read_rows(sheet.alloc, &HEADER, sheet.text)
                && let Ok(lines) = plan_lines(sheet.alloc, rows.as_slice())
            {
                explain_rows(sheet, rows.as_slice(), lines.as_slice(), number);
            }
        }
        PlanFileFault::Memory => {}
    }
}

// Explains what is wrong with the row of a number, or with all of them where that is 0.
fn explain_rows(sheet: Sheet<'_>, rows: &[StringRecord], lines: &[PlanLine], number: u64) {
    let Some(at) = number.checked_sub(1) else {
        return sheet.explain(lack_of(lines));
    };
    let at = at as usize;
    if let (Some(row), Some(earlier)) = (rows.get(at), lines.get(..at))
        && let Some(fault) = fault_in(row, lines, earlier)
    {
        sheet.explain_record(row, fault);
    }
}

// What a plan lacks, or has too much of.
fn lack_of(lines: &[PlanLine]) -> &'static str {
    if !has_zone(lines) {
        "no zone"
    } else if area_count(lines) == 0 {
        "no area"
    } else {
        "more than 64 areas"
    }
}

// What is wrong with a row first, seen beside all rows and those before it.
fn fault_in<'a>(
    row: &'a StringRecord,
    lines: &[PlanLine],
    earlier: &[PlanLine],
) -> Option<RowFault<'a>> {
    match text_at(row, 0) {
        "zone" => zone_fault(row, earlier),
        "area" => area_fault(row),
        "desk" => desk_fault(row, lines, earlier),
        "position" => position_fault(row, earlier),
        other => Some(RowFault::What(other)),
    }
}

// A field whose text is not of its form.
fn not_of<'a>(name: &'static str, text: &'a str, form: &'static str) -> Option<RowFault<'a>> {
    Some(RowFault::Field(FieldFault::Form { name, text, form }))
}

fn zone_fault<'a>(row: &'a StringRecord, earlier: &[PlanLine]) -> Option<RowFault<'a>> {
    let (text, rule) = (text_at(row, 1), text_at(row, 2));
    if number(text) != Some(0) {
        return not_of("number", text, "0");
    }
    if !is_rule(rule) {
        return Some(RowFault::Rule(rule));
    }
    if has_zone(earlier) {
        return Some(RowFault::SecondZone);
    }
    unused_fault(row)
}

fn area_fault(row: &StringRecord) -> Option<RowFault<'_>> {
    let division = text_at(row, 1);
    let is_division = whole::<1, 9>(division).is_some();
    unless(is_division, "division", division, "1 to 9")
        .or(easting_fault(row, 2, "west"))
        .or(northing_fault(row, 3, "south"))
        .or(easting_fault(row, 4, "east"))
        .or(northing_fault(row, 5, "north"))
        .map(RowFault::Field)
        .or(turned_fault(row))
}

fn easting_fault<'a>(
    row: &'a StringRecord,
    at: usize,
    name: &'static str,
) -> Option<FieldFault<'a>> {
    let text = text_at(row, at);
    let is_good = number(text).and_then(Easting::new).is_some();
    unless(is_good, name, text, "400000 to 599999")
}

fn northing_fault<'a>(
    row: &'a StringRecord,
    at: usize,
    name: &'static str,
) -> Option<FieldFault<'a>> {
    let text = text_at(row, at);
    let is_good = number(text).and_then(Northing::new).is_some();
    unless(is_good, name, text, "100000 to 299999")
}

// An area whose sides are numbers may be turned round.
fn turned_fault(row: &StringRecord) -> Option<RowFault<'static>> {
    let (west, south) = (number(text_at(row, 2)), number(text_at(row, 3)));
    let (east, north) = (number(text_at(row, 4)), number(text_at(row, 5)));
    if west > east || south > north {
        Some(RowFault::TurnedRound)
    } else {
        None
    }
}

fn desk_fault<'a>(
    row: &'a StringRecord,
    lines: &[PlanLine],
    earlier: &[PlanLine],
) -> Option<RowFault<'a>> {
    let text = text_at(row, 1);
    match whole::<1, 9>(text) {
        Some(division) if has_area_of(lines, division.get()) => terminal_fault(row, earlier),
        Some(_) => Some(RowFault::NoArea(text)),
        None => not_of("desk", text, "1 to 9"),
    }
}

fn position_fault<'a>(row: &'a StringRecord, earlier: &[PlanLine]) -> Option<RowFault<'a>> {
    let text = text_at(row, 1);
    match whole::<1, 99>(text) {
        Some(_) => terminal_fault(row, earlier),
        None => not_of("position", text, "1 to 99"),
    }
}

fn terminal_fault<'a>(row: &'a StringRecord, earlier: &[PlanLine]) -> Option<RowFault<'a>> {
    match Token::parse(text_at(row, 2)) {
        Some(token) if is_taken(&token, earlier) => Some(RowFault::TakenToken),
        Some(_) => unused_fault(row),
        None => Some(RowFault::Field(FieldFault::Token)),
    }
}

// The last three fields are only for areas.
fn unused_fault(row: &StringRecord) -> Option<RowFault<'_>> {
    for (at, name) in [(3, "b"), (4, "c"), (5, "d")] {
        let text = text_at(row, at);
        if !text.is_empty() {
            return not_of(name, text, "empty");
        }
    }
    None
}
