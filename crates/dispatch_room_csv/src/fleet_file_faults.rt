//! What is wrong with the file of a fleet, in words.

use crate::field_faults::{FieldFault, unless, unless_token};
use crate::fleet_file::{FleetFileFault, HEADER, kind_of};
use crate::row_fields::{text_at, whole};
use crate::sheets::{Rows, Sheet};
use csv::StringRecord;
use room_place::places::Place;
use room_types::callsign::Callsign;

/// Explains why a text is no fleet.
pub fn explain_fleet(sheet: Sheet<'_>, fault: FleetFileFault) {
    if let FleetFileFault::Input = fault {
        sheet.explain_table(&HEADER);
    }
}

/// Explains what is wrong with a bad row, which is counted from 0 after the header.
pub fn explain_bad(rows: &Rows<'_>, at: usize) {
    if let Some(row) = rows.row(at)
        && let Some(fault) = fault_in(row)
    {
        rows.explain(at, fault);
    }
}

// What is wrong with the first field of a row that is not of its form.
fn fault_in(row: &StringRecord) -> Option<FieldFault<'_>> {
    let (callsign, division, kind) = (text_at(row, 0), text_at(row, 1), text_at(row, 2));
    let is_division = whole::<1, 9>(division).is_some();
    unless(
        Callsign::parse(callsign).is_some(),
        "callsign",
        callsign,
        "1 to 8 of A-Z and 0-9",
    )
    .or(unless(is_division, "division", division, "1 to 9"))
    .or(unless(kind_of(kind).is_some(), "kind", kind, "1, 2 or 3"))
    .or(place_fault(text_at(row, 3)))
    .or(unless_token(row, 4))
}

fn place_fault(text: &str) -> Option<FieldFault<'_>> {
    match Place::parse(text) {
        Ok(_) => None,
        Err(fault) => Some(FieldFault::Place { text, fault }),
    }
}
