//! Why rows of a fleet are not enrolled, in words.

use dispatch_room_csv::fleet_file::FleetLine;
use dispatch_room_csv::fleet_file_faults::explain_bad;
use dispatch_room_csv::sheets::Sheet;
use room_types::fleet::{FleetRow, RowFate};
use room_types::refusal_statuses::Refusal;
use std::fmt;

/// Explains each row that is bad or was refused, up to the first good one that has no fate.
pub fn explain(sheet: Sheet<'_>, lines: &[FleetLine], fates: &[RowFate]) {
    let Some(rows) = sheet.rows() else {
        return;
    };
    let mut left = fates.iter();
    for (at, line) in lines.iter().enumerate() {
        match line {
            FleetLine::Bad => explain_bad(&rows, at),
            FleetLine::Row(row) => match left.next() {
                Some(RowFate::Refused(refusal)) => {
                    let (row, refusal) = (*row, *refusal);
                    rows.explain(at, Refused { row, refusal });
                }
                Some(_) => {}
                None => return,
            },
        }
    }
}

// A row that a room refuses, and why.
#[derive(Clone, Copy)]
struct Refused {
    row: FleetRow,
    refusal: Refusal,
}

impl fmt::Display for Refused {
    fn fmt<W: fmt::Write>(&self, f: &mut fmt::Formatter<W>) -> fmt::Result {
        let (callsign, division) = (self.row.callsign.as_str(), self.row.division.get());
        match self.refusal {
            Refusal::NoSuchDivision => write!(f, "no division {division} in the plan"),
            Refusal::CallsignTaken => write!(
                f,
                "vehicle {callsign} is there with another division, kind or token"
            ),
            Refusal::TokenTaken => f.write_str("its token is another terminal's"),
            refusal => write!(f, "{refusal}"),
        }
    }
}
