//! The file of a fleet.
ghost use Rattle.std.specs.Prelude.{◌≡◌, map, IfOk, IfErr};
ghost use Rattle.csv.specs.Records.{fields_of};
ghost use Rattle.dispatch_room_csv.specs.FleetFile.{ExplainsFleet, IsFleetText, fleet_line_of};
ghost use Rattle.dispatch_room_csv.specs.FleetFile.{fleet_row_of, kind_of};

use crate::csv_records::{RecordsFault, read_rows};
use crate::row_fields::{number, text_at, whole};
use csv::StringRecord;
use dispatch_room_exit::exit_status::Failure;
use room_place::places::Place;
use room_types::callsign::Callsign;
use room_types::codes::Kind;
use room_types::fleet::FleetRow;
use room_types::token::Token;
use std::alloc::{AllocError, Global};
use thiserror::Error;

/// The names over the columns.
pub(crate) const HEADER: [&str; 5] = ["callsign", "division", "kind", "place", "token"];

/// A row of a fleet's file.
#[derive(Clone, Copy)]
pub enum FleetLine {
    Row(FleetRow),
    /// A field is not of its form.
    Bad,
}

/// Why a text is no fleet.
#[derive(Clone, Copy, Debug, PartialEq, Eq, Error)]
pub enum FleetFileFault {
    /// It is no UTF-8, no CSV, has another header, or a row with another number of fields.
    #[error("the file is not a fleet in CSV")]
    Input,
    #[error("out of memory")]
    Memory,
}

impl From<RecordsFault> for FleetFileFault {
    ghost use Rattle.std.specs.Prelude.{◌≡◌};
    ghost use Rattle.dispatch_room_csv.specs.FleetFile.{fleet_fault_of};

    ghost from_gives = { λ fault cause. cause ≡ fleet_fault_of fault };

    fn from(fault: RecordsFault) -> FleetFileFault {
        match fault {
            RecordsFault::Input => FleetFileFault::Input,
            RecordsFault::Memory => FleetFileFault::Memory,
        }
    }
}

impl From<AllocError> for FleetFileFault {
    ghost use Rattle.std.specs.Prelude.{◌≡◌};
    ghost use Rattle.dispatch_room_csv.specs.declared.fleet_file.FleetFileFault.TheVariants.{Memory};

    ghost from_gives = { λ _ cause. cause ≡ Memory };

    fn from(_: AllocError) -> FleetFileFault {
        FleetFileFault::Memory
    }
}

impl From<FleetFileFault> for Failure {
    ghost use Rattle.std.specs.Prelude.{◌≡◌};
    ghost use Rattle.dispatch_room_csv.specs.CsvFaults.{fleet_failure};

    ghost from_gives = { λ fault cause. cause ≡ fleet_failure fault };

    fn from(fault: FleetFileFault) -> Failure {
        match fault {
            FleetFileFault::Input => Failure::Input,
            FleetFileFault::Memory => Failure::Memory,
        }
    }
}

/// The rows of a fleet in CSV, in their order, bad ones too.
pub fn read_fleet(alloc: Global, text: &[u8]) -> Result<Vec<FleetLine>, FleetFileFault>
    ensures fleet { IfOk result (λ lines. IsFleetText text.now lines.items) }
    ensures fault { IfErr result (ExplainsFleet text.now) }
{
    let rows = read_rows(alloc, &HEADER, text)?;
    Ok(fleet_lines(alloc, rows.as_slice())?)
}

fn fleet_lines(alloc: Global, rows: &[StringRecord]) -> Result<Vec<FleetLine>, AllocError>
    ensures { IfOk result (λ lines.
        lines.items ≡ map (λ row. fleet_line_of (fields_of row)) rows.now) }
{
    rows.iter().map(fleet_line).collect(alloc)
}

fn fleet_line(row: &StringRecord) -> FleetLine
    ensures { result ≡ fleet_line_of (fields_of row.now) }
{
    match fleet_row(row) {
        Some(row) => FleetLine::Row(row),
        None => FleetLine::Bad,
    }
}

/// The vehicle of a row: none where a field is not of its form.
fn fleet_row(row: &StringRecord) -> Option<FleetRow>
    ensures { result ≡ fleet_row_of (fields_of row.now) }
{
    let callsign = Callsign::parse(text_at(row, 0))?;
    let division = whole(text_at(row, 1))?;
    let kind = kind_of(text_at(row, 2))?;
    let place = Place::parse(text_at(row, 3)).ok()?;
    let token = Token::parse(text_at(row, 4))?;
    Some(FleetRow {
        callsign,
        division,
        kind,
        place,
        token,
    })
}

/// The kind whose number a text writes.
pub(crate) fn kind_of(text: &str) -> Option<Kind>
    ensures { result ≡ kind_of text.now }
{
    let number = u8::try_from(number(text)?).ok()?;
    Kind::from_number(number)
}
