//! The records of a text of CSV, and its rows under a header.
ghost use Rattle.std.specs.Prelude.{◌≡◌, ◌↔◌, map, IfOk, IfErr, IsTrue};
ghost use Rattle.csv.specs.Reading.{error_kind};
ghost use Rattle.csv.specs.Records.{fields_of};
ghost use Rattle.dispatch_room_csv.specs.Records.{ExplainsRecords, ExplainsRows, HasRows, IsTable};
ghost use Rattle.dispatch_room_csv.specs.Records.{records_fault};

use crate::row_fields::text_at;
use csv::{Error, ErrorKind, ReaderBuilder, StringRecord};
use std::alloc::Global;
use std::str;

/// Why a text has no records to read.
#[derive(Clone, Copy)]
pub(crate) enum RecordsFault {
    /// It is no UTF-8, or no CSV in which all records have as many fields.
    Input,
    Memory,
}

/// All records of a text, the header among them.
fn read_records(alloc: Global, text: &[u8]) -> Result<Vec<StringRecord>, RecordsFault>
    ensures table { IfOk result (λ records. IsTable text.now (map fields_of records.items)) }
    ensures fault { IfErr result (ExplainsRecords text.now) }
{
    if str::from_utf8(text).is_err() {
        return Err(RecordsFault::Input);
    }
    let reader = ReaderBuilder::new()
        .has_headers(false)
        .from_reader(alloc, text);
    let mut records = Vec::new(alloc);
    for record in reader.into_records() {
        match record {
            Ok(record) => records.push(record).map_err(|_| RecordsFault::Memory)?,
            Err(error) => return Err(fault_of(&error)),
        }
    }
    Ok(records)
}

/// Why a record was not read. A text in memory has no fault of its own, so what is left is memory.
fn fault_of(error: &Error) -> RecordsFault
    ensures { result ≡ records_fault (error_kind error.now) }
{
    match error.kind() {
        ErrorKind::UnequalLengths { .. } | ErrorKind::Utf8 { .. } => RecordsFault::Input,
        _ => RecordsFault::Memory,
    }
}

/// The rows of a text whose first record has these names.
pub(crate) fn read_rows(
    alloc: Global,
    names: &[&str],
    text: &[u8],
) -> Result<Vec<StringRecord>, RecordsFault>
    ensures rows { IfOk result (λ rows.
        HasRows (map (λ name. name.now) names.now) text.now (map fields_of rows.items)) }
    ensures fault { IfErr result (ExplainsRows (map (λ name. name.now) names.now) text.now) }
{
    let mut records = read_records(alloc, text)?;
    if records.is_empty() || !has_names(&records[0], names) {
        return Err(RecordsFault::Input);
    }
    records.remove(0);
    Ok(records)
}

/// Whether the fields of a record are these names.
pub(crate) fn has_names(first: &StringRecord, names: &[&str]) -> bool
    ensures { IsTrue result ↔ (fields_of first.now ≡ map (λ name. name.now) names.now) }
{
    if first.len() != names.len() {
        return false;
    }
    for (at, name) in names.iter().enumerate() {
        if text_at(first, at) != *name {
            return false;
        }
    }
    true
}
