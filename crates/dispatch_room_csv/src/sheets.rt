//! A text file of rows, whose faults are explained with the lines on which they stand.

ghost use Rattle.std.specs.Prelude.{◌≡◌};

use crate::csv_records::has_names;
use csv::{ReaderBuilder, StringRecord};
use dispatch_room_exit::failure_causes::Explainer;
use std::alloc::Global;
use std::fmt::{self, Display};
use std::str;

/// A file of rows: its path and its text, and who explains what is wrong with them.
#[derive(Clone, Copy)]
pub struct Sheet<'a> {
    pub alloc: Global,
    explainer: Explainer<'a>,
    path: &'a str,
    pub text: &'a [u8],
}

impl<'a> Sheet<'a> {
    pub fn new(alloc: Global, explainer: Explainer<'a>, path: &'a str, text: &'a [u8]) -> Sheet<'a>
        ensures { result.text.now ≡ text.now }
    {
        Sheet {
            alloc,
            explainer,
            path,
            text,
        }
    }

    /// Explains what is wrong with the file as a whole.
    pub(crate) fn explain<W: Display + Drop>(self, why: W) {
        let path = self.path;
        self.explainer.explain(format_args!("{path}: {why}"));
    }

    /// Explains why the text has no rows under these names: its header is another, or a row has not
    /// as many fields.
    pub(crate) fn explain_table(self, names: &[&str]) {
        if str::from_utf8(self.text).is_err() {
            return self.explain("not UTF-8");
        }
        let Some(records) = self.records() else {
            return;
        };
        let Some(header) = records.first() else {
            return self.explain("no header");
        };
        if !has_names(header, names) {
            return self.explain_record(header, Header { names });
        }
        for record in records.as_slice() {
            if record.len() != names.len() {
                let fault = Length {
                    found: record.len(),
                    wanted: names.len(),
                };
                return self.explain_record(record, fault);
            }
        }
    }

    /// Its rows: none where they can't be read, or nobody wants to know.
    pub fn rows(self) -> Option<Rows<'a>> {
        let records = self.records()?;
        Some(Rows {
            sheet: self,
            records,
        })
    }

    // All records, of whatever length.
    fn records(self) -> Option<Vec<StringRecord>> {
        if !self.explainer.is_wanted() {
            return None;
        }
        let reader = ReaderBuilder::new()
            .has_headers(false)
            .flexible(true)
            .from_reader(self.alloc, self.text);
        let mut records = Vec::new(self.alloc);
        for record in reader.into_records() {
            records.push(record.ok()?).ok()?;
        }
        Some(records)
    }

    /// Explains what is wrong with a record.
    pub(crate) fn explain_record<W: Display + Drop>(self, record: &StringRecord, why: W) {
        let (path, line) = (self.path, self.line_of(record));
        self.explainer.explain(format_args!("{path}:{line}: {why}"));
    }

    // The line on which a record begins. To the reader it begins with the empty lines before it.
    fn line_of(self, record: &StringRecord) -> u64 {
        let Some(begins) = record.position() else {
            return 1;
        };
        let mut line = begins.line();
        for byte in self.text.get(begins.byte() as usize..).unwrap_or(&[]) {
            match byte {
                b'\n' => line = line.saturating_add(1),
                b'\r' => {}
                _ => break,
            }
        }
        line
    }
}

/// The rows of a file, of whatever length.
#[derive(Drop)]
pub struct Rows<'a> {
    sheet: Sheet<'a>,
    // The header is the first.
    records: Vec<StringRecord>,
}

impl<'a> Rows<'a> {
    /// Explains what is wrong with a row, which is counted from 0 after the header.
    pub fn explain<W: Display + Drop>(&self, at: usize, why: W) {
        if let Some(row) = self.row(at) {
            self.sheet.explain_record(row, why);
        }
    }

    /// Such a row.
    pub(crate) fn row(&self, at: usize) -> Option<&StringRecord> {
        self.records.get(at.checked_add(1)?)
    }
}

// A header that is another.
#[derive(Drop)]
struct Header<'a> {
    names: &'a [&'a str],
}

impl<'a> Display for Header<'a> {
    fn fmt<W: fmt::Write>(&self, f: &mut fmt::Formatter<W>) -> fmt::Result {
        f.write_str("the header is not ")?;
        for (at, name) in self.names.iter().enumerate() {
            if at > 0 {
                f.write_str(",")?;
            }
            f.write_str(name)?;
        }
        Ok(())
    }
}

// A row of another length.
#[derive(Drop)]
struct Length {
    found: usize,
    wanted: usize,
}

impl Display for Length {
    fn fmt<W: fmt::Write>(&self, f: &mut fmt::Formatter<W>) -> fmt::Result {
        let (found, wanted) = (self.found, self.wanted);
        let fields = if found == 1 { "field" } else { "fields" };
        write!(f, "{found} {fields} where {wanted} are expected")
    }
}
