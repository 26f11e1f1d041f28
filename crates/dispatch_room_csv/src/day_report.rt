//! The report of a day.
ghost use Rattle.std.specs.Prelude.{◌≡◌, ◌++◌, IfOk, OnOk, string_bytes};
ghost use Rattle.dispatch_room_csv.specs.DayReport.{report_line, report_of};

use room_types::answers::{Times, TimesLine};
use std::alloc::{AllocError, Global};
use std::fmt::Write;

/// The incidents of a day in CSV, a line each under the header: number, moment of opening, and the
/// seconds from there to the first order, empty where there was none.
pub fn day_report(alloc: Global, times: &Times) -> Result<Vec<u8>, AllocError>
    ensures { IfOk result (λ report. report.items ≡ report_of times.now.lines) }
{
    let mut report = String::from_str(alloc, "incident,opened,activation\n")?;
    for line in times.lines.as_slice() {
        push_line(&mut report, line)?;
    }
    Ok(report.into_bytes())
}

fn push_line(report: &mut String, line: &TimesLine) -> Result<(), AllocError>
    ensures { OnOk result
        (string_bytes report.new ≡ string_bytes report.old ++ report_line line.now) }
{
    let (number, opened) = (line.number.get(), line.opened.get());
    match line.activation {
        Some(seconds) => write!(report, "{number},{opened},{seconds}\n"),
        None => write!(report, "{number},{opened},\n"),
    }
}
