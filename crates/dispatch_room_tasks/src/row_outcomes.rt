//! What is reported of the rows of a fleet.
ghost use Rattle.std.specs.Prelude.{◌≡◌, ◌++◌, IfOk, OnOk};
ghost use Rattle.std.specs.Io.KnownBytes.{Appends};
ghost use Rattle.dispatch_room_tasks.specs.RowOutcomes.{done_by, fate_text, fates_text, good_rows};
ghost use Rattle.dispatch_room_tasks.specs.RowOutcomes.{is_enrolled, outcomes, row_in};

use dispatch_room_csv::fleet_file::FleetLine;
use dispatch_room_exit::exit_status::Done;
use room_types::fleet::{FleetRow, RowFate};
use std::alloc::{AllocError, Global};
use std::io::{self, Write};

/// The good rows.
pub fn good_rows(alloc: Global, lines: &[FleetLine]) -> Result<Vec<FleetRow>, AllocError>
    ensures { IfOk result (λ rows. rows.items ≡ good_rows lines.now) }
{
    lines.iter().filter_map(row_in).collect(alloc)
}

fn row_in(line: &FleetLine) -> Option<FleetRow>
    ensures { result ≡ row_in line.now }
{
    match line {
        FleetLine::Row(row) => Some(*row),
        FleetLine::Bad => None,
    }
}

/// Prints what became of each line, up to the first good one that has no fate, and how much is done
/// by that.
pub fn print_fates<O: Write>(
    lines: &[FleetLine],
    fates: &[RowFate],
    out: &mut O,
) -> io::Result<Done>
    ensures text { OnOk result (Appends (O.contents out.old) (O.contents out.new)
        (fates_text lines.now fates.now)) }
    ensures done { IfOk result (λ done. done ≡ done_by (outcomes lines.now fates.now)) }
{
    let mut left = fates;
    let mut done = Done::Whole;
    for (at, line) in lines.iter().enumerate() {
        match line {
            FleetLine::Bad => {
                writeln!(out, "row {} bad", at + 1)?;
                done = Done::InPart;
            }
            FleetLine::Row(row) => {
                let Some((fate, later)) = left.split_first() else {
                    return Ok(done);
                };
                if !print_fate(row, fate, out)? {
                    done = Done::InPart;
                }
                left = later;
            }
        }
    }
    Ok(done)
}

// Prints what became of a row, and returns whether it is enrolled.
fn print_fate<O: Write>(row: &FleetRow, fate: &RowFate, out: &mut O) -> io::Result<bool>
    ensures text { OnOk result (Appends (O.contents out.old) (O.contents out.new)
        (row.now.callsign ++ fate_text fate.now)) }
    ensures enrolled { IfOk result (λ enrolled. enrolled ≡ is_enrolled fate.now) }
{
    let callsign = row.callsign.as_str();
    match fate {
        RowFate::Added => writeln!(out, "{callsign} added")?,
        RowFate::Same => writeln!(out, "{callsign} same")?,
        RowFate::Refused(refusal) => {
            writeln!(out, "{callsign} refused {}", refusal.number())?;
            return Ok(false);
        }
    }
    Ok(true)
}
