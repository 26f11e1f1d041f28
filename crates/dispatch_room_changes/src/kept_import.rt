//! `import` with a list: a fleet is kept in the list of a room, and then enrolled.
ghost use Rattle.dispatch_room_changes.specs.ChangeSteps.{IsKeptImport, IsKeptImportOf, OpensChain};
ghost use Rattle.dispatch_room_disk.specs.CommandSteps.{Quietly, at};
ghost use Rattle.dispatch_room_disk.specs.SystemFiles.{system};

use crate::change_lists::ChangeList;
use crate::import::lines_in;
use crate::kept_enrolments::{Fleet, import_in};
use dispatch_room_csv::sheets::Sheet;
use dispatch_room_disk::room_files::RoomFile;
use dispatch_room_exit::exit_status::{Done, Failure};
use dispatch_room_exit::failure_causes::Explainer;
use dispatch_room_journal::list_ends::ListEnd;
use dispatch_room_serving::journal_files::OpenedList;
use dispatch_room_tcp::hosts::Machine;
use std::io::Write;

/// Enrols a fleet as `import` does, once it lasts in a list: between the digest of the room before
/// and that of the room after. Where the fleet can't be kept, nothing is enrolled; where only the
/// last digest can't be, the rows stay, and the next start keeps that digest.
pub fn import_kept<M: Machine, O: Write>(
    explainer: Explainer<'_>,
    machine: &mut M,
    file: &str,
    fleet: &str,
    path: &str,
    out: &mut O,
) -> Result<Done, Failure>
    ensures { IsKeptImport system M.File.Write.contents M.File.lasting file.now fleet.now path.now
        (at (O.contents out.old) (M.done machine.old))
        (at (O.contents out.new) (M.done machine.new)) result }
{
    let text = machine.read_text(fleet)?;
    let sheet = Sheet::new(machine.alloc(), explainer, fleet, text.as_slice());
    import_kept_by(explainer, machine, file, sheet, path, out)
}

// Enrols the fleet that a text gives, once it lasts in a list.
fn import_kept_by<M: Machine, O: Write>(
    explainer: Explainer<'_>,
    machine: &mut M,
    file: &str,
    sheet: Sheet<'_>,
    path: &str,
    out: &mut O,
) -> Result<Done, Failure>
    ensures { IsKeptImportOf system M.File.Write.contents M.File.lasting file.now path.now
        sheet.entry.text.now (at (O.contents out.old) (M.done machine.old))
        (at (O.contents out.new) (M.done machine.new)) result }
{
    let lines = lines_in(sheet)?;
    let opened = opened_list(explainer, machine, path)?;
    let conn = machine.open(RoomFile::Kept(file))?;
    let (kept, end) = opened.into_file(explainer, path);
    let mut list = ChangeList::new(kept, end);
    let fleet = Fleet {
        explainer: explainer,
        sheet,
        lines: lines.as_slice(),
    };
    let imported = import_in(machine.alloc(), conn, &mut list, &fleet, out);
    machine.close(RoomFile::Kept(file), imported)
}

/// The list at a path, which must be a chain: no other list has room for rows. Otherwise it
/// explains why, and fails as `Journal`.
pub fn opened_list<M: Machine>(
    explainer: Explainer<'_>,
    machine: &mut M,
    path: &str,
) -> Result<OpenedList<M::File>, Failure>
    ensures { Quietly (OpensChain path.now) (M.done machine.old) (M.done machine.new) result }
{
    let opened = machine.open_journal(path)?;
    match opened.end() {
        ListEnd::Chain(_) => Ok(opened),
        ListEnd::Plain => {
            explainer.explain(format_args!(
                "{path} is a list of version 1, which keeps no change: rename it, and a new one \
                 begins"
            ));
            Err(Failure::Journal)
        }
    }
}
