//! A fleet that is kept in the list of a room, and enrolled.
ghost use Rattle.std.specs.Prelude.{◌≡◌, ◌⊎◌, false, IfErr, IfOk, OnErr};
ghost use Rattle.dispatch_room_exit.specs.declared.exit_status.Failure.TheVariants.{Memory};
ghost use Rattle.dispatch_room_exit.specs.declared.exit_status.Failure.TheVariants.{Storage};
ghost use Rattle.dispatch_room_journal.specs.Entries.{IsDigest};
ghost use Rattle.room_store.specs.StoredRoom.{IsReady};
ghost use Rattle.dispatch_room_tasks.specs.OpenedRoom.{IsUnopened};
ghost use Rattle.dispatch_room_tasks.specs.RowOutcomes.{good_rows};
ghost use Rattle.dispatch_room_changes.specs.KeptImports.{EndsKept, ImportsKept, ImportsKeptIn};
ghost use Rattle.dispatch_room_changes.specs.KeptImports.{PlacesRoom, ShowsHead};
ghost use Rattle.dispatch_room_lists.specs.StoodRooms.{Stays};

use crate::change_lists::{ChangeList, keep_lines, keep_place};
use dispatch_room_csv::fleet_file::FleetLine;
use dispatch_room_csv::sheets::Sheet;
use dispatch_room_exit::exit_status::{Done, Failure, refused};
use dispatch_room_exit::failure_causes::Explainer;
use dispatch_room_journal::journal_digests::digest_of;
use dispatch_room_serving::journal_files::Lasting;
use dispatch_room_tasks::enrolment::enrol;
use dispatch_room_tasks::opened_room::{TaskResult, open_room};
use dispatch_room_tasks::row_outcomes::good_rows;
use room_model::digests::{StartDigest, Version};
use room_store::store::Store;
use room_store::store_digest::digest_of_room;
use room_types::fleet::FleetRow;
use sqlite::{Alter, Connection};
use std::alloc::Global;
use std::io::Write;

/// A fleet: its text and its lines, and who explains what became of it.
#[derive(Clone, Copy)]
pub struct Fleet<'a> {
    pub explainer: Explainer<'a>,
    pub sheet: Sheet<'a>,
    pub lines: &'a [FleetLine],
}

/// Keeps a fleet in a list, enrols its good rows in the room of a database, and then keeps the
/// room's digest. If the fleet can't be kept, nothing is enrolled.
pub fn import_in<S: Alter + Drop, F: Lasting, O: Write>(
    alloc: Global,
    conn: Connection<S>,
    list: &mut ChangeList<F>,
    fleet: &Fleet<'_>,
    out: &mut O,
) -> TaskResult<Done, S>
    requires outside { conn.in_transaction ≡ false }
    requires sound { list.old.out.failed ≡ false }
    ensures imported { IfOk result (λ worked. ImportsKeptIn S.Store F.contents F.lasting conn
        worked.1 list.old list.new fleet.now.lines.now fleet.now.sheet.text.now
        (O.contents out.old) (O.contents out.new) worked.0) }
    ensures fault { IfErr result (λ fault. (fault ≡ Memory) ⊎ IsUnopened S.Store conn fault) }
    ensures unprinted { OnErr result (O.contents out.new ≡ O.contents out.old) }
{
    let Ok(rows) = good_rows(alloc, fleet.lines) else {
        return Err(Failure::Memory);
    };
    let (mut room, _) = open_room(alloc, conn)?;
    let done = keep_and_enrol(alloc, &mut room, list, fleet, rows.as_slice(), out);
    Ok((done, room.close()))
}

// The fleet is kept in a list, its good rows are enrolled in a room, and then the room's digest is
// kept.
fn keep_and_enrol<S: Alter, F: Lasting, O: Write>(
    alloc: Global,
    room: &mut Store<S>,
    list: &mut ChangeList<F>,
    fleet: &Fleet<'_>,
    rows: &[FleetRow],
    out: &mut O,
) -> Result<Done, Failure>
    requires ready { IsReady S.Store room.old }
    requires sound { list.old.out.failed ≡ false }
    requires rows { rows.now ≡ good_rows fleet.now.lines.now }
    ensures { ImportsKept S.Store F.contents F.lasting room.old room.new list.old list.new
        fleet.now.lines.now fleet.now.sheet.text.now (O.contents out.old) (O.contents out.new)
        result }
{
    let head = match head_of(room) {
        Ok(head) => head,
        Err(fault) => return Err(fault),
    };
    if keep_lines(list, &head, fleet.sheet.text).is_err() {
        return Err(Failure::Journal);
    }
    let came = enrol(alloc, room, fleet.sheet, fleet.lines, rows, out);
    end_kept(fleet.explainer, room, list, came)
}

/// Keeps the digest of a room after a change that ended so, and returns how the change ends: one
/// that was made fails if the digest can't be kept.
pub fn end_kept<S: Alter, F: Lasting, T: Drop>(
    explainer: Explainer<'_>,
    room: &mut Store<S>,
    list: &mut ChangeList<F>,
    came: Result<T, Failure>,
) -> Result<T, Failure>
    requires ready { IsReady S.Store room.old }
    requires sound { list.old.out.failed ≡ false }
    ensures { EndsKept S.Store F.contents F.lasting room.old room.new list.old list.new came
        result }
{
    match keep_end(room, list) {
        Ok(()) => came,
        Err(fault) => match came {
            Ok(_) => {
                explainer.explain("the change is made; the next start writes the digest after it");
                Err(fault)
            }
            Err(first) => Err(first),
        },
    }
}

// Keeps the digest of a room, which stays as it is.
fn keep_end<S: Alter, F: Lasting>(
    room: &mut Store<S>,
    list: &mut ChangeList<F>,
) -> Result<(), Failure>
    requires ready { IsReady S.Store room.old }
    requires sound { list.old.out.failed ≡ false }
    ensures stays { Stays S.Store room.old room.new }
    ensures place { PlacesRoom S.Store F.contents F.lasting room.old room.new list.old list.new
        result }
{
    match head_of(room) {
        Ok(head) => match keep_place(list, &head) {
            Ok(()) => Ok(()),
            Err(_) => Err(Failure::Journal),
        },
        Err(fault) => Err(fault),
    }
}

/// The version and the digest of a room, as a list has them. The room stays as it is.
pub fn head_of<S: Alter>(room: &mut Store<S>) -> Result<StartDigest, Failure>
    requires ready { IsReady S.Store room.old }
    ensures ready { IsReady S.Store room.new }
    ensures stays { Stays S.Store room.old room.new }
    ensures digest { IfOk result (λ head. IsDigest head.digits) }
    ensures head { IfOk result (ShowsHead S.Store room.old room.new) }
    ensures fault { IfErr result (λ fault. (fault ≡ Memory) ⊎ (fault ≡ Storage)) }
{
    match digest_of_room(room, Version::Second) {
        Ok(digest) => Ok(StartDigest {
            version: Version::Second,
            digits: digest_of(&digest),
        }),
        Err(refusal) => Err(refused(refusal)),
    }
}
