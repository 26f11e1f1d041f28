//! `import`: the rows of a fleet are enrolled in the room of a database.
ghost use Rattle.std.specs.Prelude.{◌≡◌, ◌⊎◌, List, false, IfErr, IfOk, OnErr};
ghost use Rattle.sqlite.specs.Held.{state};
ghost use Rattle.sqlite.specs.State.{Survives};
ghost use Rattle.room_types.specs.declared.fleet.Terminal.{Terminal};
ghost use Rattle.room_model.specs.Room.{Room};
ghost use Rattle.room_store.specs.FleetEnrolment.{MayBeEnrolled};
ghost use Rattle.room_store.specs.StoredRoom.{IsReady, IsRoom};
ghost use Rattle.dispatch_room_exit.specs.declared.exit_status.Failure.TheVariants.{Memory};
ghost use Rattle.dispatch_room_tasks.specs.RowOutcomes.{good_rows};
ghost use Rattle.dispatch_room_tasks.specs.Enrolment.{HasImported, HasImportedIn, PrintsFates};
ghost use Rattle.dispatch_room_tasks.specs.OpenedRoom.{IsUnopened};
ghost use Rattle.room_tables_schema.specs.FileConnections.{IsClean};

use crate::fleet_causes::explain;
use crate::opened_room::{TaskResult, open_room};
use crate::row_outcomes::{good_rows, print_fates};
use dispatch_room_csv::fleet_file::FleetLine;
use dispatch_room_csv::sheets::Sheet;
use dispatch_room_exit::exit_status::{Done, Failure, refused};
use room_store::store::Store;
use room_types::fleet::FleetRow;
use sqlite::{Alter, Connection};
use std::alloc::Global;
use std::io::Write;

/// Enrols the good rows of a fleet in the room of a database, reports what became of each row, and
/// explains why a row is bad or refused.
pub fn enrol_in<S: Alter + Drop, O: Write>(
    alloc: Global,
    conn: Connection<S>,
    sheet: Sheet<'_>,
    lines: &[FleetLine],
    out: &mut O,
) -> TaskResult<Done, S>
    requires outside { conn.in_transaction ≡ false }
    ensures printed { IfOk result (λ worked.
        IfOk worked.0 (PrintsFates lines.now (O.contents out.old) (O.contents out.new))) }
    ensures imported { IfOk result (λ worked. IsClean S.Store worked.1
        → HasImportedIn S.Store conn worked.1 lines.now (O.contents out.old) (O.contents out.new)
        worked.0) }
    ensures fault { IfErr result (λ fault. (fault ≡ Memory) ⊎ IsUnopened S.Store conn fault) }
    ensures unprinted { OnErr result (O.contents out.new ≡ O.contents out.old) }
{
    let Ok(rows) = good_rows(alloc, lines) else {
        return Err(Failure::Memory);
    };
    let (mut room, _) = open_room(alloc, conn)?;
    let done = enrol(alloc, &mut room, sheet, lines, rows.as_slice(), out);
    Ok((done, room.close()))
}

/// Enrols the good rows of the lines, reports what became of each line, and explains the others.
pub fn enrol<S: Alter, O: Write>(
    alloc: Global,
    room: &mut Store<S>,
    sheet: Sheet<'_>,
    lines: &[FleetLine],
    rows: &[FleetRow],
    out: &mut O,
) -> Result<Done, Failure>
    requires ready { IsReady S.Store room.old }
    requires rows { rows.now ≡ good_rows lines.now }
    ensures ready { IsReady S.Store room.new }
    ensures plan { room.new.plan ≡ room.old.plan }
    ensures printed { IfOk result
        (PrintsFates lines.now (O.contents out.old) (O.contents out.new)) }
    ensures imported { IsClean S.Store room.new.conn
        → (terminals : List Terminal) (held : Room) → IsRoom S.Store room.old terminals held
        → HasImported S.Store room.old room.new lines.now (O.contents out.old) (O.contents out.new)
        result terminals held }
    ensures survives { Survives (state S.Store room.old.conn) (state S.Store room.new.conn)
        (MayBeEnrolled S.Store room.old (good_rows lines.now)) }
{
    let mut fates = Vec::new(alloc);
    let imported = room.import(rows, &mut fates);
    let Ok(done) = print_fates(lines, fates.as_slice(), out) else {
        return Err(Failure::Network);
    };
    explain(sheet, lines, fates.as_slice());
    match imported {
        Ok(()) => Ok(done),
        Err(refusal) => Err(refused(refusal)),
    }
}
