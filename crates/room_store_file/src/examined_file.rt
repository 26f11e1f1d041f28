//! What is wrong with a file first, or how much its room has. Nothing is written to the file.
ghost use Rattle.std.specs.Prelude.{◌≡◌, ◌⊎◌, false, IfErr, IfOk};
ghost use Rattle.sqlite.specs.Held.{state};
ghost use Rattle.room_store_file.specs.OpeningCauses.{FailsInside};
ghost use Rattle.room_store_file.specs.OpenedFile.{schema_of};
ghost use Rattle.room_store_check_tables.specs.HeldRooms.{WritesNothing};
ghost use Rattle.room_store_file.specs.declared.room_in_tables.Tables.TheVariants.{Unindexed};
ghost use Rattle.room_store_file.specs.declared.room_in_tables.Tables.TheVariants.{Whole};
ghost use Rattle.room_store_file.specs.ExaminedFile.{Explains, ExplainsFile, FailsToReadTables};
ghost use Rattle.room_store_file.specs.ExaminedFile.{HasCause, HoldsAll, IsAmount, IsSummaryOf};
ghost use Rattle.room_store_file.specs.ExaminedFile.{Weighs};
ghost use Rattle.room_store_file.specs.declared.examined_file.Wrong.TheVariants.{Storage};
ghost use Rattle.room_store_writes.specs.Transactions.{IsCommitted};
ghost use Rattle.room_tables_schema.specs.FileConnections.{IsClean};

use crate::opened_file::{is_room_of, room_tables_of};
use crate::room_in_tables::{Tables, read_file};
use room_place::plans::Plan;
use room_store_check_rows::disagreements::{Disagreement, TerminalFault};
use room_store_check_rows::room_checks::disagreement;
use room_store_check_rows::summaries::{Summary, summary_of};
use room_store_check_rows::terminal_checks::terminals_fault;
use room_store_check_tables::file_faults::FileFault;
use room_store_check_tables::whole_file::ReadFile;
use room_tables::connection_lemmas::lemma_committed;
use room_tables_rows::meta_sql::FIRST_VERSION;
use sqlite::{Alter, Connection};
use std::alloc::Global;

/// What is wrong with a file. Of several the first of this list is reported.
#[derive(Clone, Copy)]
pub enum Wrong {
    /// It holds a room of the version before this one, well-formed or not.
    OldRoom,
    /// Its tables, indexes and views are not those of a room.
    Tables,
    /// Its areas and its zone make no plan, or a table has two rows of one number.
    NoPlan,
    /// The rows disagree.
    Rows(Disagreement),
    /// The terminals don't fit them.
    Terminals(TerminalFault),
    /// Memory was refused; the same call may succeed later.
    Memory,
    /// The database failed for another cause, or a row is not of its table.
    Storage,
}

impl From<FileFault> for Wrong {
    ghost use Rattle.room_store_file.specs.ExaminedFile.{wrong_of};

    ghost from_gives = { λ fault wrong. wrong ≡ wrong_of fault };

    fn from(fault: FileFault) -> Wrong {
        match fault {
            FileFault::NotARoom => Wrong::NoPlan,
            FileFault::Memory => Wrong::Memory,
            FileFault::Storage => Wrong::Storage,
        }
    }
}

/// The plan of the room that the file holds, and how much it has; or what is wrong with it first.
/// The file stays as it is, also where it lacks the indexes of its tables.
pub fn examine<S: Alter>(alloc: Global, conn: &mut Connection<S>) -> Result<(Plan, Summary), Wrong>
    requires outside { conn.old.in_transaction ≡ false }
    ensures room { IsClean S.Store conn.new
        → IfOk result (λ x. IsSummaryOf (state S.Store conn.old).now.trees x.0 x.1) }
    ensures wrong { IsClean S.Store conn.new
        → IfErr result (ExplainsFile (state S.Store conn.old) (state S.Store conn.new)) }
    ensures why { IsClean S.Store conn.new
        → IfErr result (HasCause S.Store conn.old conn.new) }
    ensures nothing { WritesNothing (state S.Store conn.old) (state S.Store conn.new) }
    ensures ended { conn.new.in_transaction ≡ false }
{
    let (whole, summary) = read_room(alloc, conn)?;
    let ReadFile { config, rows } = whole;
    drop(rows);
    Ok((config.plan, summary))
}

/// All of the room that the file holds, and how much it is; or what is wrong with it first. The
/// file stays as it is, also where it lacks the indexes of its tables.
pub fn read_room<S: Alter>(
    alloc: Global,
    conn: &mut Connection<S>,
) -> Result<(ReadFile, Summary), Wrong>
    requires outside { conn.old.in_transaction ≡ false }
    ensures room { IsClean S.Store conn.new
        → IfOk result (λ x. HoldsAll (state S.Store conn.old).now.trees x.0 x.1) }
    ensures wrong { IsClean S.Store conn.new
        → IfErr result (ExplainsFile (state S.Store conn.old) (state S.Store conn.new)) }
    ensures why { IsClean S.Store conn.new
        → IfErr result (HasCause S.Store conn.old conn.new) }
    ensures nothing { WritesNothing (state S.Store conn.old) (state S.Store conn.new) }
    ensures ended { conn.new.in_transaction ≡ false }
{
    match is_room_of(conn, FIRST_VERSION) {
        Ok(true) => Err(Wrong::OldRoom),
        Ok(false) => read_tables(alloc, conn),
        Err(fault) => Err(Wrong::from(FileFault::from(fault))),
    }
}

// The same of a file that holds no room of the first version.
fn read_tables<S: Alter>(
    alloc: Global,
    conn: &mut Connection<S>,
) -> Result<(ReadFile, Summary), Wrong>
    requires outside { conn.old.in_transaction ≡ false }
    ensures room { IsClean S.Store conn.new
        → IfOk result (λ x. HoldsAll (state S.Store conn.old).now.trees x.0 x.1) }
    ensures wrong { IsClean S.Store conn.new
        → IfErr result (Explains (state S.Store conn.old).now) }
    ensures why { IsClean S.Store conn.new
        → IfErr result (λ e. e ≡ Storage → FailsToReadTables S.Store conn.old conn.new) }
    ensures nothing { WritesNothing (state S.Store conn.old) (state S.Store conn.new) }
    ensures ended { conn.new.in_transaction ≡ false }
{
    lemma_committed(conn);
    match room_tables_of(conn.schema()) {
        Some(tables) => read_sound(alloc, conn, tables),
        None => Err(Wrong::Tables),
    }
}

// The same of a file that has a room's tables, with their indexes or without.
fn read_sound<S: Alter>(
    alloc: Global,
    conn: &mut Connection<S>,
    tables: Tables,
) -> Result<(ReadFile, Summary), Wrong>
    requires tables { (state S.Store conn.old).now.schema ≡ schema_of tables }
    requires new { (tables ≡ Whole) ⊎ (tables ≡ Unindexed) }
    requires outside { conn.old.in_transaction ≡ false }
    requires committed { IsCommitted S.Store conn.old }
    ensures room { IsClean S.Store conn.new
        → IfOk result (λ x. HoldsAll (state S.Store conn.old).now.trees x.0 x.1) }
    ensures wrong { IsClean S.Store conn.new
        → IfErr result (Explains (state S.Store conn.old).now) }
    ensures why { IsClean S.Store conn.new
        → IfErr result (λ e. e ≡ Storage → FailsInside S.Store tables conn.old conn.new) }
    ensures nothing { WritesNothing (state S.Store conn.old) (state S.Store conn.new) }
    ensures ended { conn.new.in_transaction ≡ false }
{
    match read_file(alloc, conn, tables) {
        Ok(whole) => judge(alloc, whole),
        Err(fault) => Err(Wrong::from(fault)),
    }
}

// What was read of a file and how much its room has, or what is wrong with its rows and terminals.
fn judge(alloc: Global, whole: ReadFile) -> Result<(ReadFile, Summary), Wrong>
    ensures sound { IfOk result (λ x. (x.0 ≡ whole)
        × IsAmount whole.config.plan.areas x.1 whole.rows whole.config.terminals.items) }
    ensures wrong { IfErr result
        (Weighs whole.config.plan.areas whole.rows whole.config.terminals.items) }
{
    let summary = weigh(alloc, &whole)?;
    Ok((whole, summary))
}

fn weigh(alloc: Global, whole: &ReadFile) -> Result<Summary, Wrong>
    ensures sound { IfOk result (λ x. IsAmount whole.now.config.plan.areas x whole.now.rows
        whole.now.config.terminals.items) }
    ensures wrong { IfErr result (Weighs whole.now.config.plan.areas whole.now.rows
        whole.now.config.terminals.items) }
{
    let plan = &whole.config.plan;
    let terminals = whole.config.terminals.as_slice();
    let Ok(found) = disagreement(alloc, plan, &whole.rows) else {
        return Err(Wrong::Memory);
    };
    let Ok(misfit) = terminals_fault(alloc, plan, &whole.rows, terminals) else {
        return Err(Wrong::Memory);
    };
    match (found, misfit) {
        (Some(found), _) => Err(Wrong::Rows(found)),
        (None, Some(misfit)) => Err(Wrong::Terminals(misfit)),
        (None, None) => Ok(summary_of(plan, &whole.rows, terminals)),
    }
}
