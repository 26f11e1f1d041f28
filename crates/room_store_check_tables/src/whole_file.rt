//! All that the tables of a file hold, read inside a transaction.
ghost use Rattle.std.specs.Prelude.{◌≡◌, ◌⊎◌, false, IfErr, IfOk, OnOk, string_bytes};
ghost use Rattle.sqlite.specs.Held.{state};
ghost use Rattle.room_tables_schema.specs.FileConnections.{HasRoomSchema, IsClean};
ghost use Rattle.room_tables_schema.specs.TableTrees.{AreNumbered};
ghost use Rattle.room_tables_schema.specs.Outcomes.{ReadsInside};
ghost use Rattle.room_place.specs.Plans.{is_plan};
ghost use Rattle.room_model.specs.RoomSlices.{room_of};
ghost use Rattle.room_tables.specs.Rowids.{AreAllNumbered};
ghost use Rattle.room_tables.specs.RoomsInTables.{Stands, StandsFor};
ghost use Rattle.room_store_writes.specs.Configurations.{config_of};
ghost use Rattle.room_store_check_tables.specs.HeldRooms.{HasConfiguration, HasNoPlan, HasRows};
ghost use Rattle.room_store_check_tables.specs.HeldRooms.{MakesNoPlan, ReadsNext};
ghost use Rattle.room_store_check_tables.specs.ReadCauses.{ExplainsTable, FailsAtRows};
ghost use Rattle.room_store_check_tables.specs.ReadCauses.{FailsInTables};
ghost use Rattle.room_store_check_tables.specs.declared.file_faults.FileFault.TheVariants.{Memory};
ghost use Rattle.room_store_check_tables.specs.declared.file_faults.FileFault.TheVariants.{NotARoom};
ghost use Rattle.room_store_check_tables.specs.declared.file_faults.FileFault.TheVariants.{Storage};

use crate::file_faults::FileFault;
use room_place::plans::{Area, Plan, PlanFault};
use room_store_check_rows::room_checks::RoomRows;
use room_tables::area_table::all_areas;
use room_tables::meta_table::zone;
use room_tables::room_table::Table;
use room_tables::rowids::are_numbered;
use room_tables::table_loads::all_rows;
use room_tables::terminal_table::all_terminals;
use room_tables_rows::meta_sql::VERSION;
use room_tables_schema::database_faults::Fault;
use room_types::fleet::Terminal;
use room_types::rows::{Part, Rows};
use room_types::slices::DivisionRows;
use room_types::tables::{
    Assignment, Call, Division, Incident, Loan, Offer, Point, Report, Turn, Vehicle,
};
use sqlite::{Alter, Transaction};
use std::alloc::Global;

/// The plan, the terminals and the rows of a file.
#[derive(Drop)]
pub struct ReadFile {
    pub config: Configuration,
    pub rows: RoomRows,
}

/// Reads the whole file. It is no room where a table doesn't give each of its rows a number of its
/// own, or where its areas and its zone make no plan.
pub fn read_whole<S: Alter>(
    alloc: Global,
    tx: &mut Transaction<'_, S>,
) -> Result<ReadFile, FileFault>
    requires room { HasRoomSchema S.Store tx.old.conn.now }
    ensures stands { IsClean S.Store tx.new.conn.now
        → IfOk result (λ x. Stands (state S.Store tx.old.conn.now).now.trees
        (config_of x.config.plan x.config.terminals.items) (room_of x.config.plan.areas x.rows)) }
    ensures no_plan { IsClean S.Store tx.new.conn.now
        → IfErr result (λ e. e ≡ NotARoom → HasNoPlan (state S.Store tx.old.conn.now).now.trees) }
    ensures why { IsClean S.Store tx.new.conn.now
        → IfErr result (λ e. e ≡ Storage
        → FailsInTables S.Store tx.old.conn.now tx.new.conn.now) }
    ensures reads { ReadsInside S.Store tx.old.conn.now tx.new.conn.now result }
    ensures same_reference { tx.new.conn.ghost_name ≡ tx.old.conn.ghost_name }
{
    if !are_numbered(tx)? {
        return Err(FileFault::NotARoom);
    }
    let config = read_config(alloc, tx)?;
    let rows = read_rows(alloc, tx)?;
    Ok(ReadFile { config, rows })
}

/// The plan and the terminals.
#[derive(Drop)]
pub struct Configuration {
    pub plan: Plan,
    pub terminals: Vec<Terminal>,
}

pub(crate) fn read_config<S: Alter>(
    alloc: Global,
    tx: &mut Transaction<'_, S>,
) -> Result<Configuration, FileFault>
    requires room { HasRoomSchema S.Store tx.old.conn.now }
    ensures found { IsClean S.Store tx.new.conn.now
        → IfOk result (λ x. AreAllNumbered (state S.Store tx.old.conn.now).now.trees
        → HasConfiguration (state S.Store tx.old.conn.now).now.trees x.plan.areas x.plan.zone
        x.terminals.items) }
    ensures no_plan { IsClean S.Store tx.new.conn.now
        → IfErr result (λ e. e ≡ NotARoom
        → AreAllNumbered (state S.Store tx.old.conn.now).now.trees
        → MakesNoPlan (state S.Store tx.old.conn.now).now.trees) }
    ensures why { IsClean S.Store tx.new.conn.now
        → IfErr result (λ e. e ≡ Storage
        → FailsInTables S.Store tx.old.conn.now tx.new.conn.now) }
    ensures reads { ReadsInside S.Store tx.old.conn.now tx.new.conn.now result }
    ensures same_reference { tx.new.conn.ghost_name ≡ tx.old.conn.ghost_name }
{
    let terminals = all_terminals(alloc, tx)?;
    let zone = zone(alloc, tx, VERSION)?;
    let areas = all_areas(alloc, tx)?;
    planned_config(alloc, areas, zone, terminals)
}

// The terminals, and the plan of these areas and this zone; a file is no room where they make none.
fn planned_config(
    alloc: Global,
    areas: Vec<Area>,
    zone: String,
    terminals: Vec<Terminal>,
) -> Result<Configuration, FileFault>
    ensures config { IfOk result (λ x. (x.plan.areas ≡ areas.items)
        × (x.plan.zone ≡ string_bytes zone) × (x.terminals.items ≡ terminals.items)) }
    ensures no_plan { IfErr result (λ e. e ≡ NotARoom
        → is_plan areas.items (string_bytes zone) ≡ false) }
    ensures cause { IfErr result (λ e. (e ≡ Memory) ⊎ (e ≡ NotARoom)) }
{
    match Plan::new(alloc, areas, zone.as_str()) {
        Ok(plan) => Ok(Configuration { plan, terminals }),
        Err(PlanFault::Memory) => Err(FileFault::Memory),
        Err(_) => Err(FileFault::NotARoom),
    }
}

fn read_rows<S: Alter>(alloc: Global, tx: &mut Transaction<'_, S>) -> Result<RoomRows, Fault>
    requires room { HasRoomSchema S.Store tx.old.conn.now }
    ensures found { IsClean S.Store tx.new.conn.now
        → IfOk result (λ x. AreAllNumbered (state S.Store tx.old.conn.now).now.trees
        → HasRows (state S.Store tx.old.conn.now).now.trees x) }
    ensures why { ExplainsTable S.Store tx.old.conn.now tx.new.conn.now result }
    ensures reads { ReadsInside S.Store tx.old.conn.now tx.new.conn.now result }
    ensures same_reference { tx.new.conn.ghost_name ≡ tx.old.conn.ghost_name }
{
    let mut done = Ok(());
    // The longest table is read first: a query's rows stay in memory beside what was read before.
    let rows = DivisionRows {
        reports: next_rows::<Report, S>(alloc, tx, &mut done),
        divisions: Part::own(next_rows::<Division, S>(alloc, tx, &mut done)),
        incidents: next_rows::<Incident, S>(alloc, tx, &mut done),
        calls: next_rows::<Call, S>(alloc, tx, &mut done),
        vehicles: Part::own(next_rows::<Vehicle, S>(alloc, tx, &mut done)),
        turns: next_rows::<Turn, S>(alloc, tx, &mut done),
        assignments: Part::own(next_rows::<Assignment, S>(alloc, tx, &mut done)),
        points: Part::own(next_rows::<Point, S>(alloc, tx, &mut done)),
        loans: Part::own(next_rows::<Loan, S>(alloc, tx, &mut done)),
        offers: Part::own(next_rows::<Offer, S>(alloc, tx, &mut done)),
    };
    match done {
        Ok(()) => Ok(rows),
        Err(fault) => {
            drop(rows);
            Err(fault)
        }
    }
}

// The rows of a table, read if all reads before it went well. So a fault is looked at once.
fn next_rows<X: Table, S: Alter>(
    alloc: Global,
    tx: &mut Transaction<'_, S>,
    done: &mut Result<(), Fault>,
) -> Rows<X>
    requires room { OnOk done.old (HasRoomSchema S.Store tx.old.conn.now) }
    ensures room { OnOk done.new (HasRoomSchema S.Store tx.new.conn.now) }
    ensures next { ReadsNext S.Store tx.old.conn.now tx.new.conn.now done.old done.new (λ trees.
        AreNumbered (trees X.table.tree) → StandsFor trees X.table X.cells result)
        (FailsAtRows X.texts.all X.is_row X.Key.cmp X.key_of X.cells) }
    ensures same_reference { tx.new.conn.ghost_name ≡ tx.old.conn.ghost_name }
{
    match done {
        Ok(()) => match all_rows::<X, S>(alloc, tx) {
            Ok(rows) => rows,
            Err(fault) => {
                *done = Err(fault);
                Rows::new(alloc)
            }
        },
        Err(_) => Rows::new(alloc),
    }
}
