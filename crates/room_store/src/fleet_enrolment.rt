//! Rows of a fleet, enrolled: vehicles and their crews' terminals.
ghost use Rattle.std.specs.Prelude.{◌≡◌, ◌++◌, ◌∷◌, [], List, false, IsTrue, IfOk, IfErr, OnOk};
ghost use Rattle.std.specs.Prelude.{OnErr, length};
ghost use Rattle.sqlite.specs.Held.{state};
ghost use Rattle.sqlite.specs.State.{Survives};
ghost use Rattle.sqlite_trees.specs.Tree.{Trees};
ghost use Rattle.room_tables_schema.specs.FileConnections.{HasRoomSchema, IsClean};
ghost use Rattle.room_tables_schema.specs.Outcomes.{ReadsOnly};
ghost use Rattle.room_types.specs.declared.fleet.RowFate.TheVariants as row_fate;
ghost use Rattle.room_types.specs.declared.fleet.Terminal.{Terminal as Known};
ghost use Rattle.room_model.specs.FleetRows.{fate_by, fate_of, is_crews_terminal, is_same_vehicle};
ghost use Rattle.room_model.specs.FleetRows.{room_enrolled, terminals_enrolled};
ghost use Rattle.room_model.specs.Room.{Room};
ghost use Rattle.room_model.specs.Rooms.{IsUnavailable};
ghost use Rattle.room_tables.specs.RoomsInTables.{Configuration, Stands};
ghost use Rattle.room_store_writes.specs.Transactions.{IsSettled, LeavesOnErr};
ghost use Rattle.room_store_writes.specs.EnrolledRows.{Enrols, StandsAfter};
ghost use Rattle.room_store_cache.specs.Cache.{IsCacheOf};
ghost use Rattle.room_store.specs.FleetEnrolment.{HasEnrolled, MayBeEnrolled, StandsInPlan};
ghost use Rattle.room_store.specs.FleetEnrolment.{fate_in};
ghost use Rattle.room_store.specs.StoredRoom.{IsReady, IsRoom};
ghost use Rattle.room_store_writes.specs.Configurations.{config_of};

use crate::store::Store;
use crate::store_faults::refusal_of;
use room_place::plans::Plan;
use room_store_writes::enrolled_rows::write;
use room_tables::connection_lemmas::lemma_committed;
use room_tables::table_loads::row_at;
use room_tables::terminal_table::terminal_at;
use room_tables_schema::database_faults::Fault;
use room_types::asks::Who;
use room_types::callsign::Callsign;
use room_types::fleet::{FleetRow, RowFate, Terminal};
use room_types::refusal_statuses::Refusal;
use room_types::tables::Vehicle;
use sqlite::{Alter, Connection};

impl<S: Alter> Store<S> {
    /// Enrols the rows of a fleet in order, each in a transaction of its own, and adds what became
    /// of each to `out`: `Added`, `Same`, or `Refused` as `NoSuchDivision`, `CallsignTaken` or
    /// `TokenTaken`. A row that is refused changes nothing, and those after it are enrolled all the
    /// same.
    ///
    /// It ends at the first row for which memory or storage fails. That one changes nothing; `out`
    /// then holds the fates of those before it.
    pub fn import(&mut self, rows: &[FleetRow], out: &mut Vec<RowFate>) -> Result<(), Refusal>
        requires ready { IsReady S.Store self.old }
        ensures ready { IsReady S.Store self.new }
        ensures plan { self.new.plan ≡ self.old.plan }
        ensures enrolled { IsClean S.Store self.new.conn
            → (terminals : List Known) (room : Room) → IsRoom S.Store self.old terminals room
            → (done : HasEnrolled S.Store self.old self.new rows.now out.old.items out.new.items
            terminals room) × OnOk result (done.count ≡ length rows.now) }
        ensures unavailable { IfErr result IsUnavailable }
        ensures survives { Survives (state S.Store self.old.conn) (state S.Store self.new.conn)
            (MayBeEnrolled S.Store self.old rows.now) }
    {
        for row in rows {
            match self.enrol(row, out) {
                Ok(()) => {}
                Err(refusal) => return Err(refusal),
            }
        }
        Ok(())
    }

    fn enrol(&mut self, row: &FleetRow, out: &mut Vec<RowFate>) -> Result<(), Refusal>
        requires ready { IsReady S.Store self.old }
        ensures ready { IsReady S.Store self.new }
        ensures plan { self.new.plan ≡ self.old.plan }
        ensures known { self.new.terminals ≡ self.old.terminals }
        ensures cache { (room : Room) → IsCacheOf self.old.cache room
            → IsCacheOf self.new.cache room }
        ensures fate { IsClean S.Store self.new.conn
            → OnOk result ((terminals : List Known) (room : Room)
            → IsRoom S.Store self.old terminals room
            → out.new.items ≡ out.old.items ++ fate_of room terminals row.now ∷ []) }
        ensures ok { IsClean S.Store self.new.conn
            → OnOk result ((terminals : List Known) (room : Room)
            → IsRoom S.Store self.old terminals room
            → IsRoom S.Store self.new (terminals_enrolled room terminals row.now)
            (room_enrolled room terminals row.now)) }
        ensures settled { IsClean S.Store self.new.conn
            → OnOk result (IsSettled (state S.Store self.new.conn)) }
        ensures only_left { IsClean S.Store self.new.conn
            → OnOk result ((db : Trees) → (state S.Store self.new.conn).may_leave db
            → db ≡ (state S.Store self.new.conn).now.trees) }
        ensures err { LeavesOnErr S.Store self.old.conn self.new.conn result }
        ensures kept { OnErr result (out.new.items ≡ out.old.items) }
        ensures unavailable { IfErr result IsUnavailable }
        ensures survives { Survives (state S.Store self.old.conn) (state S.Store self.new.conn)
            (λ db. IsTrue (state S.Store self.old.conn).is_open
            → (terminals : List Known) (room : Room) → IsRoom S.Store self.old terminals room
            → Stands db (config_of self.old.plan (terminals_enrolled room terminals row.now))
            (room_enrolled room terminals row.now)) }
    {
        if !self.is_sound {
            return Err(Refusal::Storage);
        }
        self.cache.forget();
        match add_fate(&mut self.conn, &self.plan, row, out) {
            Ok(()) => Ok(()),
            Err(fault) => {
                self.test_file();
                Err(refusal_of(fault))
            }
        }
    }
}

// Enrols a row, and adds its fate to `out`. A fault changes neither.
fn add_fate<S: Alter>(
    conn: &mut Connection<S>,
    plan: &Plan,
    row: &FleetRow,
    out: &mut Vec<RowFate>,
) -> Result<(), Fault>
    requires room { HasRoomSchema S.Store conn.old }
    requires outside { conn.old.in_transaction ≡ false }
    ensures fate { IsClean S.Store conn.new
        → OnOk result ((config : Configuration) (room : Room)
        → StandsInPlan (state S.Store conn.old).now.trees plan.now config room
        → out.new.items ≡ out.old.items ++ fate_in row.now config room ∷ []) }
    ensures ok { IsClean S.Store conn.new
        → OnOk result (Enrols (state S.Store conn.old) (state S.Store conn.new) row.now
        (StandsInPlan (state S.Store conn.old).now.trees plan.now) (fate_in row.now)) }
    ensures err { LeavesOnErr S.Store conn.old conn.new result }
    ensures kept { OnErr result (out.new.items ≡ out.old.items) }
    ensures ended { conn.new.in_transaction ≡ false }
    ensures survives { Survives (state S.Store conn.old) (state S.Store conn.new) (λ db.
        (config : Configuration) (room : Room)
        → StandsInPlan (state S.Store conn.old).now.trees plan.now config room
        → StandsAfter (fate_in row.now config room) row.now config room db) }
{
    lemma_committed(conn);
    let fate = find_fate(conn, plan, row)?;
    out.push(fate)?;
    match write(conn, row, fate) {
        Ok(()) => Ok(()),
        Err(fault) => {
            let _ = out.pop();
            Err(fault)
        }
    }
}

// What becomes of a row, by the vehicle of its callsign and the terminal of its token.
fn find_fate<S: Alter>(
    conn: &mut Connection<S>,
    plan: &Plan,
    row: &FleetRow,
) -> Result<RowFate, Fault>
    requires room { HasRoomSchema S.Store conn.old }
    ensures fate { IsClean S.Store conn.new
        → IfOk result (λ fate. (config : Configuration) (room : Room)
        → StandsInPlan (state S.Store conn.old).now.trees plan.now config room
        → fate ≡ fate_in row.now config room) }
    ensures reads { ReadsOnly S.Store conn.old conn.new result }
{
    let vehicle = row_at::<Vehicle, S>(conn, &row.callsign)?;
    let terminal = terminal_at(conn, &row.token)?;
    if plan.has(row.division) {
        Ok(fate_by(vehicle, terminal, row))
    } else {
        Ok(RowFate::Refused(Refusal::NoSuchDivision))
    }
}

// What becomes of a row whose division is in the plan.
fn fate_by(vehicle: Option<Vehicle>, terminal: Option<Terminal>, row: &FleetRow) -> RowFate
    ensures { result ≡ fate_by vehicle terminal row.now }
{
    match vehicle {
        Some(vehicle) if is_same_vehicle(&vehicle, terminal, row) => RowFate::Same,
        Some(_) => RowFate::Refused(Refusal::CallsignTaken),
        None if terminal.is_some() => RowFate::Refused(Refusal::TokenTaken),
        None => RowFate::Added,
    }
}

// A vehicle moves, so its place is not compared.
fn is_same_vehicle(vehicle: &Vehicle, terminal: Option<Terminal>, row: &FleetRow) -> bool
    ensures { result ≡ is_same_vehicle vehicle.now terminal row.now }
{
    vehicle.home == row.division
        && vehicle.kind == row.kind
        && is_crews_terminal(row.callsign, terminal)
}

fn is_crews_terminal(callsign: Callsign, terminal: Option<Terminal>) -> bool
    ensures { result ≡ is_crews_terminal callsign terminal }
{
    match terminal {
        Some(terminal) => terminal.who == Who::Crew(callsign),
        None => false,
    }
}
