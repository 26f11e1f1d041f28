//! A room created in an empty file.

ghost use Rattle.std.specs.Prelude.{◌≡◌, ◌↔◌, IsTrue, IfErr, IfOk, OnOk};
ghost use Rattle.sqlite.specs.Held.{state};
ghost use Rattle.sqlite.specs.State.{HasCleanDisk, Survives};
ghost use Rattle.room_store_writes.specs.Transactions.{Leaves, StandsSettled};
ghost use Rattle.room_store.specs.StoreCreation.{AreNewTerminals, Explains, MayBegin, may_use};
ghost use Rattle.room_store_writes.specs.NewRoom.{StandsNew};
ghost use Rattle.room_tables_schema.specs.FileConnections.{IsClean};

use crate::store::Store;
use room_place::plans::Plan;
use room_store_cache::cache::Cache;
use room_store_cache::known_terminals::Terminals;
use room_store_writes::new_room::create_in;
use room_store_writes::terminal_holders::has_token;
use room_tables::connection_lemmas::lemma_committed;
use room_tables_schema::database_faults::Fault;
use room_tables_schema::schema_tests::is_empty;
use room_types::asks::Who;
use room_types::fleet::Terminal;
use sqlite::{Alter, Connection};
use sqlite_schema::schema::Schema;
use std::alloc::Global;
use thiserror::Error;

/// Why a room is not created. Of several reasons the first of this list is reported.
#[derive(Clone, Copy, Debug, PartialEq, Eq, Error)]
pub enum CreateFault {
    /// The file has a table, an index, a view or a trigger.
    #[error("the file is not empty")]
    NotEmpty,
    /// A desk of a division outside the plan, a crew's terminal, or one token twice.
    #[error("a terminal is not one that a new room may have")]
    BadTerminal,
    /// Memory was refused; the same call may succeed later.
    #[error("out of memory")]
    Memory,
    /// The database failed for another cause.
    #[error("the database failed")]
    Storage,
}

impl From<Fault> for CreateFault {
    ghost use Rattle.room_store.specs.StoreCreation.{create_fault};

    ghost from_gives = { λ fault why. why ≡ create_fault fault };

    fn from(fault: Fault) -> CreateFault {
        match fault {
            Fault::Memory => CreateFault::Memory,
            Fault::Storage => CreateFault::Storage,
        }
    }
}

impl<S: Alter> Store<S> {
    ghost use Rattle.std.specs.Prelude.{◌≡◌, false, IfOk, IfErr, OnOk};
    ghost use Rattle.sqlite.specs.Held.{state};
    ghost use Rattle.sqlite.specs.State.{HasCleanDisk, Survives};
    ghost use Rattle.room_store_writes.specs.Transactions.{IsSettled, Leaves};
    ghost use Rattle.room_store.specs.StoreCreation.{Explains, MayBegin};
    ghost use Rattle.room_store_writes.specs.NewRoom.{StandsNew, in_order, new_room};
    ghost use Rattle.room_store.specs.StoredRoom.{IsKept, IsReady, IsRoom};

    /// Creates a room of the plan with these terminals in a file that has nothing: the areas, a row
    /// for each division of the plan, the terminals, and no other rows. The terminals are of
    /// positions, and of desks of the plan's divisions. A fault leaves the file as it was.
    pub fn create(
        alloc: Global,
        mut conn: Connection<S>,
        plan: &Plan,
        terminals: &[Terminal],
    ) -> Result<Store<S>, (CreateFault, Connection<S>)>
        requires outside { conn.in_transaction ≡ false }
        ensures ready { IfOk result (IsReady S.Store) }
        ensures same_plan { IfOk result (λ store. (store.plan.areas ≡ plan.now.areas)
            × (store.plan.zone ≡ plan.now.zone)) }
        ensures room { IfOk result (λ store. IsClean S.Store store.conn
            → IsRoom S.Store store (in_order terminals.now) (new_room plan.now)) }
        ensures settled { IfOk result (λ store. StandsSettled S.Store store.conn) }
        ensures kept { IfOk result (λ store. IsClean S.Store store.conn
            → IsKept S.Store store) }
        ensures begun { OnOk result (MayBegin
            (state S.Store conn).now.schema plan.now terminals.now) }

        ensures why { IfErr result (λ e.
            Explains (state S.Store conn).now.schema plan.now terminals.now e.0) }
        ensures ended { IfErr result (λ e. e.1.in_transaction ≡ false) }
        ensures err { IfErr result (λ e. IsClean S.Store e.1
            → Leaves (state S.Store conn) (state S.Store e.1)) }

        // What a stop may leave is what it could before, or the whole room.
        ensures survives { IfOk result (λ store.
            Survives (state S.Store conn) (state S.Store store.conn)
            (StandsNew plan.now terminals.now)) }
        ensures survives_fault { IfErr result (λ e.
            Survives (state S.Store conn) (state S.Store e.1) (StandsNew plan.now terminals.now)) }
    {
        lemma_committed(&conn);
        match own_plan(alloc, conn.schema(), plan, terminals) {
            Ok(own) => match create_in(&mut conn, plan, terminals) {
                Ok(()) => Ok(Store {
                    conn,
                    plan: own,
                    terminals: Terminals::new(alloc),
                    cache: Cache::new(alloc),
                    is_sound: true,
                }),
                Err(fault) => Err((CreateFault::from(fault), conn)),
            },
            Err(fault) => Err((fault, conn)),
        }
    }
}

// The plan in memory of the room's own, where a room may begin in a file of this schema. Its areas
// and zone are a plan's already, so of them only memory can fail.
fn own_plan(
    alloc: Global,
    schema: &Schema,
    plan: &Plan,
    terminals: &[Terminal],
) -> Result<Plan, CreateFault>
    ensures plan { IfOk result (λ own. (own.areas ≡ plan.now.areas) × (own.zone ≡ plan.now.zone)) }
    ensures begun { OnOk result (MayBegin schema.now plan.now terminals.now) }
    ensures why { IfErr result (Explains schema.now plan.now terminals.now) }
{
    if !is_empty(schema) {
        return Err(CreateFault::NotEmpty);
    }
    if !are_new(plan, terminals) {
        return Err(CreateFault::BadTerminal);
    }
    let Ok(areas) = Vec::from_slice(alloc, plan.areas()) else {
        return Err(CreateFault::Memory);
    };
    match Plan::new(alloc, areas, plan.zone()) {
        Ok(own) => Ok(own),
        Err(_) => Err(CreateFault::Memory),
    }
}

// Whether a new room of the plan may have these terminals: it may have the user of each, and no two
// have one token.
fn are_new(plan: &Plan, terminals: &[Terminal]) -> bool
    ensures { IsTrue result ↔ AreNewTerminals plan.now terminals.now }
{
    for (index, terminal) in terminals.iter().enumerate() {
        if !may_use(plan, terminal.who) {
            return false;
        }
        if has_token(&terminals[index + 1..], &terminal.token) {
            return false;
        }
    }
    true
}

fn may_use(plan: &Plan, who: Who) -> bool
    ensures { result ≡ may_use plan.now.areas who }
{
    match who {
        Who::Position(_) => true,
        Who::Desk(division) => plan.has(division),
        Who::Crew(_) => false,
    }
}
