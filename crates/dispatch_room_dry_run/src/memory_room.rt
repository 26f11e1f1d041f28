//! The example room, made in memory.
ghost use Rattle.std.specs.Prelude.{◌≡◌, ◌⊎◌, IfOk, IfErr};
ghost use Rattle.sqlite.specs.Steps.{over_memory};
ghost use Rattle.room_types.specs.declared.refusal_statuses.Refusal.TheVariants as refusal;
ghost use Rattle.room_model.specs.Rooms.{IsUnavailable};
ghost use Rattle.room_store_writes.specs.NewRoom.{in_order, new_room};
ghost use Rattle.room_store.specs.StoredRoom.{IsReady, IsRoom};
ghost use Rattle.room_store.specs.declared.store_creation.CreateFault.TheVariants.{Memory, Storage};
ghost use Rattle.dispatch_room_dry_run.specs.Example.{example_plan, example_terminals};
ghost use Rattle.dispatch_room_dry_run.specs.Example.{room_with_fleet, terminals_with_crews};

use crate::example::{fleet, plan, terminals};
use room_store::store::Store;
use room_store::store_creation::CreateFault;
use room_types::refusal_statuses::Refusal;
use sqlite::{Connection, MemStore};
use std::alloc::Global;

/// The example room, made anew in memory: its plan and terminals, and then its fleet, enrolled row
/// by row. A refusal is lack of memory or of storage.
pub fn example_room(alloc: Global) -> Result<Store<MemStore>, Refusal>
    ensures ready { IfOk result (IsReady over_memory) }
    ensures zone { IfOk result (λ store. store.plan.zone ≡ example_plan.zone) }
    ensures room { IfOk result (λ store.
        IsRoom over_memory store terminals_with_crews room_with_fleet) }
    ensures unavailable { IfErr result IsUnavailable }
{
    let mut store = empty_room(alloc)?;
    let mut fates = Vec::new(alloc);
    match store.import(&fleet(), &mut fates) {
        Ok(()) => Ok(store),
        Err(refusal) => {
            let _ = store.close();
            Err(refusal)
        }
    }
}

// The room before any vehicle is enrolled.
fn empty_room(alloc: Global) -> Result<Store<MemStore>, Refusal>
    ensures ready { IfOk result (IsReady over_memory) }
    ensures zone { IfOk result (λ store. store.plan.zone ≡ example_plan.zone) }
    ensures room { IfOk result (λ store.
        IsRoom over_memory store (in_order example_terminals) (new_room example_plan)) }
    ensures unavailable { IfErr result IsUnavailable }
{
    let Ok(plan) = plan(alloc) else {
        return Err(Refusal::Memory);
    };
    let Ok(conn) = Connection::open_in_memory(alloc) else {
        return Err(Refusal::Memory);
    };
    match Store::create(alloc, conn, &plan, &terminals()) {
        Ok(store) => Ok(store),
        Err((fault, _)) => Err(refusal_of(fault)),
    }
}

// Why making the room failed.
fn refusal_of(fault: CreateFault) -> Refusal
    requires { (fault ≡ Memory) ⊎ (fault ≡ Storage) }
    ensures memory { fault ≡ Memory → result ≡ refusal.Memory }
    ensures storage { fault ≡ Storage → result ≡ refusal.Storage }
{
    match fault {
        CreateFault::Memory => Refusal::Memory,
        _ => Refusal::Storage,
    }
}
