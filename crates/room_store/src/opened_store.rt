//! A room opened from the tables of a file.
ghost use Rattle.std.specs.Prelude.{◌≡◌, ◌⊎◌, false, List, IfErr, IfOk};
ghost use Rattle.sqlite.specs.Held.{state};
ghost use Rattle.sqlite.specs.State.{Survives};
ghost use Rattle.room_types.specs.declared.fleet.Terminal.{Terminal};
ghost use Rattle.room_model.specs.Room.{Room};
ghost use Rattle.room_tables_schema.specs.Schema.{room_schema};
ghost use Rattle.room_tables_schema.specs.Versions.{HasTables};
ghost use Rattle.room_store.specs.StoredRoom.{IsKept, IsReady, IsRoom};
ghost use Rattle.room_store_writes.specs.Transactions.{Leaves};
ghost use Rattle.room_store_file.specs.OpenedFile.{HidesVersion, IsOldRoom, KeepsFile};
ghost use Rattle.room_store_file.specs.OpenedFile.{MayBeIndexed};
ghost use Rattle.room_store_file.specs.OpeningCauses.{FailsToOpen};
ghost use Rattle.room_store_check_tables.specs.HeldRooms.{HoldsRoom, WritesNothing};
ghost use Rattle.room_store_file.specs.declared.opened_file.OpenFault.TheVariants.{
  NotARoom,
  OtherVersion,
  Storage,
};
ghost use Rattle.room_tables_schema.specs.FileConnections.{IsClean};

use crate::store::Store;
use room_store_cache::cache::Cache;
use room_store_cache::known_terminals::Terminals;
use room_store_file::opened_file::{OpenFault, open_in};
use sqlite::{Alter, Connection};
use std::alloc::Global;

impl<S: Alter> Store<S> {
    /// Opens the room that a file holds, and reads all its rows for that. Where the file has just
    /// a room's tables without their indexes, these are made; in every other file nothing is
    /// written. All rows of all tables stay. A fault leaves the file as it was.
    pub fn open(
        alloc: Global,
        mut conn: Connection<S>,
    ) -> Result<Store<S>, (OpenFault, Connection<S>)>
        requires outside { conn.in_transaction ≡ false }
        ensures ready { IfOk result (IsReady S.Store) }
        ensures room { IfOk result (λ store. IsClean S.Store store.conn
            → (terminals : List Terminal) × (room : Room) × IsRoom S.Store store terminals room) }
        ensures schema { IfOk result (λ store. IsClean S.Store store.conn
            → (state S.Store store.conn).now.schema ≡ room_schema) }
        ensures kept { IfOk result (λ store. IsClean S.Store store.conn
            → IsKept S.Store store) }
        ensures same { IfOk result (λ store. IsClean S.Store store.conn
            → KeepsFile (state S.Store conn) (state S.Store store.conn)) }
        ensures not_old { IfOk result (λ store. IsClean S.Store store.conn
            → ¬ IsOldRoom (state S.Store conn).now) }
        ensures old_room { IfErr result (λ e. IsClean S.Store e.1
            → (e.0 ≡ OtherVersion → IsOldRoom (state S.Store conn).now)
            × (e.0 ≡ NotARoom → ¬ IsOldRoom (state S.Store conn).now)) }
        ensures no_room { IfErr result (λ e. IsClean S.Store e.1 → e.0 ≡ NotARoom
            → HasTables (state S.Store conn).now.schema
            → ¬ HoldsRoom (state S.Store conn).now.trees) }
        ensures why { IfErr result (λ e. IsClean S.Store e.1 → e.0 ≡ Storage
            → HidesVersion (state S.Store conn) (state S.Store e.1)
            ⊎ FailsToOpen S.Store conn e.1) }
        ensures same_fault { IfErr result (λ e. IsClean S.Store e.1
            → Leaves (state S.Store conn) (state S.Store e.1)) }
        ensures untouched { IfErr result (λ e. (e.0 ≡ OtherVersion) ⊎ (e.0 ≡ NotARoom)
            → WritesNothing (state S.Store conn) (state S.Store e.1)) }
        ensures ended { IfErr result (λ e. e.1.in_transaction ≡ false) }
        ensures survives { IfOk result (λ store.
            Survives (state S.Store conn) (state S.Store store.conn)
            (MayBeIndexed (state S.Store conn).now)) }
        ensures survives_fault { IfErr result (λ e.
            Survives (state S.Store conn) (state S.Store e.1)
            (MayBeIndexed (state S.Store conn).now)) }
    {
        match open_in(alloc, &mut conn) {
            Ok(plan) => Ok(Store {
                conn,
                plan,
                terminals: Terminals::new(alloc),
                cache: Cache::new(alloc),
                is_sound: true,
            }),
            Err(fault) => Err((fault, conn)),
        }
    }
}
